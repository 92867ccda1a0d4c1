//! Runs as rows of tables, and what they show.
//!
//! A row is `= `, its name, `: `, a command line, ` <` and the bytes of the input, where `*N` repeats the byte before
//! it until there are N. If the image is not that input, or its start is not given by `-S`, ` @ `, its start and its
//! bytes follow. Then come the lines of the information file, if there is an include file a line `k.inc:` and its
//! lines, and a line `--` with the CPU if it is not the 6502, or with `refused` and the message. After it stand the
//! warnings and the lines of the listing without its header, which is there if the line is `-- whole`.
use crate::tests::asserts::assert_same;
use crate::tests::built::parts_of;
use crate::tests::large_rows::large_rows;
use crate::tests::runs::{AGAIN, Given, SKIPPED};
use crate::tests::small_rows::SMALL;
use crate::tests::worked_rows::WORKED;
use da65::File;
use std::alloc::{AllocError, AllocGlobal, Global};
use std::process::Abort;

/// A number in hexadecimal digits.
pub fn hex(rt: &impl Abort, digits: &str) -> u16 {
    u16::from_str_radix(digits, 16).expect(rt, "from_str_radix")
}

/// The bytes of a text, each in two hexadecimal digits.
fn bytes_of(rt: &(impl AllocGlobal + Abort), text: &str) -> Vec<u8> {
    let mut bytes = Vec::new(rt.alloc());
    for word in text.split_whitespace() {
        match word.strip_prefix("*") {
            Some(count) => {
                let last = bytes.last().copied().unwrap_or(0);
                let count = count.parse().expect(rt, "parse");
                bytes.resize(count, last).expect(rt, "resize");
            }
            None => {
                let byte = u8::from_str_radix(word, 16).expect(rt, "from_str_radix");
                bytes.push(byte).expect(rt, "push");
            }
        }
    }
    bytes
}

/// The words of a text.
pub fn words_of<'a>(alloc: Global, text: &'a str) -> Result<Vec<&'a str>, AllocError> {
    let mut words = Vec::new(alloc);
    for word in text.split_whitespace() {
        words.push(word)?;
    }
    Ok(words)
}

/// These lines if a text begins with them, and what follows them.
fn after_front<'a>(text: &'a str, front: &'a str) -> (&'a str, &'a str) {
    match text.strip_prefix(front) {
        Some(rest) => (front, rest),
        None => ("", text),
    }
}

/// What a row of a table says.
#[derive(Drop)]
pub struct Row<'a> {
    pub name: &'a str,
    pub words: Vec<&'a str>,
    pub input: Vec<u8>,
    start: u16,
    image: Vec<u8>,
    pub info: &'a str,
    /// The file `k.inc`, or one that no information file includes.
    pub files: [File<'a>; 1],
    /// The CPU of the listing, `whole`, or `refused` and the message.
    outcome: &'a str,
    lines: String,
}

impl Row<'_> {
    /// What its run is given.
    pub fn given(&self) -> Given<'_> {
        Given {
            words: &self.words,
            info: self.info.as_bytes(),
            files: &self.files,
            input: &self.input,
        }
    }

    /// The header of its listing.
    fn header(&self, rt: &(impl AllocGlobal + Abort)) -> String {
        let cpu = match self.outcome {
            "whole" => return String::new(rt.alloc()),
            "" => "6502",
            cpu => cpu,
        };
        format!(in rt.alloc(); "; da65 listing\n\n        .setcpu \"{cpu}\"\n\n").expect(
            rt, "format",
        )
    }

    /// What its run gives as text: the result, the messages and the listing.
    pub fn text(&self, rt: &(impl AllocGlobal + Abort)) -> String {
        let (skipped, lines) = after_front(&self.lines, SKIPPED);
        let (again, lines) = after_front(lines, AGAIN);
        let header = self.header(rt);
        match self.outcome.strip_prefix("refused ") {
            Some(message) => format!(in rt.alloc(); "Ok(Refused)\nda65: {message}\n"),
            None => format!(in rt.alloc(); "Ok(Done)\n{skipped}{again}{header}{lines}"),
        }
        .expect(rt, "format")
    }

    /// A run gives what the row says.
    fn is_given(&self, rt: &(impl AllocGlobal + Abort)) {
        let found = self.given().gives(rt, self.name);
        assert_same(rt, found.as_bytes(), self.text(rt).as_bytes(), &self.name);
    }

    /// If there is a listing, and no byte is skipped, it assembles to the image.
    fn comes_back(&self, rt: &(impl AllocGlobal + Abort)) {
        if !self.outcome.starts_with("refused") && !self.lines.starts_with(SKIPPED) {
            self.given()
                .comes_back(rt, self.name, self.start, &self.image);
        }
    }

    /// The calls of a run, by themselves, refuse as the row says, or read its image and map it.
    fn is_parts(&self, rt: &(impl AllocGlobal + Abort)) {
        let start = self.start;
        let image = self.image.escape_ascii();
        let want = match self.outcome.strip_prefix("refused ") {
            Some("no input file") => return,
            Some(message) => String::from_str(rt.alloc(), message),
            None => format!(in rt.alloc(); "{start:04X} {image}"),
        };
        let want = want.expect(rt, "format");
        let found = parts_of(rt, &self.given());
        assert_same(rt, found.as_bytes(), want.as_bytes(), &self.name);
    }
}

/// The image of an input, and its start: what is said of it after `@`, or the start of the command line.
fn image_of(rt: &(impl AllocGlobal + Abort), words: &str, bytes: &str) -> (u16, Vec<u8>) {
    if let Some((_, image)) = bytes.split_once(" @ ") {
        let (start, image) = image.split_once(" ").unwrap_or((image, ""));
        return (hex(rt, start), bytes_of(rt, image));
    }
    let image = bytes_of(rt, bytes);
    if let Some((_, words)) = words.split_once("-S $") {
        let (start, _) = words.split_once(" ").unwrap_or((words, ""));
        return (hex(rt, start), image);
    }
    let before = 65_536usize.saturating_sub(image.len());
    (u16::try_from(before).unwrap_or(0), image)
}

/// The row of a text.
fn row_of<'a>(rt: &(impl AllocGlobal + Abort), text: &'a str) -> Row<'a> {
    let (head, rest) = text.split_once("\n--").expect(rt, "outcome");
    let (outcome, lines) = rest.split_once("\n").unwrap_or((rest, ""));
    let (line, info) = head.split_once("\n").unwrap_or((head, ""));
    let (name, command) = line.split_once(": ").expect(rt, "name");
    let (words, bytes) = command.split_once(" <").expect(rt, "bytes");
    let (input, _) = bytes.split_once(" @ ").unwrap_or((bytes, ""));
    let (start, image) = image_of(rt, words, bytes);
    let (info, include) = info.split_once("k.inc:\n").unwrap_or((info, ""));
    let is_including = head.contains("k.inc:\n");
    Row {
        name,
        words: words_of(rt.alloc(), words).expect(rt, "words_of"),
        input: bytes_of(rt, input),
        start,
        image,
        info,
        files: [File {
            name: if is_including { "k.inc" } else { "" },
            bytes: include.as_bytes(),
        }],
        outcome: outcome.strip_prefix(" ").unwrap_or(outcome),
        lines: format!(in rt.alloc(); "{lines}\n").expect(rt, "format"),
    }
}

/// The rows of a table.
pub fn rows_of<'a>(rt: &(impl AllocGlobal + Abort), table: &'a str) -> Vec<Row<'a>> {
    let table = table.strip_suffix("\n").unwrap_or(table);
    let mut rows = Vec::new(rt.alloc());
    for text in table.split("\n= ").skip(1) {
        rows.push(row_of(rt, text)).expect(rt, "push");
    }
    rows
}

/// Each row of the table is as it says.
pub fn show(rt: &(impl AllocGlobal + Abort), table: &str) {
    for row in &rows_of(rt, table) {
        row.is_given(rt);
        row.comes_back(rt);
    }
}

#[test]
fn runs_give_what_rows_say(rt: HostRuntime) {
    let large = large_rows(&rt);
    for table in [WORKED, SMALL, &large] {
        for row in &rows_of(&rt, table) {
            row.is_given(&rt);
        }
    }
}

#[test]
fn listings_assemble_to_their_images(rt: HostRuntime) {
    let large = large_rows(&rt);
    for table in [WORKED, SMALL, &large] {
        for row in &rows_of(&rt, table) {
            row.comes_back(&rt);
        }
    }
}

#[test]
fn calls_give_what_runs_give(rt: HostRuntime) {
    let large = large_rows(&rt);
    for table in [WORKED, SMALL, &large] {
        for row in &rows_of(&rt, table) {
            row.is_parts(&rt);
        }
    }
}
