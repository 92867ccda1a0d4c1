//! The listing of a page: each line with its address and its bytes, and above it who refers to it.

use crate::kind::Kind;
use crate::lines::Line;
use crate::markup::{Link, LinkTo, Piece, Put, Result, Text, add, digits_of, is_plain, put};
use crate::pictures::{LEAST, put_pictures};
use crate::survey::{Mark, Run, Shown, Survey, part_of};
use crate::uses::put_references;
use std::alloc::Global;
use text65::hex_digit;

/// How many bytes of a line are shown.
const BYTES: usize = 4;

/// From how many lines on filler is folded.
const FOLDED: usize = 8;

/// From how many bytes on a listing stands in parts, and how many lines a part has.
const PARTED: usize = 262_144;

const PART: usize = 512;

/// What stands before folded bytes, and after filler; how many bytes there are stands between.
const FOLD: &str = "<i class=\"r\"><label><input type=\"checkbox\">";

const FILLER_END: &str = " bytes of filler</label>\n</i><b class=\"f\">";

/// Appends the address of a line and its first bytes, if it has bytes. The tab goes on where the text begins.
fn put_left(out: &mut Text, at: usize, bytes: &[u8]) {
    if bytes.is_empty() {
        return add(out, b"<i>\t</i>");
    }
    let mut left = *b"<i id=\"a0000\">0000 00 00 00 00..\t</i>";
    let digits = digits_of(at);
    for place in 0..4 {
        left[8 + place] = digits[place];
        left[14 + place] = digits[place];
    }
    for place in 0..BYTES {
        if let Some(byte) = bytes.get(place) {
            left[19 + 3 * place] = hex_digit(*byte / 16);
            left[20 + 3 * place] = hex_digit(*byte % 16);
        }
    }
    if BYTES < bytes.len() {
        return add(out, &left);
    }
    let end = 18 + 3 * bytes.len();
    for (to, from) in left[end..].iter_mut().zip(b"\t</i>") {
        *to = *from;
    }
    add(out, &left[..end + 5]);
}

/// Appends a part of the text of a line with its markup.
fn put_mark(out: &mut Text, survey: &Survey<'_, '_>, mark: &Mark, text: Piece<'_>) {
    match mark.1 {
        Shown::Definition => put!(out; ("<b id=\"l", mark.0), "\">", text, "</b>"),
        Shown::Text => put!(out; "<span class=\"t\">", text, "</span>"),
        Shown::Remark => put!(out; "<span class=\"c\">", text, "</span>"),
        Shown::Name(place) => {
            if let Some(named) = survey.names.get(place) {
                put!(out; Link(named.line, text));
            }
        }
        Shown::Address(address) => put!(out; LinkTo(b'r', address, text)),
    }
}

/// Appends a line as it stands up to a byte, with the first of these marks. Returns those that stand on later lines.
fn put_line<'m>(
    out: &mut Text,
    survey: &Survey<'_, '_>,
    (line, end): (Line<'_>, usize),
    marks: &'m [Mark],
) -> &'m [Mark] {
    if line.text.is_empty() {
        put!(out; part_of(line.whole, 0, end));
        return marks;
    }
    let is_plain = is_plain(line.whole);
    put_left(out, line.at, survey.between(line.at, line.end));
    let mut from = 0;
    let mut count: usize = 0;
    for mark in marks {
        let Mark(number, _, span) = *mark;
        if number != line.number {
            break;
        }
        put!(out; Piece(part_of(line.text, from, span.from), is_plain));
        let text = Piece(part_of(line.text, span.from, span.to), is_plain);
        put_mark(out, survey, mark, text);
        from = span.to;
        count = count.saturating_add(1);
    }
    put!(out; Piece(part_of(line.whole, from, end), is_plain));
    marks.get(count..).unwrap_or(&[])
}

/// Appends the bytes of a run as pictures, in what folds open above its first line.
fn put_run(alloc: Global, out: &mut Text, survey: &Survey<'_, '_>, run: &Run) -> Result<()> {
    let bytes = survey.between(run.at, run.end);
    if run.kind == Kind::Bytes && LEAST <= bytes.len() {
        put!(out; (FOLD, bytes.len()), " bytes as pixels<b>");
        put_pictures(alloc, out, bytes)?;
        put!(out; "</b></label>\n</i>");
    }
    Ok(())
}

/// The elements that hold lines.
#[derive(Clone, Copy)]
struct Holders {
    /// Whether the listing stands in parts, so that a browser lays out only what is seen; and one has begun.
    is_parted: bool,
    has_begun: bool,
    /// The last line of filler that is folded, if the lines are such.
    folded: Option<usize>,
}

impl Holders {
    /// Begins what holds a line. A run may begin with it.
    fn begin(&mut self, out: &mut Text, line: usize, run: Option<&Run>) {
        if self.is_parted && line % PART == 1 && self.folded.is_none() {
            put!(out; if self.has_begun { "</b>" } else { "" }, "<b class=\"p\">");
            self.has_begun = true;
        }
        if let Some(run) = run
            && run.kind == Kind::Filler
            && FOLDED <= run.last.saturating_sub(run.line)
        {
            put!(out; (FOLD, run.len()), FILLER_END);
            self.folded = Some(run.last);
        }
    }
}

/// Appends the listing: above each name who refers to it, and above the first line of bytes these as pictures.
pub fn put_listing(alloc: Global, out: &mut Text, survey: &Survey<'_, '_>) -> Result<()> {
    let mut line = Line::before(survey.text, survey.start);
    let mut marks = survey.marks.as_slice();
    let mut names = survey.names.as_slice();
    let mut runs = survey.runs.as_slice();
    let mut holders = Holders {
        is_parted: PARTED <= survey.text.len(),
        has_begun: false,
        folded: None,
    };
    // A browser leaves out a line feed with which the text of an element begins.
    let is_feed_first = survey.text.first() == Some(&b'\n');
    put!(out; "<pre id=\"listing\">", if is_feed_first { "<i></i>" } else { "" });
    for end in survey.ends {
        line = line.next(end);
        let run = match runs {
            [run, ..] if run.line == line.number => Some(run),
            _ => None,
        };
        holders.begin(out, line.number, run);
        if let [named, rest @ ..] = names
            && named.line == line.number
        {
            put_references(out, survey, named);
            names = rest;
        }
        if let Some(run) = run {
            put_run(alloc, out, survey, run)?;
            runs = runs.get(1..).unwrap_or(&[]);
        }
        let is_last = holders.folded == Some(line.number);
        let end = if is_last { line.text } else { line.whole }.len();
        marks = put_line(out, survey, (line, end), marks);
        if is_last {
            put!(out; "</b>", part_of(line.whole, end, line.whole.len()));
            holders.folded = None;
        }
    }
    put!(out; if holders.has_begun { "</b>" } else { "" }, "</pre>\n");
    Ok(())
}
