//! Quotes, marks and ends of lines that no line of a listing has.

use crate::guess::{Guess, plain};
use crate::words::Row;

/// What stands right after the quote at the end of a string, if it is no blank, no carriage return, no comma, no colon
/// and no comment.
fn after_string(line: &[u8]) -> Option<u8> {
    let mut inside = false;
    for (at, byte) in line.iter().enumerate() {
        match (*byte, inside) {
            (b';', false) => return None,
            (b'"', true) => {
                match line.get(at.saturating_add(1)) {
                    None | Some(b' ' | b'\t' | b'\r' | b',' | b':' | b';') => {}
                    Some(other) => return Some(*other),
                }
                inside = false;
            }
            (b'"', false) => inside = true,
            _ => {}
        }
    }
    None
}

/// The quote that a line begins and does not end; 0 if there is none.
fn open_quote(line: &[u8]) -> u8 {
    let mut open = 0;
    for byte in line {
        let byte = *byte;
        if open == 0 {
            if byte == b';' {
                return 0;
            }
            if byte == b'"' || byte == b'\'' {
                open = byte;
            }
        } else if byte == open {
            open = 0;
        }
    }
    open
}

/// Whether a line has a quote as texts are printed, in UTF-8.
fn has_printed_quote(line: &[u8]) -> bool {
    let mut rest = line;
    for _ in 0..line.len() {
        if let [0xE2, 0x80, 0x98..=0x9F, ..] = rest {
            return true;
        }
        rest = rest.get(1..).unwrap_or(&[]);
    }
    false
}

/// Whether two marks stand side by side.
fn has_pair(row: &Row<'_>, first: u8, second: u8) -> bool {
    (0..row.len()).any(|at| {
        row.mark(at) == first && row.mark(at.saturating_add(1)) == second && row.are_close(at)
    })
}

/// What bytes and marks say, if they say anything.
fn by_marks(row: &Row<'_>) -> &'static str {
    let line = row.line;
    let rows = [
        (line.starts_with(b"\xef\xbb\xbf"), "a byte order mark"),
        (
            0 < row.count(b'\r'),
            "a carriage return ends the line: lines end with a line feed",
        ),
        (has_printed_quote(line), "quotes are written \" and '"),
        (open_quote(line) == b'"', "a string ends with a quote \""),
        (
            0 < row.count(b'\''),
            "a character is written 'A', a text \"AB\"",
        ),
        (
            has_pair(row, b'/', b'/') || has_pair(row, b'/', b'*'),
            "a comment begins with ;",
        ),
    ];
    let found = rows.iter().find(|(holds, _)| *holds);
    found.map_or("", |(_, text)| *text)
}

/// What is said of a line by the end of a string, or else by marks.
fn by_text(row: &Row<'_>) -> &'static str {
    match after_string(row.line) {
        Some(b'|' | b'+' | b'^' | b'&') => "what is no string is a number, as 'D'+$80",
        Some(_) => "a quote inside a string is written $22",
        None => by_marks(row),
    }
}

/// What quotes and marks say.
pub(crate) fn guess_text<'a>(row: &Row<'a>) -> Option<Guess<'a>> {
    let text = by_text(row);
    plain(!text.is_empty(), text)
}
