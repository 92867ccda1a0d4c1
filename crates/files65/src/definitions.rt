//! The lines of a listing that define a name, also those that cannot be read, for what is said of a fault.

use crate::guess::put_guess;
use crate::lines::line_at;
use crate::shown::{put_shown, trimmed};
use crate::words::{after_blanks, first_word};
use std::alloc::{AllocError, Global};
use stmt65::{Source, read_line};
use text65::{first_line, put_decimal};

/// A line that gives a value to a name: its number, from 1, the name and the line.
#[derive(Clone, Copy)]
struct Defining<'t> {
    number: usize,
    name: &'t [u8],
    line: &'t [u8],
}

/// The word before the colon or the `=` of a line, whatever comes after it.
fn defined_in(line: &[u8]) -> Option<&[u8]> {
    let (name, rest) = first_word(after_blanks(line));
    match after_blanks(rest).first() {
        Some(b':' | b'=') if !name.is_empty() => Some(name),
        _ => None,
    }
}

/// Whether two names differ in letter case alone, or in one byte.
fn are_alike(one: &[u8], other: &[u8]) -> bool {
    let differing = one.iter().zip(other.iter()).filter(|(a, b)| a != b).count();
    one.len() == other.len() && (differing == 1 && 2 < one.len() || one.eq_ignore_ascii_case(other))
}

/// The first line that defines a name which is this one, or else like it.
fn line_of_name<'t>(text: &'t [u8], wanted: &[u8]) -> Option<Defining<'t>> {
    let mut number = 1usize;
    let mut rest = text;
    let mut like = None;
    'lines: while let Some((line, after)) = first_line(rest) {
        if let Some(name) = defined_in(line) {
            let found = Defining { number, name, line };
            if name == wanted {
                return Some(found);
            }
            if like.is_none() && are_alike(name, wanted) {
                like = Some(found);
            }
        }
        number = number.saturating_add(1);
        rest = after;
    }
    like
}

/// Appends the name that no line defines; and the line that would if it could be read, or one that defines a name like
/// it.
pub fn put_undefined(
    alloc: Global,
    out: &mut Vec<u8>,
    name: &[u8],
    source: &Source<'_, '_, '_>,
) -> Result<(), AllocError> {
    out.extend_from_slice(name)?;
    let Some(found) = line_of_name(source.text, name) else {
        return Ok(());
    };
    if found.name != name {
        put_decimal(out, b" (line ", found.number)?;
        out.extend_from_slice(b" has ")?;
        out.extend_from_slice(found.name)?;
        return out.extend_from_slice(b")");
    }
    if read_line(alloc, source.language, found.line)?.is_some() {
        return Ok(());
    }
    put_decimal(out, b" (its line ", found.number)?;
    out.extend_from_slice(b" cannot be read: ")?;
    put_guess(alloc, out, source.language, found.line)?;
    out.extend_from_slice(b": ")?;
    put_shown(out, trimmed(found.line))?;
    out.extend_from_slice(b")")
}

/// Appends which line defines first what the line of this number defines too.
pub fn put_definition_above(
    out: &mut Vec<u8>,
    text: &[u8],
    number: usize,
) -> Result<(), AllocError> {
    let Some(name) = defined_in(line_at(text, number)) else {
        return Ok(());
    };
    match line_of_name(text, name) {
        Some(found) if found.name == name && found.number < number => {
            put_decimal(out, b"line ", found.number)?;
            out.extend_from_slice(b" has it")
        }
        _ => Ok(()),
    }
}
