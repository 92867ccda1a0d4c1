//! What is said of the fault of a line, beside its text: what the assembler found that it is about, or a guess from the
//! text of the line and of others. No fault depends on it.

use crate::definitions::{put_definition_above, put_undefined};
use crate::forms::put_forms;
use crate::guess::put_guess;
use crate::limits::put_limits;
use crate::lines::line_at;
use std::alloc::{AllocError, Global};
use stmt65::{About, AsmFaultKind, Explained, Source};

/// How far a branch may go.
const REACH: &str = "a branch goes from -128 to 127";

/// What the fault of a line is about; empty if the line itself says it.
pub fn hint(
    alloc: Global,
    explained: Explained<'_>,
    source: &Source<'_, '_, '_>,
) -> Result<Vec<u8>, AllocError> {
    let number = explained.fault.line;
    let line = line_at(source.text, number);
    let mut out = Vec::new(alloc);
    match explained.fault.kind {
        AsmFaultKind::Syntax => put_guess(alloc, &mut out, source.language, line)?,
        AsmFaultKind::UnknownCpu => out.extend_from_slice(b"6502, 65SC02 or 65C02")?,
        AsmFaultKind::NoSuchForm => put_forms(alloc, &mut out, source, number)?,
        AsmFaultKind::DefinedTwice => put_definition_above(&mut out, source.text, number)?,
        AsmFaultKind::OutOfRange if matches!(explained.about, About::Line) => {
            put_limits(alloc, &mut out, source.language, line)?
        }
        _ => put_about(alloc, &mut out, explained.about, source)?,
    }
    Ok(out)
}

/// Appends what the assembler found.
fn put_about(
    alloc: Global,
    out: &mut Vec<u8>,
    about: About<'_>,
    source: &Source<'_, '_, '_>,
) -> Result<(), AllocError> {
    let text = match about {
        About::Line => return Ok(()),
        About::Name(b"*") => String::from_str(alloc, "* (alone after a directive, or as a label)")?,
        About::Name(name) => return put_undefined(alloc, out, name, source),
        About::Forward(count) => format!(in alloc; "branch too far: {count} bytes ({REACH})")?,
        About::Back(count) => format!(in alloc; "branch too far: -{count} bytes ({REACH})")?,
        About::Below(count) => format!(in alloc; "the difference is -{count}")?,
        About::Reserve => String::from_str(alloc, "at most 65535 bytes, each from 0 to 255")?,
        About::Past(1, start) => format!(in alloc;
            "1 byte past ${start:04X}: leave out one above"
        )?,
        About::Past(count, start) => format!(in alloc;
            "{count} bytes past ${start:04X}: leave out as many above"
        )?,
    };
    out.extend_from_slice(text.as_bytes())
}
