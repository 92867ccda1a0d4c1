//! Labels before the names inside their instructions.
//!
//! A line `NAME := * + n` stands above the line of the instruction inside of which the name is. If that
//! has a label, whoever puts a line after `LABEL:` puts it between, and the name is off. So `LABEL:` gets
//! a line of its own above these lines.

ghost use Rattle.std.specs.Prelude.{◌≡◌, ◌++◌, IfErr, IfOk, IsTrue, OnOk};
ghost use Rattle.text65.specs.Lines.{text_lines};
ghost use Rattle.files65.specs.FaultyLine.{MayReport};
ghost use Rattle.name65.specs.NamedText.{MeansTheSame, listing_of};
ghost use Rattle.name65.specs.Reordered.{IsReordered, is_place_line, other_in, others_in, place_in, places_in, without_blanks};

use crate::constant_line::put_kept;
use crate::failure::{Failure, Refused};
use files65::assembled;
use std::alloc::{AllocError, Global};
use stmt65::{AsmFaultKind, Language, Operation, Source, SourceLine, assemble_source, read_line};
use text65::{first_line, is_blank};

// ---- the order

/// What a line is beside lines `NAME := * + n`.
#[derive(Clone, Copy)]
enum Kind {
    /// A line `NAME := * + n`.
    Place,
    /// A line with a label and nothing else.
    Label,
    /// A line with a label before an operation.
    Labelled,
    Other,
}

fn kind_of(alloc: Global, language: Language, line: &[u8]) -> Result<Kind, AllocError> {
    match read_line(alloc, language, line)? {
        Some(SourceLine::PlaceAssignment(_, _)) => Ok(Kind::Place),
        Some(
            SourceLine::Statement {
                label: Some(_),
                operation: Operation::Nothing,
            },
        ) => Ok(Kind::Label),
        Some(SourceLine::Statement { label: Some(_), .. }) => Ok(Kind::Labelled),
        _ => Ok(Kind::Other),
    }
}

/// Appends a line with a label, above the rest of it the lines `NAME := * + n`; the rest keeps its column.
fn put_cut(out: &mut Vec<u8>, places: &[u8], line: &[u8]) -> Result<(), AllocError> {
    let count = line.iter().take_while(|byte| **byte != b':').count();
    let (label, rest) = line.split_at(count.min(line.len()));
    out.extend_from_slice(label)?;
    out.extend_from_slice(b":\n")?;
    out.extend_from_slice(places)?;
    for &byte in label {
        out.push(if is_blank(byte) { byte } else { b' ' })?;
    }
    out.extend_from_slice(b" ")?;
    put_kept(out, rest.get(1..).unwrap_or(b""))
}

/// The lines of a text as they become, and after these the lines `NAME := * + n` that are held back.
#[derive(Drop)]
struct Reordering {
    lines: Vec<u8>,
    places: Vec<u8>,
}

/// Takes one line more. Lines `NAME := * + n` are held back until another line comes: if that has a label, the label
/// comes first.
fn take_line(out: &mut Reordering, kind: Kind, line: &[u8]) -> Result<(), AllocError> {
    if let Kind::Place = kind {
        return put_kept(&mut out.places, line);
    }
    match kind {
        _ if out.places.is_empty() => put_kept(&mut out.lines, line)?,
        Kind::Label => {
            put_kept(&mut out.lines, line)?;
            out.lines.extend_from_slice(&out.places)?;
        }
        Kind::Labelled => put_cut(&mut out.lines, &out.places, line)?,
        Kind::Place | Kind::Other => {
            out.lines.extend_from_slice(&out.places)?;
            put_kept(&mut out.lines, line)?;
        }
    }
    out.places.clear();
    Ok(())
}

/// The lines of a text, each label before the names inside its instruction.
fn reordered(alloc: Global, language: Language, text: &[u8]) -> Result<Vec<u8>, AllocError> {
    let mut out = Reordering {
        lines: Vec::new(alloc),
        places: Vec::new(alloc),
    };
    let mut rest = text;
    'lines: while let Some((line, after)) = first_line(rest) {
        take_line(&mut out, kind_of(alloc, language, line)?, line)?;
        rest = after;
    }
    out.lines.extend_from_slice(&out.places)?;
    Ok(out.lines)
}

// ---- what stays

/// Whether a line is `NAME := * + n`.
fn is_place(alloc: Global, language: Language, line: &[u8]) -> Result<bool, AllocError>
    ensures { IfOk result (λ is. is ≡ is_place_line language line.now) }
{
    match read_line(alloc, language, line)? {
        Some(SourceLine::PlaceAssignment(_, _)) => Ok(true),
        _ => Ok(false),
    }
}

/// Appends the bytes of a line that are no blanks.
fn put_without_blanks(out: &mut Vec<u8>, line: &[u8]) -> Result<(), AllocError>
    ensures { OnOk result (out.new.items ≡ out.old.items ++ without_blanks line.now) }
{
    'bytes: for &byte in line {
        if !is_blank(byte) {
            out.push(byte)?;
        }
    }
    Ok(())
}

/// The lines `NAME := * + n` of a text, and what its other lines have but blanks.
#[derive(Drop)]
struct Content {
    places: Vec<u8>,
    others: Vec<u8>,
}

fn take_content(
    out: &mut Content,
    alloc: Global,
    language: Language,
    line: &[u8],
) -> Result<(), AllocError>
    ensures places { OnOk result
        (out.new.places.items ≡ out.old.places.items ++ place_in language line.now) }
    ensures others { OnOk result
        (out.new.others.items ≡ out.old.others.items ++ other_in language line.now) }
{
    if is_place(alloc, language, line)? {
        put_kept(&mut out.places, line)
    } else {
        put_without_blanks(&mut out.others, line)
    }
}

fn content_of(alloc: Global, language: Language, text: &[u8]) -> Result<Content, AllocError>
    ensures places { IfOk result (λ c. c.places.items ≡ places_in language (text_lines text.now)) }
    ensures others { IfOk result (λ c. c.others.items ≡ others_in language (text_lines text.now)) }
{
    let mut out = Content {
        places: Vec::new(alloc),
        others: Vec::new(alloc),
    };
    let mut rest = text;
    'lines: while let Some((line, after)) = first_line(rest) {
        take_content(&mut out, alloc, language, line)?;
        rest = after;
    }
    Ok(out)
}

/// Whether a text has the lines of another in such an order.
fn is_reordered(
    alloc: Global,
    language: Language,
    old: &[u8],
    new: &[u8],
) -> Result<bool, AllocError>
    ensures { IfOk result (λ is. IsTrue is → IsReordered language old.now new.now) }
{
    let before = content_of(alloc, language, old)?;
    let after = content_of(alloc, language, new)?;
    Ok(
        before.places.as_slice() == after.places.as_slice()
            && before.others.as_slice() == after.others.as_slice(),
    )
}

/// The text of the listing of this name, each label before the names inside its instruction.
///
/// Nothing is trusted for the promise: the text is read and assembled too, and unless it has the lines and
/// gives the bytes of the listing, there is none.
pub fn with_labels_first(
    alloc: Global,
    name: &str,
    source: &Source<'_, '_, '_>,
) -> Result<Vec<u8>, Failure>
    /// With `--labels-first` the text that is written by names means exactly the bytes that the listing means, from
    /// the same start.
    ensures same { IfOk result (λ text. MeansTheSame (listing_of source.now) text.items) }
    /// Its lines `NAME := * + n` are those of the listing, in their order, and so is what its other lines have but
    /// blanks and line feeds: nothing is left out, and no comment changes.
    ensures reordered { IfOk result (λ text.
        IsReordered source.now.language source.now.text.now text.items) }
    /// As in `named_text`.
    ensures fault { IfErr result (MayReport name.now source.now) }
{
    let assembly = assembled(&alloc, name, source)?;
    let text = reordered(alloc, source.language, source.text)?;
    if !is_reordered(alloc, source.language, source.text, &text)? {
        return Err(Failure::Own(Refused::Changed));
    }
    match assemble_source(
        alloc,
        &Source {
            text: &text,
            ..*source
        },
    ) {
        Ok(bytes) if bytes.as_slice() == assembly.bytes.as_slice() => Ok(text),
        Err(fault) if fault.kind == AsmFaultKind::Memory => Err(Failure::Memory),
        _ => Err(Failure::Own(Refused::Changed)),
    }
}
