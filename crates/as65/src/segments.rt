//! Whether a listing enters the segments that `--fill` places.

use crate::failure::{Failure, Refused};
use info65::SegmentSpec;
use std::alloc::{AllocError, Global};
use stmt65::{Language, Operation, Source, SourceLine, first_line, line_addresses, read_line};

/// The default segment, which no SEGMENT has to have.
const DEFAULT: &[u8] = b"CODE";

/// The segment that a line enters by its name, which stands in quotes.
fn segment_in<'t>(
    alloc: Global,
    language: Language,
    line: &'t [u8],
) -> Result<Option<&'t [u8]>, AllocError> {
    if !line.contains(&b'"') {
        return Ok(None);
    }
    match read_line(alloc, language, line)? {
        Some(
            SourceLine::Statement {
                operation: Operation::Segment(name),
                ..
            },
        ) => Ok(Some(name)),
        _ => Ok(None),
    }
}

/// The START of the segment that a line enters, if it begins there.
pub fn start_entered(
    alloc: Global,
    source: &Source<'_, '_, '_>,
    line: &[u8],
) -> Result<Option<u64>, AllocError> {
    let entered = segment_in(alloc, source.language, line)?;
    Ok(
        entered
            .and_then(|name| source.layout.start_of(name))
            .map(u64::from),
    )
}

/// The segments that a line `.segment` places, from the start on, by their STARTs: of those with one name the first.
fn placed<'n>(
    alloc: Global,
    source: &Source<'_, '_, '_>,
    segments: &'n [SegmentSpec],
) -> Result<Vec<(u16, &'n [u8])>, AllocError> {
    let mut placed = Vec::new(alloc);
    for segment in segments {
        let name = segment.name.as_slice();
        if source.start <= segment.first && source.layout.start_of(name) == Some(segment.first) {
            placed.push((segment.first, name))?;
        }
    }
    placed.sort()?;
    Ok(placed)
}

/// What is wrong with the segments of a listing: the number of its line, a segment, and what is said of it.
struct Wrong<'t>(usize, &'t [u8], &'static str);

/// The first line that enters a segment of no SEGMENT, or that gives the byte at the START of one without entering it.
fn wrong_in<'t>(
    alloc: Global,
    source: &Source<'t, '_, '_>,
    mut placed: &[(u16, &'t [u8])],
) -> Result<Option<Wrong<'t>>, AllocError> {
    let layout = source.layout;
    let mut rest = source.text;
    for (before, end) in line_addresses(alloc, source)?.iter().enumerate() {
        let number = before.saturating_add(1);
        let Some((line, after)) = first_line(rest) else {
            return Ok(None);
        };
        rest = after;
        let entered = segment_in(alloc, source.language, line)?;
        if let Some(name) = entered {
            let start = layout.start_of(name);
            if start.is_none() && name != DEFAULT {
                let said = ": the information file has no SEGMENT of this name";
                return Ok(Some(Wrong(number, name, said)));
            }
            // Segments before it that are not entered have no line that could belong to them.
            let passed = placed.partition_point(|(other, _)| Some(*other) <= start);
            placed = placed.get(passed..).unwrap_or(&[]);
        }
        if let Some((start, name)) = placed.first()
            && u64::from(*start) < *end
        {
            let said = ": it begins here, but no line .segment enters it";
            return Ok(Some(Wrong(number, name, said)));
        }
    }
    Ok(None)
}

/// Refuses a listing of this name, which has no fault, if a byte fills the gaps before these segments and a line of it
/// enters another one, or gives the byte at the START of one that no line enters.
pub fn need_segments(
    alloc: Global,
    source: &Source<'_, '_, '_>,
    name: &str,
    segments: &[SegmentSpec],
) -> Result<(), Failure> {
    let placed = placed(alloc, source, segments)?;
    if placed.is_empty() {
        return Ok(());
    }
    let Some(Wrong(number, segment, what)) = wrong_in(alloc, source, &placed)? else {
        return Ok(());
    };
    let mut said = Vec::new(alloc);
    said.extend_from_slice(segment)?;
    said.extend_from_slice(what.as_bytes())?;
    let name = String::from_str(alloc, name)?;
    Err(Failure::Own(Refused::Segment(name, number, said)))
}
