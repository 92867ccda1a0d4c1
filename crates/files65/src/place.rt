//! Where the bytes of a listing belong.

ghost use Rattle.std.specs.Prelude.{◌≡◌, IfOk, Some, map};
ghost use Rattle.info65.specs.Words.{segment_seen};
ghost use Rattle.files65.specs.Place.{before_end, last_of, layout_of, start_in};

use info65::SegmentSpec;
use std::alloc::{AllocError, Global};
use stmt65::{Language, Layout, Source, line_addresses};

/// Each segment begins at its START, and this byte fills what is missing before it.
fn filled_by<'n>(
    alloc: Global,
    segments: &'n [SegmentSpec],
    fill: u8,
) -> Result<Layout<'n>, AllocError>
    ensures { IfOk result (λ l. l ≡ layout_of (map segment_seen segments.now) (Some fill)) }
{
    let mut layout = Layout::new(alloc, fill)?;
    'segments: for segment in segments {
        layout.add(segment.name.as_slice(), segment.first)?;
    }
    Ok(layout)
}

/// Where these segments begin: at their STARTs, if a byte fills what is missing before them, else one after the other.
pub fn layout_of<'n>(
    alloc: Global,
    segments: &'n [SegmentSpec],
    fill: Option<u8>,
) -> Result<Layout<'n>, AllocError>
    /// With a byte that fills gaps, each segment of the information file begins at its START; without one, segments
    /// move nothing; or out of memory.
    ensures { IfOk result (λ l. l ≡ layout_of (map segment_seen segments.now) fill) }
{
    match fill {
        Some(fill) => filled_by(alloc, segments, fill),
        None => Layout::new(alloc, 0),
    }
}

/// A text as people edit it, with segments that begin where the layout says.
pub fn repair<'t, 'l, 'n>(layout: &'l Layout<'n>, start: u16, text: &'t [u8]) -> Source<'t, 'l, 'n>
    /// A listing that is to be assembled, named, moved or shown is read in the language `Repair`: this text, from
    /// this start, with segments that begin where the layout says.
    ensures language { result.language ≡ Language.Repair }
    ensures layout { result.layout.now ≡ layout.now }
    ensures start { result.start ≡ start }
    ensures text { result.text.now ≡ text.now }
{
    Source {
        language: Language::Repair,
        layout,
        start,
        text,
    }
}

/// The last of these numbers, or 0.
fn last_of(numbers: &[u64]) -> u64
    ensures { result ≡ last_of numbers.now }
{
    numbers.last().copied().unwrap_or(0)
}

/// The start from which the last of so many bytes is at $FFFF.
fn before_end(len: u64) -> u16
    ensures { result ≡ before_end len }
{
    if 0 < len && len <= 65_536 {
        (65_536 - len) as u16
    } else {
        0
    }
}

/// This start, or else the one from which the last byte of a text is at $FFFF.
#[tactic(auto, unfolding(crate::specs::Place::start_in))]
pub fn start_or_end(
    alloc: Global,
    start: Option<u16>,
    layout: &Layout<'_>,
    text: &[u8],
) -> Result<u16, AllocError>
    /// A listing begins at the start that is given, or else so that its last byte is at $FFFF; at $0000 if it has no
    /// byte or more than 65,536; or out of memory.
    ensures { IfOk result (λ a. a ≡ start_in layout.now text.now start) }
{
    if let Some(start) = start {
        return Ok(start);
    }
    let ends = line_addresses(alloc, &repair(layout, 0, text))?;
    Ok(before_end(last_of(&ends)))
}
