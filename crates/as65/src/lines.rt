//! The lines of a listing that give bytes, each with its place.

use std::alloc::{AllocError, Global};
use stmt65::{Source, first_line};

/// A line of a listing that assembles: its number, from 1, its text, the address at which it begins, and that after its
/// last byte.
#[derive(Clone, Copy)]
pub struct PlacedLine<'t> {
    pub number: usize,
    pub text: &'t [u8],
    pub at: u64,
    pub end: u64,
}

/// The lines of a text that give bytes, by the address after each line.
pub fn placed_lines<'t>(
    alloc: Global,
    source: &Source<'t, '_, '_>,
    ends: &[u64],
) -> Result<Vec<PlacedLine<'t>>, AllocError> {
    let mut lines = Vec::new(alloc);
    let mut at = u64::from(source.start);
    let mut rest = source.text;
    for (above, &end) in ends.iter().enumerate() {
        let Some((text, after)) = first_line(rest) else {
            break;
        };
        if at < end {
            lines.push(PlacedLine {
                number: above.saturating_add(1),
                text,
                at,
                end,
            })?;
        }
        (at, rest) = (end, after);
    }
    Ok(lines)
}
