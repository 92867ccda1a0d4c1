//! Where reading begins.

use crate::Steps;
use crate::growth::LEAST;
use crate::sound::reads_on;
use info65::{Entry, RangeType};
use map65::{Image, Map};
use reach65::image::{ends, word};
use std::alloc::AllocError;

/// Returns whether the image has the bytes at $FFFA to $FFFF, where the vectors of the CPU are.
pub fn has_vectors(image: &Image) -> bool {
    let (start, end) = ends(image);
    start <= 0xFFFA && end == 0x1_0000
}

/// The address that the entry of a table refers to that begins at the address, if it is one of addresses or of returns.
fn pointer_at(map: &Map<'_>, address: u16) -> Option<u16> {
    let role = map.role(address)?;
    if map.item_len(address) != 2 {
        return None;
    }
    let word = word(map.image(), usize::from(address))?;
    match role.layout().entry {
        Entry::Address => Some(word),
        Entry::Return => word.checked_add(1),
        _ => None,
    }
}

/// Returns what the tables of addresses and of returns of the information file refer to, in the order of their entries.
pub fn pointers_of(steps: &Steps<'_>) -> Result<Vec<u16>, AllocError> {
    let map = steps.map();
    let mut found = Vec::new(steps.alloc());
    let (start, end) = ends(map.image());
    let (mut from, mut to) = (end, start);
    for range in map.info().ranges() {
        if matches!(range.role, RangeType::AddrTable | RangeType::RtsTable) {
            from = from.min(usize::from(range.first));
            to = to.max(usize::from(range.last) + 1);
        }
    }
    for at in from.max(start)..to.min(end) {
        if let Some(address) = pointer_at(map, at as u16) {
            found.push(address)?;
        }
    }
    Ok(found)
}

/// Returns where reading begins: what the tables of the information file refer to, if these are followed; the first
/// address of each range of code; the vectors, if the image has them; without any of these the first address of the
/// image, but one that reads as no code if addresses are given; and these.
pub fn entries_of(
    steps: &Steps<'_>,
    given: &[u16],
    with_tables: bool,
) -> Result<Vec<u16>, AllocError> {
    let map = steps.map();
    let start = map.image().start();
    let mut found = Vec::new(steps.alloc());
    if with_tables {
        found = pointers_of(steps)?;
    }
    for range in map.info().ranges() {
        if range.role == RangeType::Code {
            found.push(range.first)?;
        }
    }
    if has_vectors(map.image()) {
        for vector in [0xFFFAusize, 0xFFFC, 0xFFFE] {
            if let Some(address) = word(map.image(), vector) {
                found.push(address)?;
            }
        }
    }
    if found.is_empty() && (given.is_empty() || reads_on(steps, Some(start), LEAST)) {
        found.push(start)?;
    }
    found.extend_from_slice(given)?;
    Ok(found)
}
