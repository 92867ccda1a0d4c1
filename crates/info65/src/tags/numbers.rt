//! Bytes that are numbers.

use crate::lookup::marks::ADDRESSES;
use crate::tags::tag::{Tag, TagKind};
use std::alloc::{AllocError, Allocator};

/// Whether the byte so many addresses behind one is a number. Each address has a cell, unless there is no number.
fn is_number(numbers: &[bool], address: Option<u16>, k: u16) -> bool {
    match address {
        Some(address) => match numbers.get(usize::from(address) + usize::from(k)) {
            Some(&is_number) => is_number,
            None => false,
        },
        None => false,
    }
}

/// Whether one of the bytes of the k-th pair is a number.
fn has_number(numbers: &[bool], tag: Tag, k: u16) -> bool {
    is_number(numbers, tag.low, k) || is_number(numbers, tag.high, k)
}

/// The k-th pair of a group of halves.
fn pair(tag: Tag, k: u16) -> Tag {
    let mut pair = tag;
    pair.size = None;
    pair.low = match tag.low {
        Some(low) => low.checked_add(k),
        None => None,
    };
    pair.high = match tag.high {
        Some(high) => high.checked_add(k),
        None => None,
    };
    pair
}

/// Returns the groups without the halves of which a group NUMBER has one byte. Fails only if an allocation failed.
pub fn without_numbers<A: Allocator + Copy>(
    alloc: A,
    tags: &[Tag],
) -> Result<Vec<Tag, A>, AllocError> {
    let mut numbers = Vec::new(alloc);
    for tag in tags {
        if let (TagKind::Number, Some(address)) = (tag.kind, tag.address) {
            numbers.resize(ADDRESSES, false)?;
            if let Some(cell) = numbers.get_mut(usize::from(address)) {
                *cell = true;
            }
        }
    }
    let mut found = Vec::new(alloc);
    for &tag in tags {
        let size = tag.size.unwrap_or(1).min(256);
        let is_halves = tag.kind == TagKind::Halves;
        if !is_halves || !(0..size).any(|k| has_number(&numbers, tag, k)) {
            found.push(tag)?;
            continue;
        }
        for k in 0..size {
            if !has_number(&numbers, tag, k) {
                found.push(pair(tag, k))?;
            }
        }
    }
    Ok(found)
}
