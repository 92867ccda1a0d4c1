//! Bytes and words of an image by their addresses, which may lie outside it.

ghost use Rattle.std.specs.Prelude.{◌≤◌};

use info65::Info;
use map65::{ADDRESSES, Image, Marks};
use std::alloc::{AllocError, Global};

/// Returns the byte at the address, if that lies in the image.
pub fn byte(image: &Image, at: usize) -> Option<u8> {
    let index = at.checked_sub(usize::from(image.start()))?;
    image.bytes().get(index).copied()
}

/// Returns the byte so far before the address, and 0 if the image has none there.
pub fn byte_before(image: &Image, at: usize, distance: usize) -> u8 {
    match at.checked_sub(distance) {
        Some(place) => byte(image, place).unwrap_or(0),
        None => 0,
    }
}

/// Returns the word at the address, low byte first, if both of its bytes lie in the image.
pub fn word(image: &Image, at: usize) -> Option<u16> {
    let index = at.checked_sub(usize::from(image.start()))?;
    match image.bytes().get(index..)? {
        &[low, high, ..] => Some(u16::from_le_bytes([low, high])),
        _ => None,
    }
}

/// Returns the bytes of the image from an address of it on, so many at most.
pub fn bytes_at(image: &Image, at: usize, most: usize) -> &[u8] {
    let bytes = image.bytes();
    let from = at
        .saturating_sub(usize::from(image.start()))
        .min(bytes.len());
    &bytes[from..from.saturating_add(most).min(bytes.len())]
}

/// Returns the first address of the image, and the first one after it.
pub fn ends(image: &Image) -> (usize, usize)
    ensures { result.1 ≤ 65536 }
{
    let start = usize::from(image.start());
    let end = start.saturating_add(image.bytes().len());
    (start, end.min(ADDRESSES))
}

/// Returns marks of what the ranges of the information file have.
pub fn given(alloc: Global, info: &Info) -> Result<Marks, AllocError> {
    let mut marks = Marks::none(alloc)?;
    for range in info.ranges() {
        marks.set_span(usize::from(range.first), usize::from(range.last) + 1);
    }
    Ok(marks)
}

/// Returns the address, if it is at most $FFFF.
pub fn address(at: usize) -> Option<u16> {
    u16::try_from(at).ok()
}
