//! What is found of an image, as text of an information file: comments, groups, and lines `#: ..`.

mod beside;
mod calls;
mod likely;
mod misplaced;
mod moves;
mod picture;
mod ranges;
mod room;
mod tables;
mod unreached;

use crate::advice::Advice;
use info65::RangeSpec;
use reach65::image::bytes_at;
use std::alloc::AllocError;

/// The text, and what it is about.
#[derive(Drop)]
struct Text<'a> {
    out: Vec<u8>,
    advice: &'a Advice<'a>,
    /// The entries of the command line and of the information file.
    given: &'a [u16],
    /// The ranges that are proposed.
    ranges: &'a [RangeSpec],
    /// Those of opcodes that only hide an instruction.
    skips: &'a [RangeSpec],
}

impl<'a> Text<'a> {
    /// Adds these bytes.
    fn put(&mut self, text: &[u8]) -> Result<(), AllocError> {
        self.out.extend_from_slice(text)
    }

    /// Adds these bytes, and the address in hexadecimal.
    fn put_address(&mut self, text: &[u8], address: u16) -> Result<(), AllocError> {
        text65::put_address(&mut self.out, text, usize::from(address))
    }

    /// Adds these bytes, and the number in decimal.
    fn put_decimal(&mut self, text: &[u8], number: usize) -> Result<(), AllocError> {
        text65::put_decimal(&mut self.out, text, number)
    }

    /// Adds the name of an address, if it has one, and how far the address lies after that of its name.
    fn put_name(&mut self, address: u16) -> Result<(), AllocError> {
        let Some(name) = self.advice.steps.map().info().covering(address) else {
            return Ok(());
        };
        self.put(b" ")?;
        self.put(name.text)?;
        match address.saturating_sub(name.address) {
            0 => Ok(()),
            offset => self.put_decimal(b"+", usize::from(offset)),
        }
    }

    /// The bytes of a proposed range.
    fn bytes(&self, range: RangeSpec) -> &'a [u8] {
        let len = usize::from(range.last.saturating_sub(range.first)).saturating_add(1);
        bytes_at(self.advice.steps.image(), usize::from(range.first), len)
    }

    /// Adds the whole: a picture and counts, what is given where it counts for nothing, the ranges, the labels, the
    /// lines `#: ..`, and what is only likely, what keeps bytes from being code, and where there is room.
    fn put_all(&mut self) -> Result<(), AllocError> {
        self.put_picture()?;
        self.put_misplaced()?;
        self.put_vectors()?;
        self.put_far_halves()?;
        self.put_ranges()?;
        self.put_skips()?;
        self.put_labels()?;
        self.put_pairs()?;
        self.put_splits()?;
        self.put_after()?;
        self.put_likely()?;
        self.put_pointers()?;
        self.put_words()?;
        self.put_firsts()?;
        self.put_cells()?;
        self.put_beside()?;
        self.put_behind()?;
        self.put_jumps()?;
        self.put_zeros()?;
        self.put_bases()?;
        self.put_digits()?;
        self.put_unreached()?;
        self.put_copies()?;
        self.put_named()?;
        self.put_far()?;
        self.put_calls()?;
        self.put_stops()?;
        self.put_room()
    }
}

/// Returns the text of what is found, with these entries given, and these ranges and skips proposed.
pub fn text_of(
    advice: &Advice<'_>,
    given: &[u16],
    ranges: &[RangeSpec],
    skips: &[RangeSpec],
) -> Result<Vec<u8>, AllocError> {
    let mut text = Text {
        out: Vec::with_capacity(advice.steps.alloc(), ranges.len().saturating_mul(160))?,
        advice,
        given,
        ranges,
        skips,
    };
    text.put_all()?;
    Ok(text.out)
}
