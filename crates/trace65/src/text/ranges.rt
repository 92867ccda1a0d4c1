//! The lines of the ranges that are proposed: each is a group, with the bytes of the range as a comment.

use crate::text::Text;
use entries65::texts::Alphabet;
use info65::{RangeSpec, RangeType};
use reach65::image::word;
use std::alloc::AllocError;

/// How many bytes of a range are shown.
const SHOWN: usize = 32;

/// A byte as it is shown: a dot stands for what is no character of ASCII.
fn shown(byte: u8) -> u8 {
    match byte {
        0x20..=0x7E => byte,
        _ => b'.',
    }
}

/// Whether bytes have the high bit, and each stands behind a letter without it:
/// programs mark the last letter of a word so.
fn mark_ends(bytes: &[u8]) -> bool {
    let mut before = 0u8;
    let mut mark = false;
    for &byte in bytes {
        if 0x80 <= byte {
            if !matches!(before, 0x41..=0x5A) {
                return false;
            }
            mark = true;
        }
        before = byte;
    }
    mark
}

/// What the type of a range is called.
fn type_text(role: RangeType) -> &'static str {
    match role {
        RangeType::TextTable => "TextTable",
        RangeType::AddrTable => "AddrTable",
        RangeType::RtsTable => "RtsTable",
        _ => "ByteTable",
    }
}

/// What the bytes of a range of this type are shown in, and what is said of it.
fn alphabet_of(role: RangeType, bytes: &[u8]) -> (Alphabet, &'static str) {
    if role != RangeType::ByteTable {
        (Alphabet::Ascii, "")
    } else if Alphabet::High.is_text(bytes) {
        (Alphabet::High, "text with the high bit: ")
    } else if !Alphabet::Petscii.is_text(bytes) {
        (Alphabet::Ascii, "")
    } else if mark_ends(bytes) {
        (Alphabet::High, "text with the high bit in last letters: ")
    } else {
        (Alphabet::Petscii, "text in PETSCII: ")
    }
}

impl Text<'_> {
    /// Adds the bytes of a range of this type as characters: the first 32 of them, and two dots if there are more.
    fn put_bytes(&mut self, role: RangeType, bytes: &[u8]) -> Result<(), AllocError> {
        let (alphabet, title) = alphabet_of(role, bytes);
        self.put(title.as_bytes())?;
        let mut text = [0u8; SHOWN];
        for (place, &byte) in text.iter_mut().zip(bytes) {
            *place = shown(alphabet.in_ascii(byte));
        }
        self.put(text.get(..bytes.len().min(SHOWN)).unwrap_or(&[]))?;
        if SHOWN < bytes.len() {
            self.put(b" ..")?;
        }
        Ok(())
    }

    /// Adds the lines of the ranges.
    pub fn put_ranges(&mut self) -> Result<(), AllocError> {
        for &range in self.ranges {
            self.put_address(b"RANGE { START $", range.first)?;
            self.put_address(b"; END $", range.last)?;
            self.put(b"; TYPE ")?;
            self.put(type_text(range.role).as_bytes())?;
            self.put(b"; }; # ")?;
            self.put_bytes(range.role, self.bytes(range))?;
            self.put_orphans(range)?;
            self.put(b"\n")?;
        }
        Ok(())
    }

    /// Adds which words of the range are all that leads to their routines.
    fn put_orphans(&mut self, range: RangeSpec) -> Result<(), AllocError> {
        let advice = self.advice;
        let first = advice.data.orphans.partition_point(|at| *at < range.first);
        for &at in advice.data.orphans.get(first..).unwrap_or(&[]) {
            if range.last < at {
                break;
            }
            self.put_address(b"; only the word at $", at)?;
            let to = word(advice.data.ground.image, usize::from(at)).unwrap_or(0);
            self.put_address(b" leads to $", to)?;
        }
        Ok(())
    }

    /// Adds the lines of the opcodes that only hide an instruction.
    pub fn put_skips(&mut self) -> Result<(), AllocError> {
        for &range in self.skips {
            self.put_address(b"RANGE { START $", range.first)?;
            let inner = range.first.saturating_add(1);
            self.put_address(b"; SIZE 1; TYPE ByteTable; }; # skips $", inner)?;
            self.put(b"\n")?;
        }
        Ok(())
    }
}
