//! Why a listing can't be written as the groups of the lines `#: ..` ask.

ghost use Rattle.std.specs.Prelude.{◌≡◌, ◌+◌, IfOk, IsTrue, OnOk};
ghost use Rattle.name65.specs.declared.complaint.Refusal.TheVariants.{Memory};

use std::alloc::AllocError;
use thiserror::Error;

/// Why a group can't be followed, with the address that it is about.
#[derive(Clone, Copy, Debug, Error)]
pub enum Complaint {
    /// No line of the listing gives the byte.
    #[error("no line has the byte at ${0:04X}")]
    NoLine(u32),
    /// The byte is no number of an immediate operand or of a `.byte`, or the word none of a `.word`.
    #[error("no number stands alone for what is at ${0:04X}")]
    NoNumber(u16),
    /// The byte is in two groups.
    #[error("the byte at ${0:04X} is in two groups")]
    Twice(u16),
    /// The listing has no name for the address.
    #[error("no name at ${0:04X}: LABEL {{ ADDR ${0:04X}; NAME \"L{0:04X}\"; }};")]
    NoName(u16),
    /// The byte is not this half of the address.
    #[error("the byte at ${0:04X} is not this half of ${1:04X}")]
    NotHalf(u16, u16),
    /// The word is not TO - FROM.
    #[error("the word at ${0:04X} is not TO - FROM")]
    NotDifference(u16),
    /// No instruction of the listing begins there that has an address as its operand.
    #[error("no instruction at ${0:04X} has an address")]
    NoAddress(u16),
    /// START is not after the image.
    #[error("START is inside the image: ${0:04X}")]
    Inside(u16),
}

/// Why a listing can't be written by names.
#[derive(Clone, Copy, Debug)]
pub enum Refusal {
    /// Memory ran out.
    Memory,
    /// The group that begins on this line of the information file can't be followed.
    Group(u32, Complaint),
    /// A line would change otherwise than lines may.
    Changed,
}

impl From<AllocError> for Refusal {
    /// A refused allocation is out of memory.
    ghost from_gives = { λ _ f. f ≡ Memory };

    fn from(_: AllocError) -> Refusal {
        Refusal::Memory
    }
}

/// Refuses a line unless this holds of it.
pub fn need(holds: bool) -> Result<(), Refusal>
    ensures { OnOk result (IsTrue holds) }
{
    if holds { Ok(()) } else { Err(Refusal::Changed) }
}

/// The address this many bytes after one.
pub fn after(at: u64, count: u64) -> Result<u64, Refusal>
    ensures { IfOk result (λ next. next ≡ at + count) }
{
    match at.checked_add(count) {
        Some(next) => Ok(next),
        None => Err(Refusal::Changed),
    }
}
