//! What is asked of the lines of a listing.

use crate::marks::NamedBytes;
use crate::wishes::Wishes;
use std::alloc::Global;
use stmt65::Language;

/// The language of the lines, which bytes groups name, whether the constant lines of unused names are left out, the
/// address after the last line, and what the groups wish.
#[derive(Clone, Copy)]
pub struct Plan<'w, 't> {
    pub alloc: Global,
    pub language: Language,
    pub named: &'w NamedBytes,
    pub used: bool,
    pub last: u64,
    pub wishes: &'w Wishes<'t>,
}

/// A line without its line feed, and what is asked of it. It gives the bytes from `at` to before `end`.
#[derive(Clone, Copy)]
pub struct PlacedLine<'w, 't> {
    pub plan: &'w Plan<'w, 't>,
    pub line: &'t [u8],
    pub at: u64,
    pub end: u64,
}

/// The lines of a text as they become, those that stand after the last one, and the line that is being changed.
#[derive(Drop)]
pub struct NewText {
    pub lines: Vec<u8>,
    pub tail: Vec<u8>,
    pub change: Vec<u8>,
}
