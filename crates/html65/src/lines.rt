//! The lines of a listing with their addresses.

use crate::survey::Reference;
use crate::way::Way;
use stmt65::first_line;

/// A line of a listing that assembles.
#[derive(Clone, Copy)]
pub struct Line<'t> {
    /// From 1.
    pub number: usize,
    /// With its line feed, and without it.
    pub whole: &'t [u8],
    pub text: &'t [u8],
    /// What stands after it.
    rest: &'t [u8],
    /// The address of its first byte, and the one after its last.
    pub at: usize,
    pub end: usize,
}

impl<'t> Line<'t> {
    /// What stands before the first line of a listing that begins at an address.
    pub fn before(listing: &'t [u8], start: u16) -> Line<'t> {
        Line {
            number: 0,
            whole: &[],
            text: &[],
            rest: listing,
            at: 0,
            end: usize::from(start),
        }
    }

    /// The next line, by the address after it.
    pub fn next(self, end: u64) -> Line<'t> {
        let (text, rest) = first_line(self.rest).unwrap_or((&[], &[]));
        let len = self.rest.len().saturating_sub(rest.len());
        Line {
            number: self.number.saturating_add(1),
            whole: self.rest.get(..len).unwrap_or(&[]),
            text,
            rest,
            at: self.end,
            end: end.min(65_536) as usize,
        }
    }

    /// Whether it has bytes. Then there is an element with its address.
    pub fn has_bytes(self) -> bool {
        self.at < self.end
    }

    /// It refers to something.
    pub fn refers(self, to: usize, way: Way) -> Reference {
        Reference {
            to,
            way,
            line: self.number,
            at: self.at,
            routine: usize::MAX,
        }
    }
}
