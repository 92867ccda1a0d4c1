//! An include file that an information file names.

use std::alloc::{Allocator, Global};
use std::marker::Model;

/// A file of names that a group ASMINC names. A contract sees the file name as a list of bytes.
#[derive(Drop)]
pub struct IncludeSpec<A: Allocator = Global> {
    /// The name of the file: 1 to 255 bytes, $20 to $7E.
    pub file: String<A>,
    /// The byte that begins a comment in the file; `;` by default.
    pub comment_start: u8,
    /// Lines that would be refused are passed over; off by default.
    pub ignore_unknown: bool,
}

impl<A: Allocator> Model for IncludeSpec<A> {
    ghost use Rattle.std.specs.String.{string_bytes};
    ghost use Rattle.info65.specs.Views.{IncludeView};

    ghost Value = { IncludeView };

    ghost view = { λ i. record { file = string_bytes i.file; comment_start = i.comment_start; ignore_unknown = i.ignore_unknown } };
}
