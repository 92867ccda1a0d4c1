//! A segment of addresses.

use std::alloc::{Allocator, Global};

/// The addresses from `first` to `last`, both of them included, and the name of their segment.
#[derive(Drop)]
pub struct SegmentSpec<A: Allocator = Global> {
    pub first: u16,
    pub last: u16,
    /// The name: 1 to 80 bytes, a letter or `_` and then letters, digits and `_`.
    pub name: Vec<u8, A>,
}
