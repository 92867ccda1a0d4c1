//! The group that a line lists.

ghost use Rattle.std.specs.Prelude.{◌≡◌, ◌+◌, ◌≤◌, ⊤, length};
ghost use Rattle.da65.specs.Words.{labelled_group};

use crate::listing::listed_image::ListedImage;
use std::alloc::{AllocError, Allocator};

/// The group that a line lists: bytes of one role that follow each other.
pub struct ListedGroup<'g, 'a, A: Allocator> {
    /// What it is a group of.
    pub listed: &'g ListedImage<'a, A>,
    /// The index of its first byte in the image.
    pub index: usize,
    /// The address of its first byte.
    pub address: u16,
    /// Its bytes, 1 to 16.
    pub bytes: &'g [u8],
    /// The label on the line of its statement, if there is one.
    pub label: Option<&'g [u8]>,
}

impl<A: Allocator> Clone for ListedGroup<'_, '_, A> {
    ghost is_clone = { λ x y. y ≡ x };

    ghost is_infallible = { λ _. ⊤ };

    fn clone(&self) -> Result<Self, AllocError> {
        Ok(*self)
    }
}

impl<A: Allocator> Copy for ListedGroup<'_, '_, A> {}

impl<'a, A: Allocator> ListedGroup<'_, 'a, A> {
    /// This group, with this label.
    pub fn with_label<'l>(&'l self, label: &'l [u8]) -> ListedGroup<'l, 'a, A>
        ensures { result ≡ labelled_group self.now label.entry }
    {
        let label = Some(label);
        ListedGroup { label, ..*self }
    }

    /// The address after its last byte.
    pub fn end(&self) -> u32
        requires { self.now.address + length self.now.bytes.now ≤ 65536 }
        ensures { result ≡ self.now.address + length self.now.bytes.now }
    {
        u32::from(self.address) + self.bytes.len() as u32
    }
}
