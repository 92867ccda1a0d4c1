//! Memory that refuses one allocation, for tests.

use std::alloc::{AllocError, Allocator};
use std::cell::Cell;

/// Counts of allocations: how many are left before the one that is refused, and how many bytes were granted.
#[derive(Drop)]
struct Counts {
    left: Cell<u64>,
    bytes: Cell<u64>,
}

/// Memory that grants some allocations, refuses the next one, and grants those after it.
pub struct Refusing<B: Allocator> {
    inner: B,
    counts: Counts,
}

impl<B: Allocator> Refusing<B> {
    /// Over other memory. The first `granted` allocations are granted.
    pub fn after(inner: B, granted: u64) -> Refusing<B> {
        Refusing {
            inner,
            counts: Counts {
                left: Cell::new(granted),
                bytes: Cell::new(0),
            },
        }
    }

    /// How many allocations are left before the one that is refused. After that one the count goes on
    /// down from the largest value.
    pub fn left(&self) -> u64 {
        self.counts.left.get()
    }

    /// How many bytes it was asked for in the allocations that were not refused.
    pub fn bytes(&self) -> u64 {
        self.counts.bytes.get()
    }
}

impl<B: Allocator> Drop for Refusing<B> {
    fn drop(self) {
        let Self {
            inner: _,
            counts: _,
        } = self;
    }
}

/// Counts an allocation of this size, and returns whether it is the one that is refused.
fn is_refused(counts: &Counts, size: usize) -> bool {
    let before = counts.left.get();
    counts.left.set(before.wrapping_sub(1));
    if before != 0 {
        let granted = counts.bytes.get();
        counts.bytes.set(granted.saturating_add(size as u64));
    }
    before == 0
}

unsafe impl<B: Allocator> Allocator for Refusing<B> {
    ghost dealloc_token = { λ heap ty ptr. B.dealloc_token heap.inner ty ptr };

    fn allocate(&self, size: usize, align: usize) -> Result<*mut u8, AllocError> {
        if is_refused(&self.counts, size) {
            return Err(AllocError);
        }
        self.inner.allocate(size, align)
    }

    unsafe fn deallocate(&self, ptr: *mut u8, size: usize, align: usize) {
        self.inner.deallocate(ptr, size, align);
    }
}
