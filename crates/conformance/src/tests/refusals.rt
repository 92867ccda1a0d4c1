// Calls whose first, second, third.. allocation is refused.
use crate::heap::Refusing;
use crate::tests::asserts::{assert_equal_at, assert_that};
use std::alloc::Global;
use std::process::Abort;

/// More allocations than any call of these tests makes.
pub const MANY: u64 = 100;

/// Counts the calls that ran out of memory.
#[derive(Drop)]
pub struct Refusals {
    calls: u64,
}

impl Refusals {
    pub fn none() -> Refusals {
        Refusals { calls: 0 }
    }

    /// Counts a call over this heap, which refuses the allocation after the first `granted`. The call must have
    /// failed exactly when an allocation was refused.
    pub fn count(&mut self, rt: &impl Abort, heap: &Refusing<Global>, granted: u64, failed: bool) {
        assert_equal_at(rt, &failed, &(granted < heap.left()), &granted);
        if failed {
            self.calls = self.calls.saturating_add(1);
        }
    }

    /// At least this many calls failed, and not all of those that were tried.
    pub fn at_least(&self, rt: &impl Abort, calls: u64, tried: u64) {
        assert_that(rt, calls <= self.calls && self.calls < tried);
    }
}
