//! The address after each line of a text. Lines that give no bytes take no memory.

ghost use Rattle.std.specs.Prelude.{◌≡◌, ◌-◌, ◌++◌, ◌∷◌, [], IfOk, OnOk, length, slice_get};
ghost use Rattle.stmt65.specs.Words.{ends_left};

use std::alloc::{AllocError, Allocator};
use std::marker::Model;

/// The address after a line, and after how many more lines it is the same.
#[derive(Clone, Copy)]
struct Step {
    end: u64,
    more: usize,
}

/// The address after each line of a text, in the order of the lines.
#[derive(Drop)]
pub struct LineEnds<A: Allocator> {
    steps: Vec<Step, A>,
}

impl<A: Allocator> Model for LineEnds<A> {
    ghost use Rattle.std.specs.Prelude.{ℕ, List};
    ghost use Rattle.stmt65.specs.Code.LineEnds.{ends_of};

    ghost Value = { List ℕ };

    ghost view = { λ e. ends_of e.steps.items };
}

impl<A: Allocator> LineEnds<A> {
    /// Those of no lines.
    pub(crate) fn new(alloc: A) -> LineEnds<A>
        ensures { result ≡ [] }
    {
        LineEnds {
            steps: Vec::new(alloc),
        }
    }

    /// Adds the address after the next line.
    pub(crate) fn push(&mut self, end: u64) -> Result<(), AllocError>
        ensures { OnOk result (self.new ≡ self.old ++ end ∷ []) }
    {
        // Most lines give bytes, so their steps are only added.
        if self.last() != Some(end) {
            return Ok(self.steps.push(Step { end, more: 0 })?);
        }
        match self.steps.pop() {
            Some(last) if last.end == end && last.more < usize::MAX => {
                let more = last.more + 1;
                self.steps.extend_from_slice(&[Step { end, more }])
            }
            Some(last) => self.steps.extend_from_slice(&[last, Step { end, more: 0 }]),
            None => self.steps.extend_from_slice(&[Step { end, more: 0 }]),
        }
    }

    /// The address after the last line.
    #[tactic(auto, using(crate::proofs::EndLemmas::last_end))]
    pub fn last(&self) -> Option<u64>
        /// Returns the last address, if there is a line.
        ensures { result ≡ slice_get self.now (length self.now - 1) }
    {
        Some(self.steps.last()?.end)
    }

    /// Goes over the addresses.
    pub fn iter(&self) -> EndsIter<'_>
        /// Returns an iterator over the addresses, in the order of the lines.
        ensures { ends_left result ≡ self.now }
    {
        EndsIter {
            end: 0,
            more: 0,
            rest: &self.steps,
        }
    }

    /// The addresses by themselves.
    pub(crate) fn to_vec<B: Allocator>(&self, alloc: B) -> Result<Vec<u64, B>, AllocError>
        ensures { IfOk result (λ ends. ends.items ≡ self.now) }
    {
        let mut ends = Vec::new(alloc);
        let mut left = self.iter();
        'ends: while let Some(end) = left.next() {
            ends.push(end)?;
        }
        Ok(ends)
    }
}

/// The addresses after the lines that are left.
#[derive(Clone, Copy)]
pub struct EndsIter<'e> {
    end: u64,
    more: usize,
    rest: &'e [Step],
}

impl<'e> Iterator for EndsIter<'e> {
    ghost use Rattle.std.specs.Iterator.{YieldsFirst, item_count};

    type Item = u64;

    ghost next_gives = { YieldsFirst ends_left };

    ghost remaining = { item_count ends_left };

    fn next(&mut self) -> Option<u64> {
        if 0 < self.more {
            self.more -= 1;
            return Some(self.end);
        }
        let (step, rest) = self.rest.split_first()?;
        *self = EndsIter {
            end: step.end,
            more: step.more,
            rest,
        };
        Some(step.end)
    }
}
