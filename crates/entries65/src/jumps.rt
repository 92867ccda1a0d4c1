//! Rows of jumps, by which drivers and libraries give their routines.

use crate::Steps;
use crate::growth::IN_TABLE;
use crate::search::{Least, Search};
use isa65::{Mnemonic, Mode};
use reach65::image::{address, ends};
use std::alloc::AllocError;

/// How many jumps a row has at least.
const ROW: usize = 3;

/// How many bytes a jump has.
const JUMP: usize = 3;

/// The address of the image to which the bytes at the address jump, if they are a `jmp`.
fn target(steps: &Steps<'_>, at: usize) -> Option<u16> {
    let step = steps.at(address(at)?)?;
    (step.op.mnemonic == Mnemonic::Jmp && step.op.mode == Mode::Abs).then_some(step.goal?)
}

/// How many jumps stand one behind the other from an address on, up to another one.
fn jump_count(steps: &Steps<'_>, from: usize, end: usize) -> usize {
    let mut count = 0usize;
    for at in (from..end).step_by(JUMP) {
        if target(steps, at).is_none() {
            break;
        }
        count = count.saturating_add(1);
    }
    count
}

impl Search<'_> {
    /// Whether three quarters of the jumps of a row lead to code, and one at least is not reached.
    fn is_row(&mut self, from: usize, count: usize) -> Result<bool, AllocError> {
        let mut good = 0usize;
        let mut is_new = false;
        for index in 0..count {
            let at = from.saturating_add(index.saturating_mul(JUMP));
            if let Some(to) = target(self.steps, at) {
                is_new = is_new || !self.marks.get_at(at);
                if self.marks.get(to) || self.would_join(to, Least::Count(IN_TABLE))? {
                    good = good.saturating_add(1);
                }
            }
        }
        Ok(is_new && count.saturating_mul(3) <= good.saturating_mul(4))
    }

    /// Lets the jumps of rows join, three at least one behind the other, of which three quarters lead to code.
    pub fn join_jumps(&mut self) -> Result<(), AllocError> {
        let steps = self.steps;
        let image = steps.image();
        let (start, end) = ends(image);
        let mut behind = start;
        for (from, &byte) in (start..end).zip(image.bytes()) {
            if byte != 0x4C || from < behind {
                continue;
            }
            let count = jump_count(steps, from, end);
            if count < ROW {
                continue;
            }
            behind = from.saturating_add(count.saturating_mul(JUMP));
            if !self.is_row(from, count)? {
                continue;
            }
            for at in (from..behind).step_by(JUMP) {
                if let Some(jump) = address(at) {
                    self.join(jump, Least::Count(1))?;
                }
            }
        }
        Ok(())
    }
}
