//! Comments for bytes that read as code to which nothing leads, and for digits that are where code begins.

use crate::text::Text;
use entries65::basic::{LINE, sys_at};
use isa65::Mnemonic::{Brk, Rti, Rts};
use map65::is_jump;
use reach65::image::{address, ends};
use std::alloc::AllocError;

/// How many bytes have to read as code.
const LEAST: usize = 24;

/// How many of the instructions have to lead to others, or to return.
const LEADS: usize = 3;

/// How many instructions are looked at. Few programs have so many that are not reached.
const MOST: usize = 8192;

/// The lowest address to which code leads outside the image: below are the zero page and the stack.
const LOWEST: u16 = 0x200;

impl Text<'_> {
    /// Where the bytes from the address on end that read as code and that nothing speaks for, and whether they
    /// likely are code: their branches, jumps and calls lead to where others may begin, and some to different ones.
    /// `left` is how many instructions may be looked at.
    fn stretch(&self, from: usize, left: &mut usize) -> (usize, bool) {
        let advice = self.advice;
        let survey = &advice.survey;
        let (_, end) = ends(advice.steps.image());
        let (mut at, mut leads, mut is_bad) = (from, 0usize, false);
        let mut last = None;
        for _ in from..end {
            let Some(step) = address(at).and_then(|address| advice.steps.at(address)) else {
                break;
            };
            if step.op.mnemonic == Brk || !advice.data.ground.is_free(at) || *left == 0 {
                break;
            }
            *left -= 1;
            match (step.to, step.goal) {
                (_, Some(goal)) if survey.reached.get(goal) || !survey.code.get(goal) => {
                    leads = leads.saturating_add(usize::from(last != Some(goal)));
                    last = Some(goal);
                }
                (_, Some(_)) => is_bad = true,
                (Some(to), None) => is_bad = is_bad || to < LOWEST || !is_jump(step.op.mnemonic),
                (None, None) => {
                    if matches!(step.op.mnemonic, Rts | Rti) {
                        leads = leads.saturating_add(1);
                    }
                }
            }
            at = at.saturating_add(step.len());
        }
        let is_long = from.saturating_add(LEAST) <= at;
        (at, is_long && LEADS <= leads && !is_bad)
    }

    /// Whether an instruction begins at the address.
    fn has_step(&self, at: usize) -> bool {
        address(at).is_some_and(|address| self.advice.steps.at(address).is_some())
    }

    /// Adds a comment for each stretch of bytes that read as code to which nothing leads.
    pub fn put_unreached(&mut self) -> Result<(), AllocError> {
        let mut left = MOST;
        let mut behind = 0;
        for &range in self.ranges {
            let first = usize::from(range.first);
            let end = usize::from(range.last).saturating_add(1);
            let mut from = behind.max(first);
            for _ in first..end {
                // Where no instruction begins, none is looked at.
                let begins = (from..end).find(|at| self.has_step(*at));
                from = begins.unwrap_or(end.max(from));
                if end <= from || left == 0 {
                    break;
                }
                let (to, is_code) = self.stretch(from, &mut left);
                if is_code && let Some(first) = address(from) {
                    self.put_decimal(b"# ", to.saturating_sub(from))?;
                    self.put_address(b" bytes at $", first)?;
                    self.put(b" read as code, but nothing leads there: ENTRY?\n")?;
                }
                from = to.max(from.saturating_add(1));
            }
            behind = from;
        }
        Ok(())
    }

    /// Adds a comment for the digits behind a SYS at the start of the image that are where reached code begins.
    pub fn put_digits(&mut self) -> Result<(), AllocError> {
        let advice = self.advice;
        let (start, end) = ends(advice.steps.image());
        for at in start..end.min(start.saturating_add(LINE)) {
            if let Some(sys) = sys_at(advice.steps.image(), at)
                && !advice.reach.code.get_at(at)
                && advice.survey.reached.get(sys.to)
            {
                self.put_address(b"# the digits at $", sys.first)?;
                self.put_address(b"-$", sys.last)?;
                self.put_decimal(b" are ", usize::from(sys.to))?;
                self.put_address(b", $", sys.to)?;
                self.put(b", where code begins: they stay if it moves\n")?;
            }
        }
        Ok(())
    }
}
