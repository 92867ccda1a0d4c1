//! What reached code does with addresses.

use crate::copies::{Move, moved};
use crate::skips::skips_of;
use entries65::Steps;
use entries65::pairs::may_begin;
use entries65::sound::holder_of;
use isa65::Mnemonic::{self, Asl, Dec, Inc, Jsr, Lsr, Rol, Ror, Sta, Stx, Sty, Stz, Trb, Tsb};
use map65::{Marks, is_jump};
use reach65::Placed;
use reach65::image::{address, byte, ends};
use std::alloc::AllocError;

/// Marks of addresses, by what reached instructions do with them.
#[derive(Drop)]
pub struct Survey<'a> {
    pub steps: &'a Steps<'a>,
    /// A reached instruction begins at the address.
    pub reached: &'a Marks,
    /// One has it.
    pub code: &'a Marks,
    /// Where opcodes stand that only hide an instruction, in order.
    pub skips: Vec<u16>,
    /// One goes on to it: it leads there as the next one, or branches there.
    pub gone_on: Marks,
    /// One goes to it by its operand.
    pub goals: Marks,
    /// One calls it.
    called: Marks,
    /// One has it as its absolute operand, and does not go there.
    pub operands: Marks,
    /// One stores to it, or changes it.
    pub written: Marks,
    /// A text behind a call begins there that ends with a zero byte.
    pub texts: Marks,
    /// Where the instructions begin with which a pair of halves may begin, in order.
    pub firsts: Vec<u16>,
    /// Where those begin that have an absolute operand, in order.
    pub users: Vec<u16>,
    /// Where calls begin.
    pub calls: Vec<u16>,
    /// What is loaded with an index and stored.
    pub moves: Vec<Move<'a>>,
}

/// Returns whether an instruction stores to its operand, or changes it.
pub fn writes(mnemonic: Mnemonic) -> bool {
    matches!(
        mnemonic,
        Sta | Stx | Sty | Stz | Inc | Dec | Asl | Lsr | Rol | Ror | Trb | Tsb
    )
}

/// Marks the address, if there is one.
fn set_some(marks: &mut Marks, address: Option<u16>) {
    if let Some(address) = address {
        marks.set(address);
    }
}

/// The address of the text behind a call, if that ends with a zero byte, which may be the one at $FFFF.
fn text_behind(steps: &Steps<'_>, call: Placed<'_>) -> Option<u16> {
    let tag = steps.inline_at(call.step.to?)?;
    let has_end = call.step.end.is_some() || byte(steps.image(), 0xFFFF) == Some(0);
    let after = usize::from(call.at).saturating_add(call.step.len());
    (tag.size.is_none() && has_end).then_some(address(after)?)
}

impl<'a> Survey<'a> {
    /// Looks at the reached instructions.
    pub fn of(
        steps: &'a Steps<'a>,
        reached: &'a Marks,
        code: &'a Marks,
    ) -> Result<Survey<'a>, AllocError> {
        let alloc = steps.alloc();
        let mut survey = Survey {
            steps,
            reached,
            code,
            skips: skips_of(steps, reached)?,
            gone_on: Marks::none(alloc)?,
            goals: Marks::none(alloc)?,
            called: Marks::none(alloc)?,
            operands: Marks::none(alloc)?,
            written: Marks::none(alloc)?,
            texts: Marks::none(alloc)?,
            firsts: Vec::new(alloc),
            users: Vec::new(alloc),
            calls: Vec::new(alloc),
            moves: Vec::new(alloc),
        };
        let (start, end) = ends(steps.image());
        for (at, step) in (start..end).zip(steps.all()) {
            if let Some(step) = step
                && let Some(at) = address(at)
                && reached.get(at)
            {
                survey.put(Placed { at, step })?;
            }
        }
        Ok(survey)
    }

    /// Returns whether the opcode at the address only hides an instruction.
    pub fn is_skip(&self, address: u16) -> bool {
        self.skips.binary_search(&address).is_ok()
    }

    /// Returns where the reached instruction begins that the address lies inside of, unless that only hides one.
    pub fn holder_of(&self, address: u16) -> Option<u16> {
        let holder = holder_of(self.steps, self.reached, address)?;
        (!self.is_skip(holder)).then_some(holder)
    }

    /// Marks what the instruction does.
    fn put(&mut self, placed: Placed<'a>) -> Result<(), AllocError> {
        let Placed { at, step } = placed;
        if self.is_skip(at) {
            set_some(&mut self.gone_on, step.next);
            return Ok(());
        }
        if may_begin(step.op) {
            self.firsts.push(at)?;
        }
        set_some(&mut self.gone_on, step.next);
        if let Some(goal) = step.goal {
            self.goals.set(goal);
            if step.op.mnemonic == Jsr {
                self.called.set(goal);
            }
            if !is_jump(step.op.mnemonic) {
                self.gone_on.set(goal);
            }
        }
        if let Some(operand) = step.operand {
            self.users.push(at)?;
            if let Some(one) = moved(self.steps, self.reached, placed) {
                self.moves.push(one)?;
            }
            if step.to.is_none() {
                self.operands.set(operand);
            }
            if writes(step.op.mnemonic) {
                self.written.set(operand);
            }
        }
        if step.op.mnemonic == Jsr {
            self.calls.push(at)?;
            set_some(&mut self.texts, text_behind(self.steps, placed));
        }
        Ok(())
    }

    /// Returns whether a routine begins at the address, which may lie past $FFFF: it is reached, and it is
    /// called, or no code goes on to it.
    pub fn is_routine(&self, at: usize) -> bool {
        self.reached.get_at(at)
            && self.code.get_at(at)
            && (self.called.get_at(at) || !self.gone_on.get_at(at))
    }

    /// Returns whether no reached instruction has the address, or a routine begins there.
    pub fn is_likely(&self, address: u16) -> bool {
        !self.code.get(address) || self.is_routine(usize::from(address))
    }
}
