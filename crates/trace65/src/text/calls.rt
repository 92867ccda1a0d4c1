//! Comments for what keeps bytes from being code, and for calls after which nothing decodes: text that the
//! called routine reads may follow them.

use crate::advice::Advice;
use crate::text::Text;
use entries65::sound::reads_on;
use info65::RangeType;
use isa65::Mnemonic;
use std::alloc::AllocError;

/// How many instructions after a call are looked at.
const STEPS: usize = 8;

/// Where ProDOS of the Apple II is called.
const PRODOS: u16 = 0xBF00;

/// What stands behind such a call: its number and the address of its parameters.
const INLINE_PRODOS: &[u8] = b"INLINE { ADDR $BF00; SIZE 3; }, of ProDOS?\n";

/// The routine of the call at the address, the address, and whether nothing decodes after the call. A call that is not
/// reached counts if its routine is, or lies outside the image.
fn call_at(advice: &Advice<'_>, at: u16) -> Option<(u16, u16, bool)> {
    let step = advice.steps.at(at)?;
    let routine = step.to?;
    let reached = advice.survey.reached;
    let counts = reached.get(at) || step.goal.is_none() || reached.get(routine);
    counts.then_some((routine, at, !reads_on(advice.steps, step.next, STEPS)))
}

/// The calls that are reached, and those that were read in trials that failed; by routine.
fn calls_of(advice: &Advice<'_>) -> Result<Vec<(u16, u16, bool)>, AllocError> {
    let mut calls = Vec::new(advice.steps.alloc());
    let followed = advice.reach.followed;
    for &at in advice.survey.calls.iter().chain(&followed.calls) {
        if let Some(call) = call_at(advice, at) {
            calls.push(call)?;
        }
    }
    calls.sort()?;
    calls.dedup();
    Ok(calls)
}

/// What stands at the address, where code cannot go on.
fn name_of(advice: &Advice<'_>, address: u16) -> &'static str {
    match advice.steps.at(address) {
        Some(step) if step.op.mnemonic == Mnemonic::Brk => "brk",
        Some(_) => "instruction",
        None if advice.steps.map().role(address) == Some(RangeType::Code) => "undefined opcode",
        None => "range",
    }
}

impl Text<'_> {
    /// Adds a comment for each routine after half of whose calls nothing decodes at least, by address, unless a
    /// group INLINE of the file has it.
    pub fn put_calls(&mut self) -> Result<(), AllocError> {
        let advice = self.advice;
        let calls = calls_of(advice)?;
        for same in calls.as_slice().chunk_by(|one, other| one.0 == other.0) {
            let failing = same.iter().filter(|call| call.2).count();
            if let Some(&(routine, ..)) = same.first()
                && 0 < failing
                && same.len() <= failing.saturating_mul(2)
                && advice.steps.inline_at(routine).is_none()
            {
                self.put_decimal(b"# what follows ", failing)?;
                self.put_decimal(b" of ", same.len())?;
                self.put_address(b" calls of $", routine)?;
                self.put(b" does not decode: ")?;
                self.put(if routine == PRODOS {
                    INLINE_PRODOS
                } else {
                    b"INLINE?\n"
                })?;
            }
        }
        Ok(())
    }

    /// Adds a comment for each of the obstacles that keep the most bytes from being code.
    pub fn put_stops(&mut self) -> Result<(), AllocError> {
        let advice = self.advice;
        for obstacle in &advice.reach.followed.obstacles {
            self.put(b"# the ")?;
            self.put(name_of(advice, obstacle.address).as_bytes())?;
            self.put_address(b" at $", obstacle.address)?;
            self.put_decimal(b" keeps ", obstacle.bytes)?;
            self.put(b" bytes from being code\n")?;
        }
        Ok(())
    }
}
