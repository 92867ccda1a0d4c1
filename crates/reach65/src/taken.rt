//! Which addresses are taken.

ghost use Rattle.std.specs.Prelude.{◌≡◌, IfOk};
ghost use Rattle.info65.specs.Words.{has_address};
ghost use Rattle.map65.specs.Words.{is_marked};
ghost use Rattle.reach65.specs.Words.{Adds, AreMarkedBy, is_code, is_code_of, is_taken};

use crate::steps::{Steps, start_and_len};
use info65::RangeSpec;
use map65::Marks;
use std::alloc::{AllocError, Global};

/// Marks the bytes of the instruction of the address, if it is reached.
#[tactic(auto, unfolding(crate::specs::Taken::has_byte), using(crate::proofs::TakenLemmas::in_span))]
fn mark_code(code: &mut Marks, steps: &Steps<'_, '_>, reached: &Marks, address: u16)
    ensures { Adds (is_code_of steps.now.map (is_marked reached.now) address) code.old code.new }
{
    if !reached.get(address) {
        return;
    }
    if let Some(op) = steps.instruction_at(address) {
        let from = usize::from(address);
        code.set_span(from, from + usize::from(op.mode.len()));
    }
}

/// Returns marks of exactly the addresses that a reached instruction has. Fails only if the allocation fails.
#[tactic(auto, using(crate::proofs::TakenLemmas::code_in_none, crate::proofs::TakenLemmas::code_in_more, crate::proofs::TakenLemmas::code_in_all))]
pub fn code_of(alloc: Global, steps: &Steps<'_, '_>, reached: &Marks) -> Result<Marks, AllocError>
    /// Marks exactly the addresses that a reached instruction has; or out of memory.
    ensures { IfOk result (AreMarkedBy (is_code steps.now.map (is_marked reached.now))) }
{
    let mut code = Marks::none(alloc)?;
    let (start, len) = start_and_len(steps.image());
    'image: for k in 0..len {
        mark_code(&mut code, steps, reached, (start + k) as u16);
    }
    Ok(code)
}

/// Marks the addresses of a range.
#[tactic(auto, using(crate::proofs::TakenLemmas::in_range))]
fn mark_range(marks: &mut Marks, range: RangeSpec)
    ensures { Adds (has_address range) marks.old marks.new }
{
    marks.set_span(usize::from(range.first), usize::from(range.last) + 1);
}

/// Returns marks of exactly the addresses that are marked in `code` or that a range of the information file
/// has. Fails only if the allocation fails.
#[tactic(auto, unfolding(crate::specs::Taken::is_taken, crate::specs::Taken::is_given), using(crate::proofs::TakenLemmas::any_range))]
pub fn taken_of(alloc: Global, steps: &Steps<'_, '_>, code: &Marks) -> Result<Marks, AllocError>
    /// Marks exactly the addresses that are marked or that a range of the information file has; or out of memory.
    ensures { IfOk result (AreMarkedBy (is_taken steps.now.map (is_marked code.now))) }
{
    let mut taken = code.copy(alloc)?;
    'given: for &range in steps.map().info().ranges() {
        mark_range(&mut taken, range);
    }
    Ok(taken)
}
