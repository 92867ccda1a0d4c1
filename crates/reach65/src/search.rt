//! What is reached from given entries.

ghost use Rattle.std.specs.Prelude.{◌≡◌, ◌++◌, IfOk, OnOk};
ghost use Rattle.std.specs.Option.{option_to_list};
ghost use Rattle.map65.specs.Words.{is_marked};
ghost use Rattle.reach65.specs.Words.{AreReached, leads_of};

use crate::steps::Steps;
use map65::{Marks, is_inside};
use std::alloc::{AllocError, Global};

/// Adds the address, if there is one.
#[inline(always)]
fn push_some(todo: &mut Vec<u16>, address: Option<u16>) -> Result<(), AllocError>
    ensures { OnOk result (todo.new.items ≡ todo.old.items ++ option_to_list address) }
{
    if let Some(address) = address {
        todo.push(address)?;
    }
    Ok(())
}

/// Adds the addresses that the instruction of this one leads to.
fn push_leads(todo: &mut Vec<u16>, steps: &Steps<'_, '_>, address: u16) -> Result<(), AllocError>
    ensures { OnOk result (todo.new.items ≡ todo.old.items ++ leads_of steps.now address) }
{
    let Some(step) = steps.at(address) else {
        return Ok(());
    };
    push_some(todo, step.next)?;
    push_some(todo, step.goal)
}

/// Returns marks of exactly the addresses that are reached from the entries. Entries outside the image are
/// ignored. Each reached instruction is decoded once, so the time grows with the number of entries and of reached
/// addresses. Fails only if an allocation fails.
#[tactic(auto, using(crate::proofs::ReachedLemmas::search_first, crate::proofs::ReachedLemmas::search_skipped, crate::proofs::ReachedLemmas::search_marked, crate::proofs::ReachedLemmas::search_end))]
pub fn reached(alloc: Global, steps: &Steps<'_, '_>, entries: &[u16]) -> Result<Marks, AllocError>
    /// An address is marked exactly if it is reached: it is an entry in the image, or the instruction of a reached
    /// address leads to it. Or out of memory.
    ensures { IfOk result (λ marks. AreReached steps.now entries.now (is_marked marks)) }
{
    let image = steps.image();
    let mut marks = Marks::none(alloc)?;
    let mut todo = Vec::from_slice(alloc, entries)?;
    'search: while let Some(address) = todo.pop() {
        if is_inside(image, usize::from(address)) && !marks.get(address) {
            marks.set(address);
            push_leads(&mut todo, steps, address)?;
        }
    }
    Ok(marks)
}
