//! Opcodes that hide an instruction: code is reached in the operand of a reached `bit`, or of a load or a comparison
//! with a number, and ends where that operand ends. Not one whose operand is an address that other code uses, or that
//! has a name, and none in a range of the information file. If there are more than 4,096, none counts.

use entries65::Steps;
use entries65::sound::hides;
use map65::Marks;
use reach65::Placed;
use reach65::image::{address, ends, given};
use std::alloc::AllocError;

/// How many there may be. Few programs have so many, and the text of more gets too long.
const MOST: usize = 4096;

/// Whether reached instructions fill the operand of this one.
fn is_filled(steps: &Steps<'_>, reached: &Marks, outer: Placed<'_>) -> bool {
    let end = usize::from(outer.at).saturating_add(outer.step.len());
    let mut at = usize::from(outer.at).saturating_add(1);
    for _ in 0..2 {
        if at < end
            && reached.get_at(at)
            && let Some(inner) = address(at)
        {
            at = at.saturating_add(steps.len_at(inner));
        }
    }
    at == end
}

/// Marks of the absolute operands of the reached instructions but for these.
fn used(steps: &Steps<'_>, reached: &Marks, outers: &[u16]) -> Result<Marks, AllocError> {
    let mut marks = Marks::none(steps.alloc())?;
    let (start, end) = ends(steps.image());
    for at in start..end {
        if let Some(placed) = steps.marked(reached, at as u16)
            && let Some(operand) = placed.step.operand
            && outers.binary_search(&placed.at).is_err()
        {
            marks.set(operand);
        }
    }
    Ok(marks)
}

/// Returns where such opcodes stand, in order.
pub fn skips_of(steps: &Steps<'_>, reached: &Marks) -> Result<Vec<u16>, AllocError> {
    let mut found = Vec::new(steps.alloc());
    let (start, end) = ends(steps.image());
    for at in start..end {
        if reached.get_at(at.saturating_add(1))
            && let Some(outer) = steps.marked(reached, at as u16)
            && hides(outer.step.op)
            && is_filled(steps, reached, outer)
        {
            found.push(outer.at)?;
        }
    }
    if MOST < found.len() {
        found.clear();
    }
    if found.is_empty() {
        return Ok(found);
    }
    let used = used(steps, reached, &found)?;
    let info = steps.map().info();
    let given = given(steps.alloc(), info)?;
    let mut skips = Vec::new(steps.alloc());
    for &at in &found {
        if let Some(step) = steps.at(at)
            && !given.get(at)
            && !matches!(step.operand, Some(to) if used.get(to) || info.covering(to).is_some())
        {
            skips.push(at)?;
        }
    }
    Ok(skips)
}
