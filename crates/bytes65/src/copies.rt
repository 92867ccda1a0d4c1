//! Code that is copied and run elsewhere: reached code loads with an index from the image and stores with the same
//! index, and jumps or calls to where that begins. Inside the image it does so to the first byte alone, outside of it
//! to one of 256 bytes.

use crate::survey::Survey;
use entries65::Steps;
use isa65::{Mnemonic, Mode};
use map65::{Marks, is_inside};
use reach65::Placed;
use std::alloc::AllocError;

/// How many bytes a loop copies at most.
const MOST: u16 = 256;

/// How many pieces of code are told.
const TOLD: usize = 16;

/// Code that is copied: where it stands, where it runs, how many bytes it has at most, and which instruction loads it.
#[derive(Clone, Copy)]
pub struct Copied {
    pub from: u16,
    pub to: u16,
    pub len: u16,
    pub reader: u16,
    /// Whether it runs where the image lies.
    pub is_over: bool,
}

impl Copied {
    /// Returns whether code that overwrites the image has the address where it stands: what it refers to is not what
    /// the image has there.
    pub fn hides(&self, address: u16) -> bool {
        let index = address.checked_sub(self.from);
        self.is_over && matches!(index, Some(index) if index < self.len)
    }
}

/// An instruction that loads with an index, from which address, and to which one the one behind it stores.
#[derive(Clone, Copy)]
pub struct Move<'s> {
    pub load: Placed<'s>,
    pub from: u16,
    pub to: u16,
}

/// Returns what the instruction and the one behind it move, if they do.
pub fn moved<'s>(steps: &Steps<'_>, reached: &Marks, load: Placed<'s>) -> Option<Move<'s>> {
    if load.step.op.mnemonic != Mnemonic::Lda {
        return None;
    }
    let store = steps.behind(reached, load)?;
    if store.step.op.mnemonic != Mnemonic::Sta {
        return None;
    }
    let to = match (load.step.op.mode, store.step.op.mode) {
        (Mode::Absx, Mode::Absx) | (Mode::Absy, Mode::Absy) => store.step.operand?,
        (Mode::Absx, Mode::Zpx) => u16::from(store.step.byte?),
        _ => return None,
    };
    let from = load.step.operand?;
    Some(Move { load, from, to })
}

/// Returns how many bytes the loop copies in which the instruction loads: an index counts down from a number right
/// before it, or up to one that is compared in the next four instructions, or else all.
pub fn len_of(survey: &Survey<'_>, load: Placed<'_>) -> u16 {
    let (steps, reached) = (survey.steps, survey.reached);
    let before = steps.marked(reached, load.at.saturating_sub(2));
    if let Some(first) = before
        && matches!(first.step.op.mnemonic, Mnemonic::Ldx | Mnemonic::Ldy)
        && first.step.op.mode == Mode::Imm
        && let Some(count) = first.step.byte
        && 0 < count
    {
        return u16::from(count).saturating_add(1);
    }
    let mut at = load;
    for _ in 0..4 {
        let Some(next) = steps.behind(reached, at) else {
            break;
        };
        if matches!(next.step.op.mnemonic, Mnemonic::Cpx | Mnemonic::Cpy)
            && next.step.op.mode == Mode::Imm
            && let Some(count) = next.step.byte
        {
            return u16::from(count);
        }
        at = next;
    }
    MOST
}

/// Where reached jumps and calls lead by an address, in order.
fn goals_of(survey: &Survey<'_>) -> Result<Vec<u16>, AllocError> {
    let mut found = Vec::new(survey.steps.alloc());
    for &at in &survey.users {
        if let Some(step) = survey.steps.at(at)
            && let Some(to) = step.to
        {
            found.push(to)?;
        }
    }
    found.sort()?;
    Ok(found)
}

/// Where the code begins that is copied to this address, if a jump leads there. An index may end at 1: then it is the
/// address behind that.
fn more_of(survey: &Survey<'_>, goals: &[u16], to: u16) -> Option<u16> {
    let is_in = is_inside(survey.steps.image(), usize::from(to));
    let most = if is_in { 1 } else { MOST };
    let (Ok(place) | Err(place)) = goals.binary_search(&to);
    let less = goals.get(place)?.saturating_sub(to);
    (less < most.saturating_add(1)).then_some(u16::from(less == 1))
}

/// Returns the code that is copied, 16 pieces at most, in the order of the instructions that load it.
pub fn copies_of(survey: &Survey<'_>) -> Result<Vec<Copied>, AllocError> {
    let steps = survey.steps;
    let mut found = Vec::new(steps.alloc());
    if survey.moves.is_empty() {
        return Ok(found);
    }
    let goals = goals_of(survey)?;
    for &Move { load, from, to } in &survey.moves {
        if found.len() < TOLD
            && from != to
            // Nothing is copied to $FFFF and behind it: code changes such an operand before it runs.
            && to < u16::MAX
            && is_inside(steps.image(), usize::from(from))
            && let Some(more) = more_of(survey, &goals, to)
        {
            found.push(Copied {
                from: from.saturating_add(more),
                to: to.saturating_add(more),
                len: len_of(survey, load),
                reader: load.at,
                is_over: is_inside(steps.image(), usize::from(to)),
            })?;
        }
    }
    Ok(found)
}
