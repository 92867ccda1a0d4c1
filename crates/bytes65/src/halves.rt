//! Addresses that code loads in halves.

use crate::survey::Survey;
use entries65::pairs::{Pair, RANKS, pairs_at};
use entries65::sound::holder_of;
use map65::Marks;
use std::alloc::AllocError;

/// Whether code from elsewhere enters between the two loads, or an instruction between
/// them shares a byte with another one.
fn is_broken(survey: &Survey<'_>, pair: Pair) -> bool {
    let first = pair.low.min(pair.high).saturating_sub(1);
    let second = pair.low.max(pair.high).saturating_sub(1);
    for at in first..second.saturating_add(1) {
        let inside = at != first && survey.goals.get(at);
        if survey.reached.get(at)
            && (inside || holder_of(survey.steps, survey.reached, at).is_some())
        {
            return true;
        }
    }
    false
}

/// Whether the address has a name of the information file, or reached code has it as an operand.
fn is_used(survey: &Survey<'_>, address: u16) -> bool {
    let name = survey.steps.map().info().covering(address);
    survey.operands.get(address) || matches!(name, Some(name) if name.address == address)
}

/// Whether nothing breaks the pair, and its instructions are listed.
fn is_whole(survey: &Survey<'_>, items: &Marks, pair: Pair) -> bool {
    !is_broken(survey, pair)
        && items.get(pair.low.saturating_sub(1))
        && items.get(pair.high.saturating_sub(1))
}

/// Whether a pair is sure to be meant as an address: it is whole, and plausible, or only its low half is not, and its
/// address is used elsewhere.
fn is_sure(survey: &Survey<'_>, items: &Marks, pair: Pair) -> bool {
    let is_meant = pair.is_plausible() || pair.has_usual_form() && is_used(survey, pair.address);
    is_meant && is_whole(survey, items, pair)
}

/// Whether the address may be meant: no reached instruction has it, or a routine begins there.
fn is_address(survey: &Survey<'_>, pair: Pair) -> bool {
    pair.less == 0 && !survey.code.get(pair.address) || survey.is_routine(pair.meant())
}

/// Whether reached code stores to the address, or to one of the two before it.
fn is_over_code(survey: &Survey<'_>, pair: Pair) -> bool {
    let (written, address) = (&survey.written, pair.address);
    pair.less == 0
        && (written.get(address)
            || written.get(address.saturating_sub(1))
            || written.get(address.saturating_sub(2)))
}

/// The pairs that are an address, and those that may be one.
#[derive(Drop)]
pub struct Halves {
    pub sure: Vec<Pair>,
    pub likely: Vec<Pair>,
}

impl Halves {
    /// Takes the whole pairs among the likely ones that have the address of a sure one for sure.
    fn take_known(&mut self, survey: &Survey<'_>, items: &Marks) -> Result<(), AllocError> {
        if self.likely.is_empty() {
            return Ok(());
        }
        let alloc = survey.steps.alloc();
        let (mut known, mut left) = (Marks::none(alloc)?, Vec::new(alloc));
        for pair in &self.sure {
            known.set(pair.address);
        }
        for &pair in &self.likely {
            if known.get(pair.address) && is_whole(survey, items, pair) {
                self.sure.push(pair)?;
            } else {
                left.push(pair)?;
            }
        }
        self.likely = left;
        Ok(())
    }
}

/// A pair, and its rank among the sure ones and the likely ones, which come behind them.
type Ranked = (u8, Pair);

/// The pairs that may be an address, in the order of the code.
fn ranked_of(
    survey: &Survey<'_>,
    items: &Marks,
    (limit, most): (usize, usize),
) -> Result<Vec<Ranked>, AllocError> {
    let steps = survey.steps;
    let mut pairs = Vec::new(steps.alloc());
    for &at in &survey.firsts {
        let Some(first) = steps.marked(survey.reached, at) else {
            continue;
        };
        for pair in pairs_at(steps, survey.reached, first) {
            let Some(pair) = pair else { continue };
            if pair.address < steps.image().start() || most <= pair.meant() {
                continue;
            }
            let is_address = is_address(survey, pair);
            if is_address && pair.meant() < limit && is_sure(survey, items, pair) {
                pairs.push((pair.rank, pair))?;
            } else if is_address || is_over_code(survey, pair) {
                pairs.push((pair.rank.saturating_add(RANKS), pair))?;
            }
        }
    }
    Ok(pairs)
}

/// Sorts pairs by the places of their low bytes.
fn sort(pairs: &mut Vec<Pair>) -> Result<(), AllocError> {
    pairs.sort_by_key(|pair| pair.low)
}

/// Returns each pair of immediates in reached code that is an address, by the places of their low bytes: no reached
/// instruction has that address, or a routine begins there; it lies in the image, or behind it before the first limit;
/// each byte is in one pair, of two the likelier; and none is at a place that `said` has.
///
/// A pair that is not sure, or not in `items`, which are listed, is only likely, unless one that is sure has its
/// address. So is one before the second limit, or where reached code stores into other code: variables may lie over
/// code that runs once.
pub fn halves_of(
    survey: &Survey<'_>,
    items: &Marks,
    said: Marks,
    limits: (usize, usize),
) -> Result<Halves, AllocError> {
    let alloc = survey.steps.alloc();
    let pairs = ranked_of(survey, items, limits)?;
    let mut ranks = 0u32;
    for &(rank, _) in &pairs {
        ranks |= 1 << (rank % 32);
    }
    let mut halves = Halves {
        sure: Vec::new(alloc),
        likely: Vec::new(alloc),
    };
    let mut used = said;
    for rank in 0..2 * RANKS {
        if (ranks >> rank) % 2 == 0 {
            continue;
        }
        for &(of, pair) in &pairs {
            if of != rank || used.get(pair.low) || used.get(pair.high) {
                continue;
            }
            used.set(pair.low);
            used.set(pair.high);
            if rank < RANKS {
                halves.sure.push(pair)?;
            } else {
                halves.likely.push(pair)?;
            }
        }
    }
    halves.take_known(survey, items)?;
    sort(&mut halves.sure)?;
    sort(&mut halves.likely)?;
    Ok(halves)
}
