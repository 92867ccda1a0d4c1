//! Which instructions are listed as such.

use crate::survey::Survey;
use map65::{Map, Marks};
use reach65::image::{address, ends};
use std::alloc::AllocError;

/// Whether a range or one of these borders, which are in order, cuts an instruction before the address.
fn is_cut(map: &Map<'_>, borders: &[usize], at: usize) -> bool {
    !matches!(address(at), Some(address) if map.is_code(address))
        || borders.binary_search(&at).is_ok()
}

/// Returns marks of where the instructions begin that are listed: each begins where the one before it ends, and neither
/// a range nor a border of a segment cuts it. Ranges will have what neither the information file nor reached code has,
/// and opcodes that only hide an instruction. None if no pair of halves may begin.
pub fn items_of(survey: &Survey<'_>, taken: &Marks) -> Result<Marks, AllocError> {
    let steps = survey.steps;
    let (alloc, map) = (steps.alloc(), steps.map());
    let mut items = Marks::none(alloc)?;
    if survey.firsts.is_empty() {
        return Ok(items);
    }
    let mut borders = Vec::new(alloc);
    for segment in map.info().segments() {
        borders.push(usize::from(segment.first))?;
        borders.push(usize::from(segment.last) + 1)?;
    }
    borders.sort()?;
    // Without ranges and segments nothing cuts an instruction.
    let may_cut = !borders.is_empty() || !map.info().ranges().is_empty();
    let mut next = 0;
    let (start, end) = ends(steps.image());
    for at in start..end {
        let first = at as u16;
        if at < next || !taken.get(first) || survey.is_skip(first) {
            continue;
        }
        let after = at.saturating_add(steps.len_at(first));
        let mut is_whole = at < after;
        for inner in at.saturating_add(1)..after {
            let is_cut = may_cut && is_cut(map, &borders, inner);
            is_whole = is_whole && taken.get_at(inner) && !is_cut;
        }
        if is_whole {
            items.set(first);
            next = after;
        }
    }
    Ok(items)
}
