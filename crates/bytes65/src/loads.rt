//! Words of data that reached code loads a byte after the other, and those beside them that go on in even steps.

use crate::ground::Ground;
use crate::survey::Survey;
use entries65::Steps;
use entries65::pulls::PRODOS;
use isa65::{Mnemonic, Mode};
use map65::is_inside;
use reach65::image::word;
use std::alloc::AllocError;

/// The absolute address from which the instruction of the address loads a register.
fn loaded_at(steps: &Steps<'_>, at: u16) -> Option<u16> {
    let step = steps.at(at)?;
    match (step.op.mnemonic, step.op.mode) {
        (Mnemonic::Lda | Mnemonic::Ldx | Mnemonic::Ldy, Mode::Abs) => step.operand,
        _ => None,
    }
}

/// How far the address in a word may be from that in the one beside it.
const EVEN: u16 = 64;

/// How many words go on at most.
const MOST: usize = 64;

/// Whether the word at the place is the address, of the image and of no code, and nothing else speaks for it.
fn is_word(ground: &Ground<'_>, survey: &Survey<'_>, place: usize, address: u16) -> bool {
    (ground.word(place).is_some() || ground.words.get_at(place))
        && word(ground.image, place) == Some(address)
        && is_inside(ground.image, usize::from(address))
        && survey.is_likely(address)
}

/// Marks the words beside the one of this address at the place, if the addresses grow evenly by this much from one to
/// the next, and three words do at least.
fn mark_even(ground: &mut Ground<'_>, survey: &Survey<'_>, place: usize, step: u16) {
    let Some(here) = word(ground.image, place) else {
        return;
    };
    let (mut first, mut end) = (place, place.saturating_add(2));
    let (mut less, mut more) = (here, here);
    for _ in 0..MOST {
        more = more.saturating_add(step);
        if !is_word(ground, survey, end, more) {
            break;
        }
        end = end.saturating_add(2);
    }
    for _ in 0..MOST {
        less = less.saturating_sub(step);
        if first < 2 || !is_word(ground, survey, first.saturating_sub(2), less) {
            break;
        }
        first = first.saturating_sub(2);
    }
    if first.saturating_add(6) <= end {
        ground.put_words(0, first, end);
    }
}

/// Marks the words beside those at these places that go on in even steps, as addresses of records do.
fn mark_beside(ground: &mut Ground<'_>, survey: &Survey<'_>, places: &[usize]) {
    for &place in places {
        let Some(here) = word(ground.image, place) else {
            continue;
        };
        for (low, high) in [
            (Some(here), word(ground.image, place.saturating_add(2))),
            (word(ground.image, place.saturating_sub(2)), Some(here)),
        ] {
            if let (Some(low), Some(high)) = (low, high)
                && low < high
                && high - low <= EVEN
            {
                mark_even(ground, survey, place, high - low);
            }
        }
    }
}

/// Marks the words behind calls of ProDOS, which are the addresses of their parameters, if a group INLINE of the file
/// has three bytes there.
pub fn mark_calls(ground: &mut Ground<'_>, survey: &Survey<'_>) {
    let steps = survey.steps;
    if !matches!(steps.inline_at(PRODOS), Some(tag) if tag.size == Some(3)) {
        return;
    }
    for &at in &survey.calls {
        if matches!(steps.at(at), Some(step) if step.to == Some(PRODOS)) {
            ground.put_word(usize::from(at).saturating_add(4));
        }
    }
}

/// Marks two neighbouring bytes that nothing speaks for, if reached code loads both, one right after the other or with
/// a store between, and they form an address of the image that no reached code has, or where a routine begins; and the
/// words beside them that go on in even steps.
pub fn mark_loaded(ground: &mut Ground<'_>, survey: &Survey<'_>) -> Result<(), AllocError> {
    let steps = survey.steps;
    let mut places = Vec::new(steps.alloc());
    for &at in &survey.users {
        let Some(one) = loaded_at(steps, at) else {
            continue;
        };
        for distance in [3u16, 5, 6] {
            let then = at.saturating_add(distance);
            if !survey.reached.get(then) {
                continue;
            }
            let Some(other) = loaded_at(steps, then) else {
                continue;
            };
            let low = usize::from(one.min(other));
            if one.abs_diff(other) == 1
                && let Some(word) = ground.word(low)
                && is_inside(ground.image, usize::from(word))
                && survey.is_likely(word)
            {
                ground.put_words(0, low, low + 2);
                places.push(low)?;
            }
        }
    }
    mark_beside(ground, survey, &places);
    Ok(())
}
