//! Rows of words that are addresses of routines.

use crate::ground::Ground;
use crate::links::FAR;
use crate::survey::Survey;
use entries65::Steps;
use entries65::words::ROW;
use map65::{ADDRESSES, Marks};
use reach65::image::{address, bytes_at, ends, word};
use std::alloc::AllocError;

/// Whether the word at the address is the address of a routine, less so much.
fn is_leading(ground: &Ground<'_>, survey: &Survey<'_>, less: u16, at: usize) -> bool {
    matches!(ground.word(at), Some(word)
        if survey.is_routine(usize::from(word) + usize::from(less)))
}

/// How many words a row has that begins at the address: each is the address of a routine, less so much, and there are
/// three at least.
fn row_len(ground: &Ground<'_>, survey: &Survey<'_>, less: u16, from: usize) -> usize {
    let (_, end) = ends(ground.image);
    let mut count = 0usize;
    for at in (from..end).step_by(2) {
        if !is_leading(ground, survey, less, at) {
            break;
        }
        count = count.saturating_add(1);
    }
    if ROW <= count { count } else { 0 }
}

/// Whether the word at the address leads to code, this much after it: to a reached instruction.
fn leads(ground: &Ground<'_>, survey: &Survey<'_>, less: u16, at: usize) -> bool {
    let Some(word) = ground.word(at) else {
        return false;
    };
    let to = usize::from(word).saturating_add(usize::from(less));
    survey.reached.get_at(to) && survey.code.get_at(to)
}

/// Marks the words of the row that begins at the address, if one does, and those right behind and before them that lead
/// to code.
fn put_row(ground: &mut Ground<'_>, survey: &Survey<'_>, less: u16, from: usize) {
    let count = row_len(ground, survey, less, from);
    if count == 0 {
        return;
    }
    let (start, end) = ends(ground.image);
    let mut behind = from.saturating_add(count.saturating_mul(2));
    for at in (behind..end).step_by(2) {
        if !leads(ground, survey, less, at) {
            break;
        }
        behind = at.saturating_add(2);
    }
    let mut first = from;
    for _ in start..from {
        let before = first.saturating_sub(2);
        if before < start || first < 2 || !leads(ground, survey, less, before) {
            break;
        }
        first = before;
    }
    ground.put_words(less, first, behind);
}

/// Where words of data begin that nothing speaks for, in order.
#[derive(Drop)]
pub struct Words {
    /// Those that may be an address of a routine, or less one, or that of a name.
    pub leading: Vec<u16>,
    /// Those that lead to at most 256 bytes from there.
    pub near: Vec<u16>,
}

/// Returns marks of the addresses of names.
fn named_of(steps: &Steps<'_>) -> Result<Marks, AllocError> {
    let info = steps.map().info();
    let mut marks = Marks::none(steps.alloc())?;
    for k in 0..info.given_count() {
        marks.set(info.given(k).address);
    }
    Ok(marks)
}

/// Returns where words begin that may be addresses.
pub fn words_of(ground: &Ground<'_>, survey: &Survey<'_>) -> Result<Words, AllocError> {
    let alloc = survey.steps.alloc();
    let named = named_of(survey.steps)?;
    let has_names = 0 < survey.steps.map().info().given_count();
    let (mut leading, mut near) = (Vec::new(alloc), Vec::new(alloc));
    let (from, end) = ground.span();
    let bytes = bytes_at(ground.image, from, ADDRESSES);
    for (at, bytes) in (from..end).zip(bytes.windows(2)) {
        let (&[low, high], Some(here)) = (bytes, address(at)) else {
            continue;
        };
        if !ground.is_plain(at) {
            continue;
        }
        let word = u16::from_le_bytes([low, high]);
        let to = usize::from(word);
        let is_near = word.abs_diff(here) <= FAR;
        let is_code = survey.reached.get(word) || survey.reached.get_at(to + 1);
        let is_named = has_names && named.get(word);
        // Most words are none of this.
        if !is_code && !is_named && !is_near || !ground.is_plain(at.saturating_add(1)) {
            continue;
        }
        if is_named || survey.is_routine(to) || survey.is_routine(to + 1) {
            leading.push(here)?;
        }
        if is_near {
            near.push(here)?;
        }
    }
    Ok(Words { leading, near })
}

/// Marks the words of rows that are addresses of routines, and those of rows that are such addresses less
/// one, with the words beside them that lead to any code. The first two words of a row differ. `words` has where rows
/// may begin.
pub fn mark_rows(ground: &mut Ground<'_>, survey: &Survey<'_>, words: &[u16]) {
    for &first in words {
        let at = usize::from(first);
        if word(ground.image, at) != word(ground.image, at.saturating_add(2)) {
            put_row(ground, survey, 0, at);
            put_row(ground, survey, 1, at);
        }
    }
}
