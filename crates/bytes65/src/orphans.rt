//! Routines to which nothing leads but a word of data, which no text has.

use crate::ground::Ground;
use crate::survey::Survey;
use entries65::pairs::Pair;
use entries65::texts::Alphabet;
use map65::Marks;
use reach65::image::{address, byte, bytes_at, word};
use std::alloc::AllocError;

/// How many characters before and behind a word are looked at.
const LOOKED: usize = 16;

/// How many characters a text has that is rather one than words: the high bytes of addresses are often characters.
const TEXT: usize = 10;

/// Marks the address, and the one after it.
fn set_two(marks: &mut Marks, address: u16) {
    marks.set_span(usize::from(address), usize::from(address) + 2);
}

/// The addresses to which an operand, a half, or a word of a row refers.
fn referred(ground: &Ground<'_>, survey: &Survey<'_>, pairs: &[Pair]) -> Result<Marks, AllocError> {
    let mut marks = survey.operands.copy(survey.steps.alloc())?;
    for pair in pairs {
        set_two(&mut marks, pair.address);
    }
    let (from, end) = ground.span();
    for at in from..end {
        if (ground.words.get_at(at) || ground.returns.get_at(at))
            && let Some(word) = word(ground.image, at)
        {
            set_two(&mut marks, word);
        }
    }
    Ok(marks)
}

/// Whether a routine begins at the address to which no code leads.
fn is_unled(survey: &Survey<'_>, address: u16) -> bool {
    survey.reached.get(address)
        && survey.code.get(address)
        && !survey.gone_on.get(address)
        && !survey.goals.get(address)
}

/// Whether a text of this alphabet, of ten characters at least, has both bytes at the address.
fn has_text(ground: &Ground<'_>, alphabet: Alphabet, at: usize) -> bool {
    let mut first = at;
    for _ in 0..LOOKED {
        let before = first.saturating_sub(1);
        if !ground.is_plain(before)
            || !matches!(byte(ground.image, before), Some(it) if alphabet.is_char(it))
        {
            break;
        }
        first = before;
    }
    let len = alphabet.text_len(bytes_at(ground.image, first, 2 * LOOKED));
    TEXT <= len && at.saturating_add(1) < first.saturating_add(len)
}

/// Whether a text of ASCII or PETSCII has both bytes at the address, and they are not behind the opcode of a call or a
/// jump.
fn is_in_text(ground: &Ground<'_>, at: usize) -> bool {
    let is_operand = matches!(byte(ground.image, at.saturating_sub(1)), Some(0x20 | 0x4C));
    !is_operand
        && (has_text(ground, Alphabet::Ascii, at) || has_text(ground, Alphabet::Petscii, at))
}

/// The routines to which no code leads but words of data, two at most for each, with where these begin, in order.
fn unled_words(
    ground: &Ground<'_>,
    survey: &Survey<'_>,
    words: &[u16],
) -> Result<Vec<(u16, usize)>, AllocError> {
    let (start, alloc) = (ground.image.start(), survey.steps.alloc());
    let mut found = Vec::new(alloc);
    if words.is_empty() {
        return Ok(found);
    }
    let (mut once, mut twice, mut often) = (
        Marks::none(alloc)?,
        Marks::none(alloc)?,
        Marks::none(alloc)?,
    );
    for &first in words {
        let at = usize::from(first);
        if let Some(word) = ground.word(at)
            && word != start
            && !often.get(word)
            && is_unled(survey, word)
        {
            if twice.get(word) {
                often.set(word);
                continue;
            }
            if once.get(word) {
                twice.set(word);
            }
            once.set(word);
            found.push((word, at))?;
        }
    }
    found.retain(|(word, _)| !often.get(*word));
    found.sort()?;
    Ok(found)
}

/// Marks the words of data that are the address of a reached routine to which nothing else refers, where two words at
/// most are it, and no text has them. Returns where they begin, in order. `words` has where such words may begin.
pub fn mark_orphans(
    ground: &mut Ground<'_>,
    survey: &Survey<'_>,
    pairs: &[Pair],
    words: &[u16],
) -> Result<Vec<u16>, AllocError> {
    let found = unled_words(ground, survey, words)?;
    let mut marked = Vec::new(survey.steps.alloc());
    if found.is_empty() {
        return Ok(marked);
    }
    let referred = referred(ground, survey, pairs)?;
    for &(word, at) in &found {
        if let Some(first) = address(at)
            && !referred.get(word)
            && ground.word(at).is_some()
            && !is_in_text(ground, at)
        {
            ground.put_words(0, at, at.saturating_add(2));
            marked.push(first)?;
        }
    }
    marked.sort()?;
    Ok(marked)
}
