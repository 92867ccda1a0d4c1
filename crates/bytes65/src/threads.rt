//! Words of threaded code, as of Forth: each is the address of a word that is the address of reached code.

use crate::ground::Ground;
use crate::survey::Survey;
use entries65::pairs::Pair;
use entries65::words::ROW;
use map65::Marks;
use reach65::image::ends;
use std::alloc::AllocError;

/// How many words lead on at least in a thread whose address code has.
const NAMED: usize = 2;

/// Whether the word of data at the address leads to reached code.
fn is_field(ground: &Ground<'_>, survey: &Survey<'_>, at: usize) -> bool {
    matches!(ground.known_word(at), Some(to) if survey.reached.get(to) && survey.code.get(to))
}

/// The word of data to which the word at the address leads, if that leads to reached code.
fn field_of(ground: &Ground<'_>, survey: &Survey<'_>, at: usize) -> Option<usize> {
    let field = usize::from(ground.word(at)?);
    is_field(ground, survey, field).then_some(field)
}

/// How many words stand one behind the other from an address on, and how many of them lead to fields.
#[derive(Clone, Copy)]
struct Thread {
    from: usize,
    len: usize,
    count: usize,
}

impl Thread {
    /// The thread that begins at the address: words that lead to fields, and, if `has_numbers`, single other words
    /// between them.
    fn at(
        ground: &Ground<'_>,
        survey: &Survey<'_>,
        (from, end): (usize, usize),
        has_numbers: bool,
    ) -> Thread {
        let (mut len, mut count) = (0usize, 0usize);
        let mut was_number = true;
        for at in (from..end).step_by(2) {
            if field_of(ground, survey, at).is_some() {
                count = count.saturating_add(1);
                was_number = false;
            } else if was_number || !has_numbers || ground.word(at).is_none() {
                break;
            } else {
                was_number = true;
            }
            len = len.saturating_add(1);
        }
        // The last one may be a number only if what follows it leads on.
        let len = len.saturating_sub(usize::from(was_number && 0 < len));
        Thread { from, len, count }
    }

    /// Where it ends.
    fn end(&self) -> usize {
        self.from.saturating_add(self.len.saturating_mul(2))
    }

    /// Whether the word, which leads to no field, leads to a word of the thread or its end, or to a word that is known.
    fn has_target(&self, ground: &Ground<'_>, word: u16) -> bool {
        let to = usize::from(word);
        let is_inside = self.from <= to && to <= self.end();
        is_inside && (to - self.from) % 2 == 0
            || ground.words.get_at(to) && ground.words.get_at(to.saturating_add(1))
    }

    /// Marks its words that lead to fields, these fields, and the words that lead into it.
    fn put(&self, ground: &mut Ground<'_>, survey: &Survey<'_>) {
        for at in (self.from..self.end()).step_by(2) {
            if let Some(field) = field_of(ground, survey, at) {
                ground.put_words(0, field, field.saturating_add(2));
                ground.put_words(0, at, at.saturating_add(2));
            }
        }
        for at in (self.from..self.end()).step_by(2) {
            if let Some(word) = ground.word(at)
                && self.has_target(ground, word)
            {
                ground.put_words(0, at, at.saturating_add(2));
            }
        }
    }
}

/// Marks the words of threads, and the words to which they lead. A thread begins right behind a word of data that leads
/// to reached code, and has three words at least that lead to such words; or it begins at the address of a pair, and
/// has two at least. Between them single numbers may stand, and addresses of its own words. Rows of three at least,
/// without numbers, are threads wherever they stand.
pub fn mark_threads(
    ground: &mut Ground<'_>,
    survey: &Survey<'_>,
    pairs: &[Pair],
) -> Result<(), AllocError> {
    let mut named = Marks::none(survey.steps.alloc())?;
    for pair in pairs {
        named.set(pair.address);
    }
    let (start, end) = ends(ground.image);
    for begins in [true, false] {
        for from in start..end {
            if field_of(ground, survey, from).is_none() {
                continue;
            }
            let is_named = named.get_at(from);
            let is_behind = is_field(ground, survey, from.saturating_sub(2));
            if begins && !is_named && !is_behind {
                continue;
            }
            let thread = Thread::at(ground, survey, (from, end), begins);
            let least = if begins && is_named { NAMED } else { ROW };
            if least <= thread.count {
                thread.put(ground, survey);
                if begins && is_behind {
                    let field = from.saturating_sub(2);
                    ground.put_words(0, field, from);
                }
            }
        }
    }
    Ok(())
}
