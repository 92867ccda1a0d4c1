//! Rows of words that are addresses of texts, and the words beside them in the same records.

ghost use Rattle.std.specs.Prelude.{◌<◌};

use crate::ground::Ground;
use crate::survey::Survey;
use entries65::pairs::Pair;
use entries65::texts::ALPHABETS;
use map65::{ADDRESSES, Image, Marks};
use reach65::image::{address, byte, byte_before, bytes_at, ends, word};
use std::alloc::{AllocError, Global};

/// How many words a row has at least.
const ROW: usize = 3;

/// How far apart the words of a row may stand at most: other bytes of a record may stand between them.
const APART: usize = 8;

/// How far apart they may stand at most if some lead into texts.
const CLOSE: usize = 4;

/// How many characters of a text are looked at.
const LOOKED: usize = 16;

/// How many are looked at before and behind a place inside of a text.
const AROUND: usize = 64;

/// Whether a text begins at the address with this byte: it is one up to the 16th character, and no character stands
/// before it.
fn begins_text(image: &Image, at: usize, before: u8, here: u8) -> bool {
    for alphabet in ALPHABETS {
        if alphabet.is_char(here)
            && !alphabet.is_char(before)
            && 0 < alphabet.text_len(bytes_at(image, at, LOOKED))
        {
            return true;
        }
    }
    false
}

/// Whether the byte is a letter of ASCII.
fn is_letter(byte: u8) -> bool {
    matches!(byte, 0x41..=0x5A | 0x61..=0x7A)
}

/// Whether a text of any length may begin with this byte: a character, right behind a zero byte; or a letter, right
/// behind the marked last letter of another text, which has a letter before it.
fn begins_any(here: u8, before: u8, second: u8) -> bool {
    if before == 0 {
        return matches!(here & 0x7F, 0x20..=0x7E);
    }
    0x80 <= before && is_letter(before & 0x7F) && is_letter(second) && is_letter(here & 0x7F)
}

/// Where texts begin.
#[derive(Drop)]
struct Beginnings {
    /// Those of five characters or more.
    texts: Marks,
    /// These, and those behind the end of another one, of any length.
    any: Marks,
    /// Whether there are any.
    has_any: bool,
    /// The addresses of pairs.
    named: Marks,
}

/// Marks where texts begin.
fn text_beginnings(
    alloc: Global,
    ground: &Ground<'_>,
    pairs: &[Pair],
) -> Result<Beginnings, AllocError> {
    let mut found = Beginnings {
        texts: Marks::none(alloc)?,
        any: Marks::none(alloc)?,
        has_any: false,
        named: Marks::none(alloc)?,
    };
    for pair in pairs {
        found.named.set(pair.address);
    }
    let (start, _) = ends(ground.image);
    let (from, end) = ground.span();
    // No alphabet has a byte 0.
    let (mut before, mut second) = (
        byte_before(ground.image, from, 1),
        byte_before(ground.image, from, 2),
    );
    for (at, &here) in (from..end).zip(bytes_at(ground.image, from, ADDRESSES)) {
        if ground.is_plain(at)
            && let Some(address) = address(at)
        {
            if here != before && begins_text(ground.image, at, before, here) {
                found.texts.set(address);
                found.any.set(address);
                found.has_any = true;
            }
            if begins_any(here, before, second) && start < at {
                found.any.set(address);
                found.has_any = true;
            }
        }
        (before, second) = (here, before);
    }
    Ok(found)
}

/// The word at the address, if it is where a text begins that nothing speaks for.
fn leading(ground: &Ground<'_>, texts: &Marks, at: usize) -> Option<u16> {
    let word = ground.known_word(at)?;
    (texts.get(word) && ground.is_plain(usize::from(word))).then_some(word)
}

/// Where the words of a row may stand: at this distance from each other, from an address to before another one.
#[derive(Clone, Copy)]
struct Places {
    from: usize,
    end: usize,
    apart: usize,
}

/// How many words stand there that are where texts begin, each of another text than the one before.
fn count_apart(ground: &Ground<'_>, texts: &Marks, places: Places) -> usize
    requires { 0 < places.apart }
{
    let mut before = None;
    let mut count = 0usize;
    for at in (places.from..places.end).step_by(places.apart) {
        let word = leading(ground, texts, at);
        if word.is_none() || word == before {
            break;
        }
        before = word;
        count = count.saturating_add(1);
    }
    count
}

/// Clears the marks of that many words that stand there.
fn forget(seen: &mut Marks, image: &Image, places: Places, count: usize)
    requires { 0 < places.apart }
{
    for at in (places.from..places.end).step_by(places.apart).take(count) {
        if let Some(word) = word(image, at) {
            seen.clear(word);
        }
    }
}

/// As `count_apart`, for words that all differ. `seen` has none of them before and after.
fn count_different(ground: &Ground<'_>, texts: &Marks, seen: &mut Marks, places: Places) -> usize
    requires { 0 < places.apart }
{
    let mut count = 0usize;
    for at in (places.from..places.end).step_by(places.apart) {
        match leading(ground, texts, at) {
            Some(word) if !seen.get(word) => seen.set(word),
            _ => break,
        }
        count = count.saturating_add(1);
    }
    forget(seen, ground.image, places, count);
    count
}

/// Whether a character of ASCII stands at the address that nothing speaks for.
fn is_char_at(ground: &Ground<'_>, at: usize) -> bool {
    ground.is_plain(at) && matches!(byte(ground.image, at), Some(0x20..=0x7E))
}

/// Whether a text begins before the address, with characters of ASCII from there on.
fn begins_before(ground: &Ground<'_>, texts: &Marks, first: usize) -> bool {
    for at in (first.saturating_sub(AROUND)..first).rev() {
        if !is_char_at(ground, at) {
            return false;
        }
        if texts.get_at(at) {
            return true;
        }
    }
    false
}

/// Where the characters of ASCII end that stand from the address on.
fn text_end(ground: &Ground<'_>, first: usize) -> usize {
    let last = first.saturating_add(AROUND);
    for end in first..last {
        if !is_char_at(ground, end) {
            return end;
        }
    }
    last
}

/// The word at the address, if it leads into a text behind its first character: characters of ASCII stand from where a
/// text begins up to a zero byte.
fn leading_inside(ground: &Ground<'_>, texts: &Marks, at: usize) -> Option<u16> {
    let word = ground.known_word(at)?;
    let first = usize::from(word);
    let end = text_end(ground, first);
    let is_text = first < end && byte(ground.image, end) == Some(0);
    (is_text && begins_before(ground, texts, first)).then_some(word)
}

/// As `count_different`, but that a third of the words may lead into texts.
fn count_mixed(ground: &Ground<'_>, texts: &Marks, seen: &mut Marks, places: Places) -> usize
    requires { 0 < places.apart }
{
    let (mut count, mut inside) = (0usize, 0usize);
    for at in (places.from..places.end).step_by(places.apart) {
        let mut word = leading(ground, texts, at);
        if word.is_none() {
            word = leading_inside(ground, texts, at);
            inside = inside.saturating_add(usize::from(word.is_some()));
        }
        match word {
            Some(word) if !seen.get(word) => seen.set(word),
            _ => break,
        }
        count = count.saturating_add(1);
    }
    forget(seen, ground.image, places, count);
    if inside.saturating_mul(3) <= count {
        count
    } else {
        0
    }
}

/// Words at the same distance from each other: where the first one stands, how far apart they are, and how many.
#[derive(Clone, Copy)]
struct Row {
    from: usize,
    apart: usize,
    count: usize,
}

impl Row {
    /// How far the address lies behind the begin of its record, if it lies in one of the row or in one before it.
    fn offset_of(&self, address: u16) -> Option<usize>
        requires { 0 < self.now.apart }
    {
        let first = self.from.saturating_sub(self.apart);
        let end = self
            .from
            .saturating_add(self.apart.saturating_mul(self.count));
        let at = usize::from(address);
        if first < at && at < end {
            Some((at - first) % self.apart)
        } else {
            None
        }
    }

    /// Whether the words at this place of the records, but for zeros, are all addresses of records, at one place of
    /// them, or all of routines, and two of them differ.
    fn has_column(&self, ground: &Ground<'_>, survey: &Survey<'_>, first: usize) -> bool
        requires { 0 < self.now.apart }
    {
        let (mut one, mut offset) = (0u16, None);
        let (mut differ, mut records, mut routines) = (false, true, true);
        for index in 0..self.count {
            let at = first.saturating_add(index.saturating_mul(self.apart));
            let Some(word) = ground.known_word(at) else {
                return false;
            };
            if word == 0 {
                continue;
            }
            let here = self.offset_of(word);
            if one == 0 {
                (one, offset) = (word, here);
            }
            differ = differ || word != one;
            records = records && here.is_some() && here == offset;
            routines = routines && survey.is_routine(usize::from(word));
        }
        differ && (records || routines)
    }

    /// Marks the words at this place of the records, if they are a column of addresses. The last record may be another
    /// one.
    fn put_column(&self, ground: &mut Ground<'_>, survey: &Survey<'_>, first: usize)
        requires { 0 < self.now.apart }
    {
        for count in [self.count, self.count.saturating_sub(1)] {
            let row = Row {
                from: self.from,
                apart: self.apart,
                count,
            };
            if count < ROW || !row.has_column(ground, survey, first) {
                continue;
            }
            for index in 0..count {
                let at = first.saturating_add(index.saturating_mul(self.apart));
                if !matches!(ground.word(at), None | Some(0)) {
                    ground.put_words(0, at, at.saturating_add(2));
                }
            }
            break;
        }
    }

    /// Marks the columns of addresses before and behind these words in the same records.
    fn put_columns(&self, ground: &mut Ground<'_>, survey: &Survey<'_>)
        requires { 0 < self.now.apart }
    {
        for distance in 2..self.apart.saturating_sub(1) {
            self.put_column(ground, survey, self.from.saturating_add(distance));
            self.put_column(ground, survey, self.from.saturating_sub(distance));
        }
    }
}

/// Marks the words of a row, and the columns of addresses beside them.
fn put_row(ground: &mut Ground<'_>, survey: &Survey<'_>, rows: &mut Marks, row: Row)
    requires { 0 < row.apart }
{
    for index in 0..row.count {
        let at = row.from.saturating_add(index.saturating_mul(row.apart));
        ground.put_words(0, at, at.saturating_add(2));
        rows.set_span(at, at.saturating_add(1));
    }
    row.put_columns(ground, survey);
}

/// How many words a row has that stands there. The first one leads to a text.
fn row_count(ground: &Ground<'_>, found: &Beginnings, seen: &mut Marks, places: Places) -> usize
    requires { 0 < places.apart }
{
    let next = places.from.saturating_add(places.apart);
    let mut count = 0;
    if leading(ground, &found.texts, next).is_some() {
        count = count_apart(ground, &found.texts, places);
    }
    let begins = leading(ground, &found.any, next).is_some();
    if count < ROW && begins {
        count = count_different(ground, &found.any, seen, places);
    }
    if found.named.get_at(places.from)
        && places.apart <= CLOSE
        && (begins || leading_inside(ground, &found.any, next).is_some())
    {
        count = count.max(count_mixed(ground, &found.any, seen, places));
    }
    count
}

/// Marks the words that are where texts begin, in rows of three at least that stand at the same distance from each
/// other, each of another text than the one before; or, if a text has fewer than five characters, all of other texts.
/// If a pair has the address of the first of them, and they stand at most four bytes apart, up to a third of them may
/// lead into texts that end with a zero byte, as the last characters of other texts. In the records of such a row the
/// words of another column are addresses too if, but for zeros, all are those of records of the row, or all those of
/// routines.
pub fn mark_pointers(
    ground: &mut Ground<'_>,
    survey: &Survey<'_>,
    pairs: &[Pair],
) -> Result<(), AllocError> {
    let alloc = survey.steps.alloc();
    let (_, end) = ends(ground.image);
    let (first, last) = ground.span();
    let beginnings = text_beginnings(alloc, ground, pairs)?;
    if !beginnings.has_any {
        return Ok(());
    }
    let (mut seen, mut rows) = (Marks::none(alloc)?, Marks::none(alloc)?);
    let image = ground.image;
    for (from, bytes) in (first..last).zip(bytes_at(image, first, ADDRESSES).windows(2)) {
        let &[low, high] = bytes else {
            continue;
        };
        // Most words lead to no text.
        let begins = beginnings.any.get(u16::from_le_bytes([low, high]));
        if !begins || rows.get_at(from) || ground.known_word(from).is_none() {
            continue;
        }
        for apart in 2..=APART {
            let places = Places { from, end, apart };
            let count = row_count(ground, &beginnings, &mut seen, places);
            if ROW <= count {
                put_row(ground, survey, &mut rows, Row { from, apart, count });
                break;
            }
        }
    }
    Ok(())
}
