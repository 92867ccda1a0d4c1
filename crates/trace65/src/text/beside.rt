//! Comments for what stands beside what is known: words between and behind words that are addresses, and jumps behind
//! jumps; and for words of which each is zero or an address.

use crate::text::Text;
use crate::text::likely::is_meant;
use info65::{RangeSpec, RangeType};
use isa65::{Mnemonic, Mode};
use map65::is_inside;
use reach65::image::{address, byte, ends, word};
use std::alloc::AllocError;

/// How far apart the words may stand between which another one stands.
const FAR: usize = 16;

/// How many words a row has at least.
const ROW: usize = 3;

/// How many words behind a row that are the same get a comment.
const SAME: usize = 4;

/// How many bytes a jump has.
const JUMP: usize = 3;

/// How many words, jumps and stretches of words get a comment.
const TOLD: usize = 256;

/// Words that are told stand by chance in fewer than one of two to this power of places.
const CHANCE: u32 = 20;

/// How many of them are addresses that rise, at least.
const LEAST: u32 = 4;

/// How many are more than any chance.
const MOST: u32 = 32;

/// Words that stand between others: where the one before them begins, how far one is behind the other, and how many
/// such steps lead to the one behind them.
#[derive(Clone, Copy)]
struct Middle {
    from: usize,
    step: usize,
    count: usize,
}

impl Middle {
    /// Where the word begins to which so many steps lead.
    fn place(self, index: usize) -> usize {
        self.from.saturating_add(self.step.saturating_mul(index))
    }
}

/// Words of which each is zero or the address of data: where the first address begins and the last one ends, how many
/// there are, how many of them are above all before them, and the highest one.
#[derive(Clone, Copy)]
struct Words {
    first: usize,
    end: usize,
    count: usize,
    rising: u32,
    highest: u16,
}

impl Words {
    /// The first word, at the place.
    fn at(place: usize, word: u16) -> Words {
        Words {
            first: place,
            end: place.saturating_add(2),
            count: 1,
            rising: 1,
            highest: word,
        }
    }

    /// These words, and the one at the place behind them.
    fn with(self, place: usize, word: u16) -> Words {
        if word == 0 {
            return self;
        }
        Words {
            end: place.saturating_add(2),
            count: self.count.saturating_add(1),
            rising: self.rising.saturating_add(u32::from(self.highest < word)),
            highest: self.highest.max(word),
            ..self
        }
    }
}

/// How far the second of these ranges begins behind the first.
fn gap(ranges: &[RangeSpec]) -> u16 {
    match ranges {
        [one, other, ..] => other.first.saturating_sub(one.last),
        _ => 0,
    }
}

/// Whether the range has one word.
fn is_word(range: RangeSpec) -> bool {
    range.last.saturating_sub(range.first) == 1
}

/// Where words may stand between two ranges of addresses: as far apart as the words of a range, or, if both have but
/// one, one in the middle.
fn between(one: RangeSpec, other: RangeSpec) -> Option<Middle> {
    let from = usize::from(one.last).checked_sub(1)?;
    let distance = usize::from(other.first).checked_sub(from)?;
    let is_middle = is_word(one) && is_word(other);
    let (step, count) = if is_middle {
        (distance / 2, 2)
    } else {
        (2, distance / 2)
    };
    let fits = 4 <= distance && distance <= FAR && distance % 2 == 0;
    fits.then_some(Middle { from, step, count })
}

impl Text<'_> {
    /// Returns the word at the place, if nothing speaks for it and it is an address of the image.
    fn address_at(&self, place: usize) -> Option<u16> {
        let ground = &self.advice.data.ground;
        let word = ground.word(place)?;
        is_inside(ground.image, usize::from(word)).then_some(word)
    }

    /// Whether the word at the place is such an address; where others stand as far apart, one between the two words at
    /// the ends.
    fn is_beside(&self, place: usize, ends: Option<(u16, u16)>) -> bool {
        let Some(word) = self.address_at(place) else {
            return false;
        };
        match ends {
            Some((one, other)) => one.min(other) <= word && word <= one.max(other),
            None => true,
        }
    }

    /// Adds a comment for each of these words, if all are addresses. Returns how many words got one.
    fn put_between(
        &mut self,
        words: Middle,
        ends: Option<(u16, u16)>,
    ) -> Result<usize, AllocError> {
        if !(1..words.count).all(|index| self.is_beside(words.place(index), ends)) {
            return Ok(0);
        }
        for index in 1..words.count {
            let place = words.place(index);
            if let (Some(at), Some(word)) = (address(place), self.address_at(place)) {
                self.put_address(b"# the word at $", at)?;
                self.put_address(b" is $", word)?;
                self.put(b", between words that are addresses: AddrTable?\n")?;
            }
        }
        Ok(words.count.saturating_sub(1))
    }

    /// Adds a comment for each word that stands between words that are proposed as addresses, as far from one as from
    /// the other.
    pub fn put_beside(&mut self) -> Result<(), AllocError> {
        let image = self.advice.steps.image();
        let mut tables = Vec::new(self.advice.steps.alloc());
        for &range in self.ranges {
            if range.role == RangeType::AddrTable {
                tables.push(range)?;
            }
        }
        let (mut before, mut told) = (0, 0usize);
        for index in 0..tables.len() {
            let left = tables.as_slice().get(index..).unwrap_or(&[]);
            let here = gap(left);
            if let [one, other, ..] = left
                && let Some(words) = between(*one, *other)
                && told < TOLD
            {
                let is_regular = here == before || here == gap(left.get(1..).unwrap_or(&[]));
                let low = word(image, words.from).unwrap_or(0);
                let high = word(image, usize::from(other.first)).unwrap_or(0);
                let count = self.put_between(words, is_regular.then_some((low, high)))?;
                told = told.saturating_add(count);
            }
            before = here;
        }
        Ok(())
    }

    /// Adds a comment for the word right behind each row of three addresses, if it is an address of the image, or up to
    /// the end of its variables, and for those behind it that are the same.
    pub fn put_behind(&mut self) -> Result<(), AllocError> {
        let ground = &self.advice.data.ground;
        let (start, _) = ends(ground.image);
        let end = self.last_end();
        let mut told = 0usize;
        for &range in self.ranges {
            let is_row = range.role == RangeType::AddrTable
                && ROW <= usize::from(range.last.saturating_sub(range.first)) / 2 + 1;
            let place = usize::from(range.last).saturating_add(1);
            let Some(word) = ground.word(place) else {
                continue;
            };
            let is_address = (start..end.saturating_add(1)).contains(&usize::from(word));
            if !is_row || !is_address || word / 256 == word % 256 {
                continue;
            }
            let places = (place..place.saturating_add(2 * SAME)).step_by(2);
            for at in places.take_while(|at| ground.word(*at) == Some(word)) {
                if told < TOLD
                    && let Some(at) = address(at)
                {
                    told += 1;
                    self.put_address(b"# the word at $", at)?;
                    self.put_address(b" is $", word)?;
                    self.put(b", behind words that are addresses: AddrTable?\n")?;
                }
            }
        }
        Ok(())
    }

    /// Whether a reached `jmp` begins at the address.
    fn is_jump(&self, at: usize) -> bool {
        let advice = self.advice;
        address(at)
            .and_then(|at| advice.steps.marked(advice.reach.reached, at))
            .is_some_and(|placed| {
                placed.step.op.mnemonic == Mnemonic::Jmp && placed.step.op.mode == Mode::Abs
            })
    }

    /// Where the bytes at the place jump to that nothing speaks for, if they are a `jmp` to an address of the image.
    fn jump_at(&self, place: usize) -> Option<u16> {
        let ground = &self.advice.data.ground;
        if !ground.is_plain(place) || byte(ground.image, place) != Some(0x4C) {
            return None;
        }
        self.address_at(place.saturating_add(1))
    }

    /// Adds a comment for each jump in bytes that are not reached that stands right behind a reached one, or behind
    /// another such jump, but for those to routines and names, which have one.
    pub fn put_jumps(&mut self) -> Result<(), AllocError> {
        let mut told = 0usize;
        for &range in self.ranges {
            let mut at = usize::from(range.first);
            if !self.is_jump(at.saturating_sub(JUMP)) {
                continue;
            }
            for _ in range.first..range.last {
                let (Some(to), Some(first)) = (self.jump_at(at), address(at)) else {
                    break;
                };
                if told < TOLD && !is_meant(self.advice, to) {
                    told += 1;
                    self.put_address(b"# jump to $", to)?;
                    self.put_address(b" at $", first)?;
                    self.put(b", behind another one, in bytes that are not reached\n")?;
                }
                at = at.saturating_add(JUMP);
            }
        }
        Ok(())
    }

    /// Whether the word is the address of a byte that nothing speaks for, and its bytes differ.
    fn is_data(&self, word: u16) -> bool {
        word / 256 != word % 256 && self.advice.data.ground.is_plain(usize::from(word))
    }

    /// How many words in a row are addresses of such bytes by more than chance; none if too many bytes are such.
    fn least(&self) -> Option<u32> {
        let mut bytes = 0u64;
        for range in self.ranges {
            let size = u64::from(range.last.saturating_sub(range.first)).saturating_add(1);
            bytes = bytes.saturating_add(size);
        }
        let mut chance = 1u64 << CHANCE;
        for count in 0..MOST {
            if chance == 0 {
                return Some(count.max(LEAST));
            }
            chance = chance.saturating_mul(bytes) / 0x1_0000;
        }
        None
    }

    /// Adds a comment for these words, if so many rise, and some are zero, but no more than addresses.
    /// `left` is how many may still get one.
    fn put_data(&mut self, words: Words, least: u32, left: &mut usize) -> Result<(), AllocError> {
        let all = words.end.saturating_sub(words.first) / 2;
        let last = words.end.saturating_sub(2);
        if 0 < *left
            && least <= words.rising
            && words.count < all
            && all <= words.count.saturating_mul(2)
            && let (Some(first), Some(last)) = (address(words.first), address(last))
        {
            *left -= 1;
            self.put_address(b"# each word from $", first)?;
            self.put_address(b" to $", last)?;
            self.put(b" is zero or the address of data: AddrTable?\n")?;
        }
        Ok(())
    }

    /// Adds a comment for each stretch of words of this range of which each is zero or the address of data.
    /// `left` is how many may still get one.
    fn put_stretches(
        &mut self,
        range: RangeSpec,
        least: u32,
        left: &mut usize,
    ) -> Result<(), AllocError> {
        // Words that begin at even places from the first byte on, and at odd ones, in turn.
        let (mut words, mut others): (Option<Words>, Option<Words>) = (None, None);
        let places = usize::from(range.first)..usize::from(range.last);
        for (place, pair) in places.zip(self.bytes(range).windows(2)) {
            let &[low, high] = pair else {
                continue;
            };
            let word = u16::from_le_bytes([low, high]);
            let goes_on = word == 0 || self.is_data(word);
            let now = match words {
                Some(found) if goes_on => Some(found.with(place, word)),
                Some(found) => {
                    self.put_data(found, least, left)?;
                    None
                }
                None if goes_on && word != 0 => Some(Words::at(place, word)),
                None => None,
            };
            (words, others) = (others, now);
        }
        for found in [words, others] {
            if let Some(found) = found {
                self.put_data(found, least, left)?;
            }
        }
        Ok(())
    }

    /// Adds a comment for each stretch of words in bytes of which each is zero or the address of other such bytes, if
    /// so many of them rise that chance has no part in it.
    pub fn put_zeros(&mut self) -> Result<(), AllocError> {
        let Some(least) = self.least() else {
            return Ok(());
        };
        let mut left = TOLD;
        for &range in self.ranges {
            let count = range.last.saturating_sub(range.first) / 2;
            if range.role == RangeType::ByteTable
                && least <= u32::from(count)
                && self.advice.data.ground.is_plain(usize::from(range.first))
            {
                self.put_stretches(range, least, &mut left)?;
            }
        }
        Ok(())
    }
}
