//! The addresses of an image that nothing speaks for, and the words among them that are addresses.

ghost use Rattle.std.specs.Prelude.{◌≤◌};

use crate::survey::Survey;
use entries65::starts::has_vectors;
use map65::{ADDRESSES, Image, Marks, is_inside};
use reach65::image::{ends, word};
use std::alloc::AllocError;

/// An image, and marks of its addresses.
#[derive(Drop)]
pub struct Ground<'i> {
    pub image: &'i Image,
    /// A range of the information file or a reached instruction has it.
    pub taken: &'i Marks,
    /// A word that is an address has it.
    pub words: Marks,
    /// A word that is an address less one has it.
    pub returns: Marks,
    /// A text begins there that is known: it ends with a zero byte.
    pub texts: Marks,
    /// It is one half of an address in a table of halves.
    pub numbers: Marks,
    /// It is in the image, and none of these has it, but a text may.
    plain: Marks,
    /// The first address that was so or that a word has, and the one behind the last.
    span: (usize, usize),
}

/// Clears the marks of the addresses from one to before another.
fn clear_span(marks: &mut Marks, from: usize, to: usize) {
    for at in from..to.min(ADDRESSES) {
        marks.clear(at as u16);
    }
}

impl<'i> Ground<'i> {
    /// Returns the image of reached code, without words, of which these bytes are halves of addresses.
    pub fn of(
        survey: &Survey<'i>,
        taken: &'i Marks,
        numbers: Marks,
    ) -> Result<Ground<'i>, AllocError> {
        let (alloc, image) = (survey.steps.alloc(), survey.steps.image());
        let texts = survey.texts.copy(alloc)?;
        let mut plain = Marks::none(alloc)?;
        let (start, end) = ends(image);
        let (mut first, mut last) = (None, start);
        for at in start..end {
            let address = at as u16;
            if !taken.get(address) && !numbers.get(address) {
                plain.set(address);
                if first.is_none() {
                    first = Some(at);
                }
                last = at;
            }
        }
        let span = match first {
            Some(first) => (first, last.saturating_add(1)),
            None => (end, end),
        };
        Ok(Ground {
            image,
            taken,
            words: Marks::none(alloc)?,
            returns: Marks::none(alloc)?,
            texts,
            numbers,
            plain,
            span,
        })
    }

    /// Returns the first address that was plain at first or that a word has, and the one behind the last.
    pub fn span(&self) -> (usize, usize)
        ensures { result.1 ≤ 65536 }
    {
        let (from, to) = self.span;
        (from, to.min(ADDRESSES))
    }

    /// Marks the addresses from one to before another as those of words that are addresses, or addresses less one.
    pub fn put_words(&mut self, less: u16, from: usize, to: usize) {
        self.span = (self.span.0.min(from), self.span.1.max(to));
        if less == 0 {
            self.words.set_span(from, to);
        } else {
            self.returns.set_span(from, to);
        }
        clear_span(&mut self.plain, from, to);
    }

    /// Marks the word at the address, if it is an address of the image and nothing speaks for it.
    pub fn put_word(&mut self, at: usize) {
        if let Some(word) = self.word(at)
            && is_inside(self.image, usize::from(word))
        {
            self.put_words(0, at, at.saturating_add(2));
        }
    }

    /// Marks the addresses from one to before another as halves of addresses.
    pub fn put_numbers(&mut self, from: usize, to: usize) {
        self.numbers.set_span(from, to);
        clear_span(&mut self.plain, from, to);
    }

    /// Returns whether the address, which may lie past $FFFF, is one of the image that nothing speaks for.
    pub fn is_free(&self, at: usize) -> bool {
        is_inside(self.image, at) && !self.taken.get_at(at)
    }

    /// Returns whether it is such an address, of no word and no half.
    pub fn is_plain(&self, at: usize) -> bool {
        self.plain.get_at(at)
    }

    /// Returns the word at the address, low byte first, if both bytes are plain.
    pub fn word(&self, at: usize) -> Option<u16> {
        if !self.is_plain(at) || !self.is_plain(at.checked_add(1)?) {
            return None;
        }
        word(self.image, at)
    }

    /// Returns the word at the address, if its bytes are plain or those of a word that is an address.
    pub fn known_word(&self, at: usize) -> Option<u16> {
        if self.is_plain(at) {
            return self.word(at);
        }
        let is_known = self.words.get_at(at) && self.words.get_at(at.saturating_add(1));
        if is_known { word(self.image, at) } else { None }
    }

    /// Marks the bytes of the vectors of the CPU at $FFFA to $FFFF that led to code: nothing speaks for them, and a
    /// reached instruction begins at the word.
    pub fn put_vectors(&mut self, reached: &Marks) {
        for vector in [0xFFFAusize, 0xFFFC, 0xFFFE] {
            if has_vectors(self.image)
                && let Some(to) = word(self.image, vector)
                && self.is_free(vector)
                && self.is_free(vector + 1)
                && reached.get(to)
            {
                self.put_words(0, vector, vector + 2);
            }
        }
    }
}
