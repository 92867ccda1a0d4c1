//! Words behind texts, one record behind the other, as names of commands with the routines that do them.

use crate::growth::IN_TABLE;
use crate::search::Search;
use crate::words::{DataWords, ROW, begins_code};
use map65::{Image, Marks};
use reach65::image::{address, byte, ends};
use std::alloc::AllocError;

/// How many characters a name has at most.
const NAME: usize = 16;

/// The address behind a name at the address: characters up to a zero byte, or up to one with the high bit.
fn name_end(image: &Image, from: usize) -> Option<usize> {
    for at in from..from.saturating_add(NAME) {
        match byte(image, at)? {
            0x20..=0x7E => {}
            0 if from < at => return Some(at.saturating_add(1)),
            0xA0..=0xFE => return Some(at.saturating_add(1)),
            _ => return None,
        }
    }
    None
}

impl Search<'_> {
    /// The places of the words behind names, from this one on: each leads to code, to other code than the one before.
    fn named_words(
        &mut self,
        words: &DataWords<'_>,
        from: usize,
    ) -> Result<Vec<(u16, u16)>, AllocError> {
        let image = self.steps.image();
        let (_, end) = ends(image);
        let mut found: Vec<(u16, u16)> = Vec::new(self.steps.alloc());
        let mut place = from;
        for _ in from..end {
            let Some(to) = words.target(self, 0, place) else {
                break;
            };
            if matches!(found.last(), Some(last) if last.1 == to) || !begins_code(self, 0, to)? {
                break;
            }
            if let Some(at) = address(place) {
                found.push((at, to))?;
            }
            match name_end(image, place.saturating_add(2)) {
                Some(next) => place = next,
                None => break,
            }
        }
        Ok(found)
    }

    /// Lets the code join to which words behind names lead, three at least, one record behind the other.
    pub fn join_named(&mut self, words: &DataWords<'_>) -> Result<(), AllocError> {
        if words.named.is_empty() {
            return Ok(());
        }
        let mut seen = Marks::none(self.steps.alloc())?;
        for &from in &words.named {
            if seen.get(from) {
                continue;
            }
            let found = self.named_words(words, usize::from(from))?;
            for &(at, to) in &found {
                seen.set(at);
                if ROW <= found.len() && self.has(to, IN_TABLE)? {
                    self.words.push(at)?;
                }
            }
        }
        Ok(())
    }
}
