//! Comments for words in data that are likely addresses, also the first ones of data whose address code has in halves,
//! and for operands that are likely counted from a table behind them.

use crate::advice::Advice;
use crate::text::Text;
use map65::is_inside;
use reach65::image::{byte, word};
use std::alloc::AllocError;

/// Returns whether the address is that of a routine, or that of a name, in the image.
pub fn is_meant(advice: &Advice<'_>, address: u16) -> bool {
    let map = advice.steps.map();
    let at = usize::from(address);
    let name = map.info().covering(address);
    let named = name.is_some_and(|name| name.address == address && is_inside(map.image(), at));
    named || advice.survey.is_routine(at)
}

impl Text<'_> {
    /// Adds a comment instead, if the word is the operand of a call or a jump in bytes that are
    /// not reached. Returns whether it is.
    fn put_call(&mut self, at: u16, word: u16) -> Result<bool, AllocError> {
        let before = at.saturating_sub(1);
        let ground = &self.advice.data.ground;
        if !ground.is_plain(usize::from(before)) {
            return Ok(false);
        }
        match byte(ground.image, usize::from(before)) {
            Some(0x20) => self.put_address(b"# call of $", word)?,
            Some(0x4C) => self.put_address(b"# jump to $", word)?,
            _ => return Ok(false),
        }
        self.put_name(word)?;
        self.put_address(b" at $", before)?;
        self.put(b", in bytes that are not reached\n")?;
        Ok(true)
    }

    /// Adds a comment for each word that is likely an address: nothing speaks for its bytes, they
    /// differ, and no row of words has them.
    pub fn put_words(&mut self) -> Result<(), AllocError> {
        let advice = self.advice;
        let image = advice.steps.image();
        for &at in &advice.data.words {
            if word(image, usize::from(at)).is_some_and(|word| word / 256 != word % 256)
                && let Some(word) = advice.data.ground.word(usize::from(at))
                && is_meant(advice, word)
                && !self.put_call(at, word)?
            {
                self.put_address(b"# the word at $", at)?;
                self.put_address(b" is $", word)?;
                self.put_name(word)?;
                self.put(b": AddrTable?\n")?;
            }
        }
        Ok(())
    }

    /// Adds a comment for the first word of data whose address is that of a pair, if it is where other data begins:
    /// that is an operand or the address of a pair, or stands right behind a zero byte.
    pub fn put_firsts(&mut self) -> Result<(), AllocError> {
        let advice = self.advice;
        let ground = &advice.data.ground;
        let mut firsts = Vec::new(advice.steps.alloc());
        for pair in &advice.addresses.pairs {
            firsts.push((pair.address, pair.low.min(pair.high).saturating_sub(1)))?;
        }
        firsts.sort()?;
        firsts.dedup_by_key(|first| first.0);
        for &(at, reader) in &firsts {
            let Some(word) = ground.word(usize::from(at)) else {
                continue;
            };
            let is_first = firsts.binary_search_by_key(&word, |first| first.0).is_ok()
                || advice.survey.operands.get(word)
                || byte(ground.image, usize::from(word).saturating_sub(1)) == Some(0);
            if is_first && ground.is_plain(usize::from(word)) && !is_meant(advice, word) {
                self.put_address(b"# the word at $", at)?;
                self.put_address(b" is $", word)?;
                self.put_address(b", the first of the data that $", reader)?;
                self.put(b" loads: AddrTable?\n")?;
            }
        }
        Ok(())
    }

    /// Adds a comment for each word that is copied to a pointer.
    pub fn put_cells(&mut self) -> Result<(), AllocError> {
        for cell in &self.advice.data.cells {
            self.put_address(b"# the word at $", cell.place)?;
            self.put_address(b" is $", cell.address)?;
            self.put_address(b", which $", cell.reader)?;
            self.put_address(b" copies to the pointer $", cell.pointer)?;
            self.put(b": AddrTable?\n")?;
        }
        Ok(())
    }

    /// Adds a comment for each operand that is likely counted from a table behind it.
    pub fn put_bases(&mut self) -> Result<(), AllocError> {
        for base in &self.advice.bases {
            self.put_address(b"# the operand $", base.operand)?;
            self.put_address(b" at $", base.reader)?;
            self.put_address(b" lies in code: BASE { ADDR $", base.reader)?;
            self.put_address(b"; FROM $", base.table)?;
            self.put(b"; }?\n")?;
        }
        Ok(())
    }
}
