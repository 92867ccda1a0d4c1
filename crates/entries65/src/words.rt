//! Words that stand in rows and lead to code.

use crate::Steps;
use crate::growth::{Candidate, IN_TABLE};
use crate::search::{Least, Search};
use crate::sound::is_passed;
use isa65::Mnemonic;
use map65::{ADDRESSES, Image, Marks};
use reach65::image::{address, ends, given, word};
use reach65::is_last;
use std::alloc::AllocError;

/// How many words a row has at least.
pub const ROW: usize = 3;

/// Marks of what the ranges of the information file have, and of where code may begin.
#[derive(Drop)]
pub struct DataWords<'i> {
    image: &'i Image,
    given: Marks,
    hopeful: Marks,
    /// Where two words begin that may lead to code.
    worth: Vec<u16>,
    /// Where a word begins right behind which the code may begin that it leads to.
    fields: Vec<u16>,
    /// Where one begins behind what may be a name.
    pub named: Vec<u16>,
}

/// Whether the bytes are two words that differ, and both may lead to code, themselves or as one less.
fn is_worth(hopeful: &Marks, bytes: &[u8]) -> bool {
    let &[low, high, second_low, second_high] = bytes else {
        return false;
    };
    let one = usize::from(u16::from_le_bytes([low, high]));
    let two = usize::from(u16::from_le_bytes([second_low, second_high]));
    one != two
        && (hopeful.get_at(one) && hopeful.get_at(two)
            || hopeful.get_at(one + 1) && hopeful.get_at(two + 1))
}

/// Whether the two bytes before a word are the end of a name, which is a zero byte or has the high bit.
fn is_behind_name(second: u8, before: u8) -> bool {
    (before == 0 || 0xA0 <= before) && matches!(second, 0x20..=0x7E)
}

/// Whether code may go on at a later address, if there is one: an earlier one is not known yet. Without ranges no byte
/// is passed over.
fn is_hopeful_after(steps: &Steps<'_>, marks: &Marks, address: u16, later: Option<u16>) -> bool {
    let Some(later) = later else {
        return true;
    };
    later <= address
        || marks.get(later)
        || !steps.map().info().ranges().is_empty() && is_passed(steps, later)
}

/// Whether code may begin with an instruction of the address.
fn is_hopeful(steps: &Steps<'_>, marks: &Marks, address: u16) -> bool {
    let Some(step) = steps.at(address) else {
        return false;
    };
    step.op.mnemonic != Mnemonic::Brk
        && (step.next.is_some() || is_last(step.op.mnemonic))
        && is_hopeful_after(steps, marks, address, step.next)
        && is_hopeful_after(steps, marks, address, step.goal)
}

/// Whether a reached instruction right before the address goes on to it.
fn is_gone_on(search: &Search<'_>, address: u16) -> bool {
    for distance in [1u16, 2, 3] {
        let before = address.saturating_sub(distance);
        let placed = search.steps.marked(&search.marks, before);
        if matches!(placed, Some(placed) if placed.step.next == Some(address)) {
            return true;
        }
    }
    false
}

/// Whether a reached instruction begins at the address. For a word that is one less, none
/// right before it goes on to it, either.
fn is_entered(search: &Search<'_>, less: u16, address: u16) -> bool {
    search.steps.at(address).is_some() && (less == 0 || !is_gone_on(search, address))
}

/// Returns whether code begins at the address, of a word that is this much less.
pub fn begins_code(search: &mut Search<'_>, less: u16, address: u16) -> Result<bool, AllocError> {
    if search.marks.get(address) {
        return Ok(is_entered(search, less, address));
    }
    search.would_join(address, Least::Count(IN_TABLE))
}

/// Where the words of rows begin that are this much less than the addresses to which they lead.
#[derive(Drop)]
struct Rows {
    less: u16,
    marks: Marks,
}

impl Rows {
    /// Marks that a word of a row begins there.
    fn put(&mut self, at: usize) {
        self.marks.set_span(at, at.saturating_add(1));
    }
}

/// Returns what `Search::has` does of the address, if there is one.
fn joins(search: &mut Search<'_>, to: Option<u16>, least: usize) -> Result<bool, AllocError> {
    match to {
        Some(to) => search.has(to, least),
        None => Ok(false),
    }
}

impl<'i> DataWords<'i> {
    /// Looks at an image of which these instructions are reached. What leads to the end of a routine is hopeful, as far
    /// as that is known from the instructions after it: few bytes of data do. That saves trials, and no more.
    #[inline(never)]
    pub fn of(search: &Search<'i>) -> Result<DataWords<'i>, AllocError> {
        let steps = search.steps;
        let alloc = steps.alloc();
        let reached = &search.marks;
        let image = steps.image();
        let given = given(alloc, steps.map().info())?;
        let mut hopeful = Marks::none(alloc)?;
        let (start, end) = ends(image);
        for at in (start..end).rev() {
            let here = at as u16;
            if reached.get(here) || !search.code.get(here) && is_hopeful(steps, &hopeful, here) {
                hopeful.set(here);
            }
        }
        let mut words = DataWords {
            image,
            given,
            hopeful,
            worth: Vec::new(alloc),
            fields: Vec::new(alloc),
            named: Vec::new(alloc),
        };
        words.put_all(search)?;
        Ok(words)
    }

    /// Adds where words begin that may lead to code.
    fn put_all(&mut self, search: &Search<'_>) -> Result<(), AllocError> {
        let (start, end) = ends(self.image);
        let (mut second, mut before) = (0u8, 0u8);
        for (at, bytes) in (start..end).zip(self.image.bytes().windows(4)) {
            let &[low, high, ..] = bytes else {
                continue;
            };
            let to = u16::from_le_bytes([low, high]);
            let leads = self.hopeful.get(to);
            // Most words lead to no code.
            if (leads || self.hopeful.get_at(usize::from(to) + 1))
                && let Some(here) = address(at)
                && search.is_open(here)
            {
                if is_worth(&self.hopeful, bytes) {
                    self.worth.push(here)?;
                }
                if leads && usize::from(to) == at.saturating_add(2) {
                    self.fields.push(here)?;
                }
                if leads && is_behind_name(second, before) {
                    self.named.push(here)?;
                }
            }
            (second, before) = (before, low);
        }
        Ok(())
    }

    /// Lets the code join that begins right behind words which are its address, if there are three of these at least:
    /// the code fields of threaded code, as of Forth.
    pub fn join_fields(&self, search: &mut Search<'_>) -> Result<(), AllocError> {
        let mut count = 0usize;
        for &at in &self.fields {
            if let Some(to) = self.target(search, 0, usize::from(at))
                && begins_code(search, 0, to)?
            {
                count = count.saturating_add(1);
            }
        }
        if count < ROW {
            return Ok(());
        }
        for &at in &self.fields {
            let to = self.target(search, 0, usize::from(at));
            if joins(search, to, 1)? {
                search.words.push(at)?;
            }
        }
        Ok(())
    }

    /// Whether nothing speaks for the address.
    fn is_open(&self, search: &Search<'_>, at: usize) -> bool {
        at < ADDRESSES && !self.given.get_at(at) && !search.code.get_at(at)
    }

    /// Returns the address to which the word at the address leads, if nothing speaks for its bytes and code may begin
    /// there.
    pub fn target(&self, search: &Search<'_>, less: u16, at: usize) -> Option<u16> {
        let to = word(self.image, at)?.checked_add(less)?;
        let is_open = self.is_open(search, at) && self.is_open(search, at.saturating_add(1));
        (is_open && self.hopeful.get(to)).then_some(to)
    }

    /// Whether a row begins at the address: three different words lead to code.
    fn begins_row(
        &self,
        search: &mut Search<'_>,
        less: u16,
        at: usize,
    ) -> Result<bool, AllocError> {
        if let Some(one) = self.target(search, less, at)
            && let Some(two) = self.target(search, less, at.saturating_add(2))
            && one != two
            && let Some(three) = self.target(search, less, at.saturating_add(4))
            && one != three
            && two != three
            && begins_code(search, less, one)?
            && begins_code(search, less, two)?
            && begins_code(search, less, three)?
        {
            return Ok(true);
        }
        Ok(false)
    }

    /// Lets the sound beginnings among the words of a row join, up to one that leads to no code, and among those before
    /// it. Behind the first three, and before them, code of any length counts. Marks where the words begin.
    fn join_row(
        &self,
        search: &mut Search<'_>,
        rows: &mut Rows,
        from: usize,
    ) -> Result<(), AllocError> {
        let (start, end) = ends(self.image);
        let sure = from.saturating_add(2 * ROW);
        for at in (from..end).step_by(2) {
            let least = if at < sure { IN_TABLE } else { 1 };
            let to = self.target(search, rows.less, at);
            if !joins(search, to, least)? {
                if at < sure {
                    return Ok(());
                }
                break;
            }
            rows.put(at);
        }
        let mut at = from;
        for _ in start..from {
            at = at.saturating_sub(2);
            let to = self.target(search, rows.less, at);
            if at < start || !joins(search, to, 1)? {
                break;
            }
            rows.put(at);
        }
        Ok(())
    }

    /// Lets the sound beginnings among the words of rows join.
    pub fn join_rows(&self, search: &mut Search<'_>) -> Result<(), AllocError> {
        for less in [0u16, 1] {
            let marks = Marks::none(search.steps.alloc())?;
            let mut rows = Rows { less, marks };
            for &at in &self.worth {
                let from = usize::from(at);
                if !rows.marks.get(at) && self.begins_row(search, less, from)? {
                    self.join_row(search, &mut rows, from)?;
                }
            }
        }
        Ok(())
    }

    /// Whether a word at the address leads to reached code, this much after it.
    fn leads(&self, search: &Search<'_>, less: u16, at: usize) -> bool {
        matches!(self.target(search, less, at), Some(to)
            if search.marks.get(to) && is_entered(search, less, to))
    }

    /// Returns the addresses right behind rows of words that lead to reached code.
    pub fn behind_rows(&self, search: &Search<'_>) -> Result<Vec<Candidate>, AllocError> {
        let mut found = Vec::new(search.steps.alloc());
        for &first in &self.worth {
            let at = usize::from(first);
            for less in [0u16, 1] {
                if self.leads(search, less, at)
                    && self.leads(search, less, at.saturating_add(2))
                    && !self.leads(search, less, at.saturating_add(4))
                    && let Some(address) = address(at.saturating_add(4))
                    && search.is_open(address)
                {
                    found.push((address, true))?;
                }
            }
        }
        Ok(found)
    }
}
