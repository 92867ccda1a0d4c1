//! Comments for where there is room for new code: a proposed range of equal bytes, 16 at least. If an operand of
//! reached code lies there, or the address of a pair, also one byte before, or a label, the comment asks and says so.
//! It asks too if the bytes are an instruction, and not $00 or $FF: code that waits may jump into a row of `cmp #$C9`.

use crate::advice::Advice;
use crate::text::Text;
use bytes65::survey::writes;
use entries65::declared::words_in;
use info65::RangeSpec;
use isa65::Mode;
use std::alloc::AllocError;

/// The least number of bytes that are room.
const LEAST: usize = 16;

/// How an address is used.
#[derive(Clone, Copy, PartialEq, Eq, PartialOrd, Ord)]
enum Way {
    /// An instruction stores to it, or changes it.
    Writes,
    /// One has it as its operand.
    Reads,
    /// One begins to load it in halves.
    Loads,
    /// It has a label.
    Named,
}

/// An address, how it is used, and by which instruction.
type Use = (u16, Way, u16);

/// What is said of a way to use an address, before and after the address that does.
fn words_of(way: Way) -> (&'static [u8], &'static [u8]) {
    match way {
        Way::Writes => (b", but $", b" writes there\n"),
        Way::Reads => (b", but $", b" reads there\n"),
        Way::Loads => (b", but $", b" loads an address there\n"),
        Way::Named => (b", but $", b" has a label\n"),
    }
}

/// How addresses are used, in their order. An operand with an index and an address in halves are also those of the byte
/// after them, since a table may be read from one byte before it.
fn uses_of(advice: &Advice<'_>) -> Result<Vec<Use>, AllocError> {
    let (steps, info) = (advice.steps, advice.steps.map().info());
    let mut found = Vec::new(steps.alloc());
    for &at in &advice.survey.users {
        if let Some(step) = steps.at(at)
            && let Some(operand) = step.operand
        {
            let is_write = writes(step.op.mnemonic);
            let way = if is_write { Way::Writes } else { Way::Reads };
            found.push((operand, way, at))?;
            if matches!(step.op.mode, Mode::Absx | Mode::Absy) {
                found.push((operand.saturating_add(1), way, at))?;
            }
        }
    }
    for pair in advice
        .addresses
        .pairs
        .iter()
        .chain(&advice.addresses.likely)
    {
        let at = pair.low.min(pair.high).saturating_sub(1);
        found.push((pair.address, Way::Loads, at))?;
        found.push((pair.address.saturating_add(1), Way::Loads, at))?;
    }
    for splits in [&advice.data.splits, &advice.data.declared] {
        for &(word, less) in &words_in(steps, splits)? {
            let label = word.saturating_add(less);
            found.push((label, Way::Named, label))?;
        }
    }
    for k in 0..info.given_count() {
        let address = info.given(k).address;
        found.push((address, Way::Named, address))?;
    }
    found.sort()?;
    Ok(found)
}

/// The first use of an address of the range, of the way that says most.
fn use_of(uses: &[Use], range: RangeSpec) -> Option<Use> {
    let first = uses.partition_point(|one| one.0 < range.first);
    let inside = uses
        .iter()
        .skip(first)
        .take_while(|one| one.0 <= range.last);
    inside.copied().min_by_key(|one| (one.1, one.0))
}

impl Text<'_> {
    /// Whether a proposed range is filler: equal bytes, 16 at least.
    fn is_filler(&self, range: RangeSpec) -> bool {
        let bytes = self.bytes(range);
        LEAST <= bytes.len() && bytes.iter().all(|byte| Some(byte) == bytes.first())
    }

    /// Whether code may run through a range of filler.
    fn may_run(&self, range: RangeSpec) -> bool {
        let is_usual = matches!(self.bytes(range).first(), None | Some(0 | 0xFF));
        !is_usual && self.advice.steps.instruction_at(range.first).is_some()
    }

    /// Returns how many bytes are filler.
    pub fn filler_len(&self) -> usize {
        let filler = self.ranges.iter().filter(|range| self.is_filler(**range));
        filler.fold(
            0usize,
            |sum, range| sum.saturating_add(self.bytes(*range).len()),
        )
    }

    /// Adds a comment for each range where there may be room for new code.
    pub fn put_room(&mut self) -> Result<(), AllocError> {
        if !self.ranges.iter().any(|range| self.is_filler(*range)) {
            return Ok(());
        }
        let uses = uses_of(self.advice)?;
        for &range in self.ranges {
            if !self.is_filler(range) {
                continue;
            }
            let used = use_of(&uses, range);
            let may_run = self.may_run(range);
            let title = if used.is_none() && !may_run {
                "# room: "
            } else {
                "# room? "
            };
            self.put_decimal(title.as_bytes(), self.bytes(range).len())?;
            self.put_address(b" bytes at $", range.first)?;
            match used {
                None if may_run => self.put(b", but code may run through it\n")?,
                None => self.put(b"\n")?,
                Some((_, way, at)) => {
                    let (before, after) = words_of(way);
                    self.put_address(before, at)?;
                    self.put(after)?;
                }
            }
        }
        Ok(())
    }
}
