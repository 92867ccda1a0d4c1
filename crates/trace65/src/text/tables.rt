//! Comments for the addresses in tables of the information file that are not followed.

use crate::text::Text;
use entries65::readers::{Split, Table};
use entries65::sound::reads_on;
use info65::{RangeSpec, RangeType};
use isa65::Mnemonic;
use map65::ADDRESSES;
use std::alloc::AllocError;

/// How many addresses get a comment.
const MOST: usize = 16;

/// How many instructions of a way are looked at.
const WAY: usize = 1024;

/// The table of a range, whose words are so much less than the addresses.
fn table_of(range: RangeSpec, less: u8) -> Split {
    Split {
        table: Table::of_code(range.first, range.first.saturating_add(1), less),
        count: usize::from(range.last.saturating_sub(range.first)).saturating_add(1) / 2,
    }
}

impl Text<'_> {
    /// Adds why code does not begin at the address: the first instruction on the way that is none, or `brk`, else
    /// it shares a byte with other code.
    fn put_reason(&mut self, address: u16) -> Result<(), AllocError> {
        let mut at = address;
        for _ in 0..WAY {
            let Some(step) = self.advice.steps.at(at) else {
                return self.put_address(b"undefined opcode at $", at);
            };
            if step.op.mnemonic == Mnemonic::Brk {
                return self.put_address(b"brk at $", at);
            }
            match step.next {
                Some(next) => at = next,
                None => break,
            }
        }
        self.put(b"it does not read as code")
    }

    /// Adds the comments for a table, for so many addresses at most; for one in halves, which `--plain` does not
    /// follow, only for those that do not read as code.
    fn put_table(&mut self, split: Split, left: &mut usize) -> Result<(), AllocError> {
        let advice = self.advice;
        let (steps, map) = (advice.steps, advice.steps.map());
        for index in 0..split.count {
            let Some(to) = split.table.entry(map.image(), index) else {
                continue;
            };
            if !map.is_code(to) || advice.survey.reached.get(to) {
                continue;
            }
            if *left == 0 {
                break;
            }
            *left -= 1;
            if !split.table.has_words() && reads_on(steps, Some(to), ADDRESSES) {
                continue;
            }
            self.put_address(b"# $", to)?;
            self.put_address(b" in the table at $", split.table.low)?;
            self.put(b" is not followed: ")?;
            self.put_reason(to)?;
            self.put(b"\n")?;
        }
        Ok(())
    }

    /// Adds a comment for each address in a table of the information file to which reading does not lead, at most 16
    /// for all ranges, and for all tables of halves.
    pub fn put_pointers(&mut self) -> Result<(), AllocError> {
        let advice = self.advice;
        let mut left = MOST;
        for &range in advice.steps.map().info().ranges() {
            match range.role {
                RangeType::AddrTable => self.put_table(table_of(range, 0), &mut left)?,
                RangeType::RtsTable => self.put_table(table_of(range, 1), &mut left)?,
                _ => {}
            }
        }
        let (mut left, mut entries) = (MOST, ADDRESSES);
        for &split in &advice.data.declared {
            entries = entries.saturating_sub(split.count);
            if split.table.is_code && 1 < split.count && 0 < entries {
                self.put_table(split, &mut left)?;
            }
        }
        Ok(())
    }
}
