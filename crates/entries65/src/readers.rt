//! Tables by the instructions that read them.

use crate::Steps;
use crate::growth::IN_TABLE;
use crate::pairs::stored_to;
use crate::search::Search;
use crate::sound::reads_on;
use isa65::{Mnemonic, Mode};
use map65::{ADDRESSES, Image, Marks, is_inside};
use reach65::image::{address, byte};
use reach65::{Placed, Step};
use std::alloc::{AllocError, Global};

/// The most entries of a table that an index of a byte reaches.
const MOST: u16 = 256;

/// How many entries before the first one the operands may lie, in data: an index often begins at 1.
const BEFORE: u8 = 4;

/// How far apart the words of records may stand.
const APART: u8 = 8;

/// How many bytes may be copied to where jumps lead through.
const COPIED: u16 = 64;

/// How many entries a table may have that is loaded into two registers.
const REGISTERS: usize = 64;

/// How many entries of tables are looked at, all together. Few programs come near it. It keeps the time in proportion
/// to the image, whatever that has.
pub const PATIENCE: usize = 0x1_0000;

/// A table of addresses that reached code reads: where its low and its high bytes begin, how much less they are than
/// the addresses, and whether code begins there.
#[derive(Clone, Copy, PartialEq, Eq, PartialOrd, Ord)]
pub struct Table {
    pub low: u16,
    pub high: u16,
    pub less: u8,
    pub is_code: bool,
    /// How many entries before these the operands lie.
    before: u8,
    /// How far apart two words of it stand: other bytes of a record may stand between them.
    apart: u8,
    /// How many entries it has at most.
    limit: u16,
}

impl Table {
    /// Returns the table of addresses of code, less so much.
    pub fn of_code(low: u16, high: u16, less: u8) -> Table {
        Table {
            low,
            high,
            less,
            is_code: true,
            before: 0,
            apart: 2,
            limit: MOST,
        }
    }

    /// Returns whether the low and the high bytes stand in words, and not in two tables.
    pub fn has_words(&self) -> bool {
        usize::from(self.high) == usize::from(self.low) + 1
    }

    /// How far one entry is behind the one before it.
    fn step(&self) -> usize {
        if self.has_words() {
            usize::from(self.apart)
        } else {
            1
        }
    }

    /// Returns the places of the low and the high byte of an entry.
    pub fn places(&self, index: usize) -> (usize, usize) {
        let offset = index.saturating_mul(self.step());
        (
            usize::from(self.low).saturating_add(offset),
            usize::from(self.high).saturating_add(offset),
        )
    }

    /// Returns what the bytes of an entry are, if they lie in the image.
    pub fn word(&self, image: &Image, index: usize) -> Option<u16> {
        let (low, high) = self.places(index);
        Some(u16::from_le_bytes([byte(image, low)?, byte(image, high)?]))
    }

    /// Returns the address of an entry, if its bytes lie in the image.
    pub fn entry(&self, image: &Image, index: usize) -> Option<u16> {
        self.word(image, index)?.checked_add(u16::from(self.less))
    }

    /// Returns how many entries it may have: the two tables of halves do not meet.
    pub fn most(&self) -> usize {
        let most = if self.has_words() {
            self.limit
        } else {
            self.low.abs_diff(self.high).min(self.limit)
        };
        usize::from(most)
    }

    /// Returns whether one of two tables of halves begins right behind the other: three quarters of the entries up to
    /// there lead to what reads as code. `left` is how many entries may still be looked at.
    pub fn is_whole(&self, steps: &Steps<'_>, left: &mut usize) -> bool {
        let count = self.most();
        if !self.is_code || self.has_words() || *left < count {
            return false;
        }
        *left = left.saturating_sub(count);
        let mut bad = 0usize;
        for index in 0..count {
            bad = bad.saturating_add(usize::from(!self.leads_on(steps, index)));
            if count / 4 < bad {
                return false;
            }
        }
        1 < count
    }

    /// Whether an entry leads to what reads as code.
    fn leads_on(&self, steps: &Steps<'_>, index: usize) -> bool {
        reads_on(steps, self.entry(steps.image(), index), IN_TABLE)
    }

    /// Returns whether the first entry leads to what reads as code, and so do the next ones, as many as a row has at
    /// least.
    pub fn begins(&self, steps: &Steps<'_>) -> bool {
        for index in 0..IN_TABLE.min(self.most()) {
            if !self.leads_on(steps, index) {
                return false;
            }
        }
        true
    }

    /// How many entries before the one the others are that first leads to code, as the next ones do, as many as a row
    /// has at least: 1 to 4.
    fn before_code(&self, steps: &Steps<'_>) -> Option<u8> {
        let need = IN_TABLE.min(self.most());
        let last = usize::from(BEFORE).saturating_add(need);
        let (mut first, mut index) = (1u8, 1usize);
        for _ in 1..last.max(2) {
            if need <= index.saturating_sub(usize::from(first)) {
                return Some(first);
            }
            if !self.leads_on(steps, index) {
                first = u8::try_from(index).ok()?.saturating_add(1);
            }
            if BEFORE < first {
                return None;
            }
            index = index.saturating_add(1);
        }
        (need <= index.saturating_sub(usize::from(first))).then_some(first)
    }

    /// The table from its first entry on that leads to code, as the next ones do, if that is one of a few, and the
    /// first leads to none: the index begins at 1 or so.
    fn from_first(self, steps: &Steps<'_>) -> Table {
        if !self.is_code || self.leads_on(steps, 0) {
            return self;
        }
        let Some(before) = self.before_code(steps) else {
            return self;
        };
        let (low, high) = self.places(usize::from(before));
        match (address(low), address(high)) {
            (Some(low), Some(high)) => Table {
                low,
                high,
                before,
                ..self
            },
            _ => self,
        }
    }

    /// The table with its words as far apart as records are, if the word right behind the first one leads to no code,
    /// but three at another distance do, each to other code.
    fn of_records(self, steps: &Steps<'_>) -> Table {
        let image = steps.image();
        let is_alone = self.is_code
            && self.has_words()
            && self.before == 0
            && self.limit == MOST
            && self.leads_on(steps, 0)
            && !self.leads_on(steps, 1);
        if !is_alone {
            return self;
        }
        for apart in 3..=APART {
            let table = Table { apart, ..self };
            let (one, two) = (table.entry(image, 0), table.entry(image, 1));
            let three = table.entry(image, 2);
            if table.begins(steps) && one != two && two != three && one != three {
                return table;
            }
        }
        self
    }

    /// Whether all its entries are addresses of the image.
    fn is_inside(&self, image: &Image) -> bool {
        for index in 0..self.most() {
            match self.entry(image, index) {
                Some(entry) if is_inside(image, usize::from(entry)) => {}
                _ => return false,
            }
        }
        true
    }

    /// Returns whether the operand of an instruction that reads the table is at the address.
    pub fn is_read_at(&self, at: usize) -> bool {
        let (low, high) = self.places(0);
        let at = at.saturating_add(usize::from(self.before).saturating_mul(self.step()));
        at == low || at == high
    }

    /// Returns the tables of halves without the entries that code has, if it has the first one: an index
    /// may begin at another number than 0.
    fn behind(self, code: &Marks, left: &mut usize) -> Table {
        for index in 0..usize::from(MOST).min(left.saturating_add(1)) {
            *left = left.saturating_sub(index.min(1));
            let (low, high) = self.places(index);
            if !code.get_at(low)
                && !code.get_at(high)
                && let (Some(low), Some(high)) = (address(low), address(high))
            {
                return Table { low, high, ..self };
            }
        }
        self
    }
}

/// Two tables of halves: where the low and the high bytes begin, and how many there are of each.
#[derive(Clone, Copy)]
pub struct Split {
    pub table: Table,
    pub count: usize,
}

/// The address from which the instruction loads a register with an index.
fn indexed(step: &Step) -> Option<u16> {
    match (step.op.mnemonic, step.op.mode) {
        (Mnemonic::Lda | Mnemonic::Ldx | Mnemonic::Ldy, Mode::Absx | Mode::Absy) => step.operand,
        _ => None,
    }
}

/// Whether the second instruction stores the register that the first one loads.
fn is_kept(first: &Step, second: &Step) -> bool {
    matches!(
        (first.op.mnemonic, second.op.mnemonic),
        (Mnemonic::Lda, Mnemonic::Sta)
            | (Mnemonic::Ldx, Mnemonic::Stx)
            | (Mnemonic::Ldy, Mnemonic::Sty)
    )
}

/// The table of halves that two instructions load into two registers, of A, X and Y the one before into the low half:
/// one of its two parts begins right behind the other, and all its entries are addresses of the image.
fn loaded_table(steps: &Steps<'_>, first: &Step, second: &Step) -> Option<Table> {
    let (one, other) = (indexed(first)?, indexed(second)?);
    let is_low = match (first.op.mnemonic, second.op.mnemonic) {
        (Mnemonic::Lda, Mnemonic::Ldx | Mnemonic::Ldy) | (Mnemonic::Ldx, Mnemonic::Ldy) => true,
        (Mnemonic::Ldx | Mnemonic::Ldy, Mnemonic::Lda) | (Mnemonic::Ldy, Mnemonic::Ldx) => false,
        _ => return None,
    };
    let (low, high) = if is_low { (one, other) } else { (other, one) };
    let table = Table {
        is_code: false,
        ..Table::of_code(low, high, 0)
    };
    let fits = first.op.mode == second.op.mode
        && matches!(table.most(), 2..=REGISTERS)
        && table.is_inside(steps.image());
    fits.then_some(table)
}

/// Bytes that code copies: where they stand, and where they go.
#[derive(Clone, Copy)]
struct Copies {
    from: u16,
    to: u16,
}

/// What this instruction and the one behind it copy: a load and a store with the same index.
fn copies_at(steps: &Steps<'_>, reached: &Marks, reader: u16) -> Option<Copies> {
    let first = steps.marked(reached, reader)?;
    let from = indexed(first.step)?;
    let second = steps.behind(reached, first)?;
    let to = second.step.operand?;
    let is_copy = second.step.op.mode == first.step.op.mode && is_kept(first.step, second.step);
    is_copy.then_some(Copies { from, to })
}

/// The tables in order, each once.
fn in_order(mut tables: Vec<Table>) -> Result<Vec<Table>, AllocError> {
    tables.sort()?;
    tables.dedup();
    Ok(tables)
}

/// Which reached instructions may read tables, and what reached code does with pointers.
#[derive(Drop)]
pub struct Readers {
    /// Where the instructions begin.
    readers: Vec<u16>,
    /// It jumps through the pointer. The operand of a jump or a call is one too: other code may store to it.
    jumps: Marks,
    /// It loads or stores through the pointer.
    others: Marks,
}

impl Readers {
    /// Returns none.
    pub fn none(alloc: Global) -> Result<Readers, AllocError> {
        Ok(Readers {
            readers: Vec::new(alloc),
            jumps: Marks::none(alloc)?,
            others: Marks::none(alloc)?,
        })
    }

    /// Adds what a reached instruction does.
    pub fn put(&mut self, placed: Placed<'_>) -> Result<(), AllocError> {
        let Placed { at, step } = placed;
        if matches!(step.op.mode, Mode::Absx | Mode::Absy | Mode::Absindx) {
            self.readers.push(at)?;
        }
        match (step.op.mode, step.operand, step.byte) {
            (Mode::Ind, Some(pointer), _) => self.jumps.set(pointer),
            (Mode::Indx | Mode::Indy | Mode::Zpind, _, Some(pointer)) => {
                self.others.set(u16::from(pointer));
            }
            (Mode::Abs, Some(_), _) if step.to.is_some() => self.jumps.set(at.saturating_add(1)),
            _ => {}
        }
        Ok(())
    }

    /// The table that this instruction and those behind it read: two loads with an index, each pushed or
    /// stored to one byte of a pointer.
    fn table_at(&self, steps: &Steps<'_>, reached: &Marks, at: u16) -> Option<Table> {
        let first = steps.marked(reached, at)?;
        if first.step.op.mode == Mode::Absindx {
            let low = first.step.operand?;
            return Some(Table::of_code(low, low.checked_add(1)?, 0));
        }
        let one = indexed(first.step)?;
        let keeps = steps.behind(reached, first)?;
        if indexed(keeps.step).is_some() {
            return loaded_table(steps, first.step, keeps.step);
        }
        let second = steps.behind(reached, keeps)?;
        let other = indexed(second.step)?;
        let last = steps.behind(reached, second)?;
        if keeps.step.op.mnemonic == Mnemonic::Pha && last.step.op.mnemonic == Mnemonic::Pha {
            return Some(Table::of_code(other, one, 1));
        }
        let to = stored_to(keeps.step)?;
        let other_to = stored_to(last.step)?;
        let pointer = to.min(other_to);
        let is_code = self.jumps.get(pointer);
        if to.max(other_to) - pointer != 1 || !is_code && !self.others.get(pointer) {
            return None;
        }
        let is_low = to < other_to;
        let (low, high) = if is_low { (one, other) } else { (other, one) };
        let table = Table::of_code(low, high, 0);
        Some(Table { is_code, ..table })
    }

    /// Where jumps lead through, in order.
    fn jump_places(&self, alloc: Global) -> Result<Vec<u16>, AllocError> {
        let mut places = Vec::new(alloc);
        for at in 0..ADDRESSES {
            if let Some(place) = address(at)
                && self.jumps.get(place)
            {
                places.push(place)?;
            }
        }
        Ok(places)
    }

    /// Adds the words that these instructions copy to where jumps lead through.
    fn put_copied(
        &self,
        alloc: Global,
        found: &mut Vec<Table>,
        copies: &[Copies],
    ) -> Result<(), AllocError> {
        if copies.is_empty() {
            return Ok(());
        }
        let places = self.jump_places(alloc)?;
        for copy in copies {
            let (Ok(first) | Err(first)) = places.binary_search(&copy.to);
            for &place in places.get(first..).unwrap_or(&[]) {
                let offset = place.saturating_sub(copy.to);
                if COPIED <= offset {
                    break;
                }
                let low = copy.from.saturating_add(offset);
                let word = Table::of_code(low, low.saturating_add(1), 0);
                found.push(Table { limit: 1, ..word })?;
            }
        }
        Ok(())
    }
}

/// Returns the tables that reached code reads, each once, in order. `left` is how many entries may still be looked at.
pub fn tables_of(search: &Search<'_>, left: &mut usize) -> Result<Vec<Table>, AllocError> {
    let (steps, reached, readers) = (search.steps, &search.marks, &search.readers);
    let alloc = steps.alloc();
    let (mut read, mut copies) = (Vec::new(alloc), Vec::new(alloc));
    for &at in &readers.readers {
        if let Some(table) = readers.table_at(steps, reached, at) {
            read.push(table)?;
        } else if let Some(copy) = copies_at(steps, reached, at) {
            copies.push(copy)?;
        }
    }
    readers.put_copied(alloc, &mut read, &copies)?;
    let read = in_order(read)?;
    let (mut found, mut moved) = (Vec::with_capacity(alloc, read.len())?, Vec::new(alloc));
    for &table in &read {
        let behind = table.behind(&search.code, left);
        let is_better = behind.low != table.low && behind.is_whole(steps, left);
        let best = if is_better { behind } else { table };
        let best = best.from_first(steps).of_records(steps);
        if best == table {
            found.push(best)?;
        } else {
            moved.push(best)?;
        }
    }
    if !moved.is_empty() {
        // Both are in order, which makes the sort quick.
        found.extend_from_slice(&in_order(moved)?)?;
        found = in_order(found)?;
    }
    Ok(found)
}
