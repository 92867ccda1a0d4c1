//! Which other addresses join the entries.

use crate::Steps;
use crate::declared::{declared_of, words_in};
use crate::obstacles::{Obstacle, worst_of};
use crate::pairs::{may_begin, pairs_at};
use crate::readers::{Table, tables_of};
use crate::search::{Least, Search};
use crate::sound::is_passed;
use crate::starts::pointers_of;
use crate::words::DataWords;
use map65::ADDRESSES;
use reach65::Placed;
use reach65::image::address;
use std::alloc::AllocError;

/// The least number of instructions of a sound beginning to which a table or a word of a row leads.
pub const IN_TABLE: usize = 3;

/// The least number of instructions of any other sound beginning.
pub const LEAST: usize = 4;

/// How often the image is searched for rows of words. Most images have none that leads on after the first time.
const SCANS: usize = 8;

/// How many short pieces of code may stand one behind the other.
const PIECES: usize = 8;

/// An address that may begin code, and whether it is one right behind what is known.
pub type Candidate = (u16, bool);

impl Search<'_> {
    /// Whether no reached instruction has the address: else what begins there would share a byte with that.
    pub fn is_open(&self, address: u16) -> bool {
        !self.code.get(address) && !self.marks.get(address)
    }

    /// Adds the addresses that instructions give that no rule has looked at: those behind them, and those
    /// that they begin to load in halves.
    fn put_candidates(&self, found: &mut Vec<Candidate>) -> Result<(), AllocError> {
        for &at in self.joined.get(self.looked..).unwrap_or(&[]) {
            let Some(step) = self.steps.at(at) else {
                continue;
            };
            if may_begin(step.op) {
                for pair in pairs_at(self.steps, &self.marks, Placed { at, step }) {
                    if let Some(pair) = pair
                        && self.steps.image().start() <= pair.address
                        && pair.is_plausible()
                        && let Some(meant) = address(pair.meant())
                        && self.is_open(meant)
                    {
                        found.push((meant, false))?;
                    }
                }
            }
            if let Some(end) = step.end
                && self.is_open(end)
            {
                let passed = step.next.is_some() && is_passed(self.steps, end);
                let after = end.saturating_add(u16::from(passed));
                found.push((after, true))?;
            }
        }
        Ok(())
    }

    /// Where the piece of code ends that begins at the address: after the first instruction
    /// behind which code does not go on.
    fn piece_end(&self, address: u16) -> Option<u16> {
        let mut at = address;
        for _ in 0..ADDRESSES {
            let step = self.steps.at(at)?;
            let end = step.end?;
            if step.next.is_none() || self.code.get(end) {
                return Some(end);
            }
            at = end;
        }
        None
    }

    /// The beginnings of short pieces of code from the address on, one behind the other, each up to where code does not
    /// go on, if the last is a sound beginning by itself, or goes up to reached code.
    fn chain_of(&mut self, from: u16) -> Result<Vec<u16>, AllocError> {
        let mut pieces = Vec::new(self.steps.alloc());
        let mut at = from;
        for _ in 0..PIECES {
            if self.marks.get(at) && 3 <= at.saturating_sub(from) {
                return Ok(pieces);
            }
            if self.code.get(at) || !self.would_join(at, Least::Count(1))? {
                break;
            }
            pieces.push(at)?;
            if self.would_join(at, Least::Behind(LEAST))? {
                return Ok(pieces);
            }
            match self.piece_end(at) {
                Some(end) => at = end,
                None => break,
            }
        }
        pieces.clear();
        Ok(pieces)
    }

    /// Lets a candidate join, if it is a sound beginning, or one of short pieces.
    fn join_candidate(&mut self, (address, behind): Candidate) -> Result<(), AllocError> {
        if self.marks.get(address) || self.is_tired() {
            return Ok(());
        }
        if !behind {
            self.join(address, Least::Count(LEAST))?;
        } else if !self.join(address, Least::Behind(LEAST))? {
            for &piece in &self.chain_of(address)? {
                self.join(piece, Least::Count(1))?;
            }
        }
        Ok(())
    }

    /// Lets the sound beginnings join among these, in the order of their addresses.
    fn join_candidates(&mut self, candidates: &mut Vec<Candidate>) -> Result<(), AllocError> {
        candidates.sort()?;
        for &candidate in candidates.as_slice() {
            self.join_candidate(candidate)?;
        }
        Ok(())
    }

    /// Lets sound beginnings join that what is newly reached gives, until there are no more. Each time but the last at
    /// least one address joins, so there are fewer times than addresses.
    fn grow(&mut self) -> Result<(), AllocError> {
        let mut candidates = Vec::new(self.steps.alloc());
        for _round in 0..ADDRESSES {
            if self.looked == self.joined.len() {
                break;
            }
            candidates.clear();
            self.put_candidates(&mut candidates)?;
            self.looked = self.joined.len();
            self.join_candidates(&mut candidates)?;
        }
        Ok(())
    }

    /// Lets the address of an entry of a table join, if it is a sound beginning, which may be an instruction in the
    /// operand of a reached `bit`. Returns whether code begins there.
    fn join_entry(&mut self, to: u16, least: usize) -> Result<bool, AllocError> {
        let least = if self.code.get(to) { 1 } else { least };
        self.has(to, least)
    }

    /// Lets the sound beginnings join to which the entries of a table lead that reached code reads, up to one that
    /// leads to no code, unless it is whole. If the first three words lead to what reads as code, code of any length
    /// counts.
    fn join_table(&mut self, table: Table) -> Result<(), AllocError> {
        let mut is_whole = false;
        let is_row = table.has_words() && table.begins(self.steps);
        for index in 0..table.most().min(self.entries_left) {
            self.entries_left = self.entries_left.saturating_sub(1);
            let (low, high) = table.places(index);
            let Some(to) = table.entry(self.steps.image(), index) else {
                break;
            };
            if self.code.get_at(low) || self.code.get_at(high) {
                break;
            }
            let least = if is_row { 1 } else { IN_TABLE };
            let joins = self.join_entry(to, least)?;
            is_whole = is_whole || !joins && table.is_whole(self.steps, &mut self.entries_left);
            if !joins && !is_whole {
                break;
            }
        }
        Ok(())
    }

    /// Looks for the tables that reached code reads, unless nothing has joined since.
    fn read_tables(&mut self) -> Result<(), AllocError> {
        if self.tabled != self.joined.len() {
            let mut left = self.entries_left;
            self.tables = tables_of(self, &mut left)?;
            self.entries_left = left;
            self.tabled = self.joined.len();
        }
        Ok(())
    }

    /// Lets the sound beginnings join to which the entries of tables lead, of those that reached code reads, and of
    /// those that the information file has in halves.
    fn join_tables(&mut self) -> Result<(), AllocError> {
        let steps = self.steps;
        // What has failed once would fail again.
        let known = Vec::from_slice(steps.alloc(), &self.tables)?;
        self.read_tables()?;
        let tables = Vec::from_slice(steps.alloc(), &self.tables)?;
        for &table in &tables {
            if table.is_code && known.binary_search(&table).is_err() {
                self.join_table(table)?;
            }
        }
        self.join_declared(&tables)
    }

    /// Lets the sound beginnings join that the information file has in halves, two at least one behind the other.
    fn join_declared(&mut self, tables: &[Table]) -> Result<(), AllocError> {
        let mut codes = Vec::new(self.steps.alloc());
        for &split in &declared_of(self.steps, tables)? {
            if split.table.is_code && 1 < split.count {
                codes.push(split)?;
            }
        }
        for &(word, less) in &words_in(self.steps, &codes)? {
            if let Some(to) = word.checked_add(less) {
                self.join_entry(to, 1)?;
            }
        }
        Ok(())
    }

    /// Lets the sound beginnings join that the tables and the names of the information file have.
    fn join_given(&mut self) -> Result<(), AllocError> {
        let steps = self.steps;
        for &address in &pointers_of(steps)? {
            self.join(address, Least::Count(1))?;
        }
        let info = steps.map().info();
        for k in 0..info.given_count() {
            self.join(info.given(k).address, Least::Count(LEAST))?;
        }
        Ok(())
    }

    /// Lets the sound beginnings join to which tables and rows lead.
    fn join_rows(&mut self, words: &DataWords<'_>) -> Result<(), AllocError> {
        self.join_tables()?;
        words.join_rows(self)?;
        words.join_fields(self)?;
        self.join_named(words)?;
        self.join_jumps()?;
        self.join_candidates(&mut words.behind_rows(self)?)
    }

    /// Lets all sound beginnings join.
    fn join_all(&mut self) -> Result<(), AllocError> {
        self.join_given()?;
        self.grow()?;
        let words = DataWords::of(self)?;
        for _scan in 0..SCANS {
            self.join_rows(&words)?;
            if self.looked == self.joined.len() {
                break;
            }
            self.grow()?;
        }
        Ok(())
    }
}

/// The entries with those that join, which tables the code reads that is reached from them, and what kept others from
/// joining.
#[derive(Drop)]
pub struct Followed {
    pub entries: Vec<u16>,
    /// The tables that reached code reads, in order.
    pub tables: Vec<Table>,
    /// The places of words of data that lead to some of them, alone or behind texts.
    pub words: Vec<u16>,
    /// The three worst obstacles.
    pub obstacles: Vec<Obstacle>,
    /// The calls that were read in trials that failed, once for each.
    pub calls: Vec<u16>,
}

/// Returns the entries, and then, unless no more than these are to be followed, those that join: the sound beginnings
/// among what the tables of the information file refer to, those right behind a reached instruction and its text, those
/// whose address reached code has in halves, those to which tables that it reads lead, and those among the words of
/// rows and in rows of jumps. The time grows with the number of addresses that are reached.
pub fn follow(steps: &Steps<'_>, entries: &[u16], plain: bool) -> Result<Followed, AllocError> {
    let mut search = Search::from(steps, entries)?;
    if !plain {
        search.join_all()?;
    }
    search.read_tables()?;
    let obstacles = worst_of(&search)?;
    Ok(Followed {
        entries: search.entries,
        tables: search.tables,
        words: search.words,
        obstacles,
        calls: search.calls,
    })
}
