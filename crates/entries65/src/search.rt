//! The search for code, with trials: an entry joins if all that is reached from it
//! reads as code, else all is as before.

use crate::Steps;
use crate::declared::said_places;
use crate::obstacles::{Obstacle, obstacle_of};
use crate::readers::{self, Readers, Table};
use crate::sound::{is_apart, is_fine, is_passed};
use crate::texts::{ALPHABETS, Alphabet};
use isa65::Mnemonic;
use map65::{ADDRESSES, Image, Marks, is_inside};
use reach65::Placed;
use reach65::image::bytes_at;
use std::alloc::{AllocError, Global};

/// How many instructions all trials that fail may look at. Few programs come near it: what is no code fails after a
/// few. It keeps the time in proportion to the image, whatever that has.
const PATIENCE: usize = 0x1_0000;

/// How many bytes behind what was added may belong to a text that it begins with.
const MARGIN: usize = 16;

/// How many bytes a word has. Before the code to which a word leads it is rather data than an instruction.
const WORD: usize = 2;

/// What a sound beginning has at least.
#[derive(Clone, Copy, PartialEq, Eq)]
pub enum Least {
    /// This many instructions.
    Count(usize),
    /// This many, or more bytes than a word, and it leads to reached code.
    Behind(usize),
}

/// A trial that has failed. The same one fails again while nothing joins, after as many instructions.
#[derive(Clone, Copy)]
struct Failed {
    address: u16,
    /// What it was to have at least, if that counts: nothing else has kept it from joining.
    least: Option<Least>,
    /// Whether it would have been kept: then it is known where it could not go on.
    keeps: bool,
    /// How many had joined.
    joined: usize,
    /// How many instructions it has looked at.
    wasted: usize,
}

/// The entries; the addresses that are marked, and those of them that are still to be looked at; those that were marked
/// since the last trial began; and how many instructions the trials that failed have looked at. An address is to be
/// looked at from when it is marked, so each is looked at once.
#[derive(Drop)]
pub struct Search<'a> {
    pub steps: &'a Steps<'a>,
    pub entries: Vec<u16>,
    pub marks: Marks,
    /// What the instructions have that have joined.
    pub code: Marks,
    /// Where the instructions begin that have joined.
    pub joined: Vec<u16>,
    /// How many of those rules have looked at.
    pub looked: usize,
    /// Those that have joined and read tables.
    pub readers: Readers,
    /// The places of words of data that lead to what has joined, alone or behind texts.
    pub words: Vec<u16>,
    /// The tables that those read, in order, and how many had joined when they were looked for.
    pub tables: Vec<Table>,
    pub tabled: usize,
    /// How many entries of tables may still be looked at.
    pub entries_left: usize,
    todo: Vec<u16>,
    added: Vec<u16>,
    /// Those that were marked since the last trial began.
    fresh: Marks,
    /// Whether the last trial has led to what was marked before.
    meets: bool,
    /// The addresses of the zero page that the image stores to.
    stored: Marks,
    /// The bytes that are halves or numbers by the information file: no instruction begins there.
    said: Marks,
    wasted: usize,
    /// The last trial that has failed.
    failed: Option<Failed>,
    /// Where trials could not go on, and how many bytes they had read.
    pub obstacles: Vec<Obstacle>,
    /// The calls that they had read.
    pub calls: Vec<u16>,
}

/// Marks the addresses of the zero page that instructions store to, if the bytes of the image are instructions. The
/// opcodes with an absolute operand are those with one of the zero page and 8.
fn stored_marks(alloc: Global, image: &Image) -> Result<Marks, AllocError> {
    let mut marks = Marks::none(alloc)?;
    for bytes in image.bytes().windows(3) {
        if let [opcode, low, high] = *bytes
            && matches!(opcode & 0xF7, 0x84..=0x86)
            && (opcode < 0x88 || high == 0)
        {
            marks.set(u16::from(low));
        }
    }
    Ok(marks)
}

/// How many bytes of texts these begin with, with a zero byte between two of them.
fn texts_len(alphabet: Alphabet, bytes: &[u8]) -> usize {
    let mut end = 0;
    for _ in 0..bytes.len() {
        let rest = bytes.get(end..).unwrap_or(&[]);
        let len = alphabet.text_len(rest);
        if len == 0 {
            break;
        }
        if rest.get(len) != Some(&0) {
            return end.saturating_add(len);
        }
        end = end.saturating_add(len).saturating_add(1);
    }
    end
}

impl<'a> Search<'a> {
    /// Returns the search of all that is reached from the entries.
    pub fn from(steps: &'a Steps<'a>, entries: &[u16]) -> Result<Search<'a>, AllocError> {
        let alloc = steps.alloc();
        let mut search = Search {
            steps,
            marks: Marks::none(alloc)?,
            code: Marks::none(alloc)?,
            fresh: Marks::none(alloc)?,
            stored: stored_marks(alloc, steps.image())?,
            said: said_places(alloc, steps.tags())?,
            readers: Readers::none(alloc)?,
            entries: Vec::new(alloc),
            joined: Vec::new(alloc),
            looked: 0,
            words: Vec::new(alloc),
            tables: Vec::new(alloc),
            tabled: 0,
            entries_left: readers::PATIENCE,
            todo: Vec::new(alloc),
            added: Vec::new(alloc),
            meets: false,
            wasted: 0,
            failed: None,
            obstacles: Vec::new(alloc),
            calls: Vec::new(alloc),
        };
        for &entry in entries {
            search.put_entry(entry)?;
        }
        search.run(false)?;
        search.keep()?;
        Ok(search)
    }

    /// Marks an address, if there is one. Returns it if it is to be looked at: it was not marked.
    fn put(&mut self, address: Option<u16>) -> Result<Option<u16>, AllocError> {
        let Some(address) = address else {
            return Ok(None);
        };
        if self.marks.get(address) {
            self.meets = self.meets || !self.fresh.get(address);
            return Ok(None);
        }
        self.marks.set(address);
        self.fresh.set(address);
        self.added.push(address)?;
        Ok(Some(address))
    }

    /// Marks two addresses, if there are any. Returns the one that is to be looked at next: the second, if it was not
    /// marked.
    fn put_two(&mut self, next: Option<u16>, goal: Option<u16>) -> Result<Option<u16>, AllocError> {
        let next = self.put(next)?;
        match (next, self.put(goal)?) {
            (Some(next), Some(goal)) => {
                self.todo.push(next)?;
                Ok(Some(goal))
            }
            (next, goal) => Ok(goal.or(next)),
        }
    }

    /// Adds an address to the entries, and marks it if it lies in the image.
    fn put_entry(&mut self, address: u16) -> Result<(), AllocError> {
        self.entries.push(address)?;
        if is_inside(self.steps.image(), usize::from(address))
            && let Some(address) = self.put(Some(address))?
        {
            self.todo.push(address)?;
        }
        Ok(())
    }

    /// Marks all that is reached. If each instruction is to be fine, it stops at the first that is not, and
    /// returns where code cannot go on.
    fn run(&mut self, fine: bool) -> Result<Option<u16>, AllocError> {
        let mut following = None;
        for _ in 0..ADDRESSES + 1 {
            if following.is_none() {
                following = self.todo.pop();
            }
            let Some(address) = following else { break };
            let steps = self.steps;
            following = match steps.at(address) {
                Some(step) if !fine || is_fine(steps, &self.stored, step) => {
                    self.put_two(step.next, step.goal)?
                }
                None if fine && is_passed(steps, address) => self.put(address.checked_add(1))?,
                _ if fine => return Ok(Some(obstacle_of(steps, address))),
                _ => None,
            };
        }
        Ok(None)
    }

    /// Whether what was added shares no byte with other code, and is enough.
    fn is_sound(&self, least: Least) -> bool {
        let enough = match least {
            Least::Count(least) => least <= self.added.len(),
            Least::Behind(least) => {
                least <= self.added.len() || (self.meets && self.has_bytes(WORD + 1))
            }
        };
        enough && !self.is_filled_jump() && self.are_apart()
    }

    /// Whether what was added shares no byte with other code.
    fn are_apart(&self) -> bool {
        for &at in self.added.as_slice() {
            if !is_apart(self.steps, &self.marks, &self.code, at) {
                return false;
            }
        }
        true
    }

    /// Whether what was added has so many bytes at least.
    fn has_bytes(&self, least: usize) -> bool {
        let mut sum = 0usize;
        for &address in self.added.as_slice() {
            sum = sum.saturating_add(self.steps.len_at(address));
        }
        least <= sum
    }

    /// Whether no more was added than a jump to $0000, which is filled in at run time.
    fn is_filled_jump(&self) -> bool {
        match self.added.as_slice() {
            [only] => matches!(self.steps.at(*only), Some(step) if step.to == Some(0)),
            _ => false,
        }
    }

    /// Whether the bytes from the address on that were added begin with texts that are half of them at least.
    fn is_text(&self, address: u16) -> bool {
        let image = self.steps.image();
        let mut at = usize::from(address);
        let first = bytes_at(image, at, MARGIN);
        let [ascii, high, petscii] = ALPHABETS;
        if !(ascii.may_begin(first) || high.may_begin(first) || petscii.may_begin(first)) {
            return false;
        }
        for _ in 0..ADDRESSES {
            match u16::try_from(at) {
                Ok(here) if self.fresh.get(here) => at = at.saturating_add(self.steps.len_at(here)),
                _ => break,
            }
        }
        let run = at.saturating_sub(usize::from(address));
        let bytes = bytes_at(image, usize::from(address), run.saturating_add(MARGIN));
        for alphabet in ALPHABETS {
            let len = texts_len(alphabet, bytes);
            if 0 < len && run <= len.saturating_mul(2) {
                return true;
            }
        }
        false
    }

    /// Tries an address: returns whether it is a sound beginning of so many instructions at least.
    /// Keeps what was added, if it is to.
    fn tries(&mut self, address: u16, least: Least, keeps: bool) -> Result<bool, AllocError> {
        if self.is_vain(address) || self.has_failed(address, least, keeps) {
            return Ok(false);
        }
        for &before in self.added.as_slice() {
            self.fresh.clear(before);
        }
        self.added.clear();
        self.meets = false;
        self.put_entry(address)?;
        let stop = self.run(true)?;
        let joins = stop.is_none() && self.is_sound(least) && !self.is_text(address);
        if keeps && joins {
            self.keep()?;
            return Ok(true);
        }
        if keeps && let Some(stop) = stop {
            self.put_obstacle(stop)?;
        }
        self.undo();
        if !joins {
            self.failed = Some(Failed {
                address,
                least: stop.is_none().then_some(least),
                keeps,
                joined: self.joined.len(),
                wasted: self.added.len(),
            });
        }
        Ok(joins)
    }

    /// Whether the last trial that has failed was this one, and nothing has joined since. Then it counts again.
    fn has_failed(&mut self, address: u16, least: Least, keeps: bool) -> bool {
        let Some(failed) = self.failed else {
            return false;
        };
        let is_same = failed.address == address
            && failed.joined == self.joined.len()
            && (failed.keeps || !keeps)
            && (failed.least.is_none() || failed.least == Some(least));
        if is_same {
            self.wasted = self.wasted.saturating_add(failed.wasted);
        }
        is_same
    }

    /// Whether a trial of the address is not worth while: none is left, or no instruction
    /// begins there that is not marked, or none may.
    fn is_vain(&mut self, address: u16) -> bool {
        if self.is_tired() || self.marks.get(address) || self.said.get(address) {
            return true;
        }
        let is_vain = self.steps.at(address).is_none();
        if is_vain && is_inside(self.steps.image(), usize::from(address)) {
            self.wasted = self.wasted.saturating_add(1);
        }
        is_vain
    }

    /// Keeps where the trial could not go on, how many bytes its instructions have, and the calls that it had read.
    fn put_obstacle(&mut self, address: u16) -> Result<(), AllocError> {
        self.added.sort()?;
        let mut bytes = 0usize;
        let mut behind = 0usize;
        for &at in self.added.as_slice() {
            if let Some(step) = self.steps.at(at) {
                let end = usize::from(at).saturating_add(step.len());
                bytes = bytes.saturating_add(end.saturating_sub(behind.max(usize::from(at))));
                behind = behind.max(end);
                if step.op.mnemonic == Mnemonic::Jsr {
                    self.calls.push(at)?;
                }
            }
        }
        self.obstacles.push(Obstacle { address, bytes })?;
        Ok(())
    }

    /// Marks what the instructions have that were added. What stands behind a byte that was passed over is an entry.
    fn keep(&mut self) -> Result<(), AllocError> {
        for &at in self.added.as_slice() {
            if let Some(step) = self.steps.at(at) {
                let from = usize::from(at);
                self.code.set_span(from, from.saturating_add(step.len()));
                self.readers.put(Placed { at, step })?;
            } else if is_passed(self.steps, at) {
                self.entries.push(at.saturating_add(1))?;
            }
        }
        self.joined.extend_from_slice(self.added.as_slice())
    }

    /// Takes the last entry back, and what was added since.
    fn undo(&mut self) {
        self.wasted = self.wasted.saturating_add(self.added.len());
        for &address in self.added.as_slice() {
            self.marks.clear(address);
        }
        self.todo.clear();
        self.entries.pop();
    }

    /// Returns whether the trials that failed have looked at too many instructions.
    pub fn is_tired(&self) -> bool {
        PATIENCE < self.wasted
    }

    /// Adds an address to the entries, with what is reached from it, if it is a sound beginning of so many instructions
    /// at least. Returns whether it is.
    pub fn join(&mut self, address: u16, least: Least) -> Result<bool, AllocError> {
        self.tries(address, least, true)
    }

    /// Returns whether code begins at the address: it is marked, or joins as a sound beginning of so many instructions.
    pub fn has(&mut self, address: u16, least: usize) -> Result<bool, AllocError> {
        Ok(self.marks.get(address) || self.join(address, Least::Count(least))?)
    }

    /// Returns whether the address is a sound beginning of so many instructions at least. The search is as before.
    pub fn would_join(&mut self, address: u16, least: Least) -> Result<bool, AllocError> {
        self.tries(address, least, false)
    }
}
