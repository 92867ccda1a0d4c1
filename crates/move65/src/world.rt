//! What both runs are connected to: the image, unknown memory, and what is seen: where they part, and which
//! places of the image that comes from.

use crate::lines::Lines;
use crate::pair::{Pair, Places};
use crate::scene::Scene;
use isa65::{Mode, Op};
use map65::Marks;
use run65::{Bus, Purpose, Value, Word};
use std::alloc::{AllocError, Global};
use std::mem::take;

/// The most that is kept in a round of what is seen of one instruction.
const MOST: usize = 24;

/// How many calls of code outside of the image are looked at.
const MOST_CALLS: u32 = 4096;

/// What parts.
#[derive(Clone, Copy, PartialEq, Eq)]
pub enum Kind {
    /// An address of the image that does not lie later in the other run.
    Stays(Purpose),
    /// An address outside of the image that is not the same in the other run.
    Moves(Purpose),
    /// A branch that goes another way in the other run.
    Branch,
    /// Code goes on at bytes of the image that the listing has as data.
    Arrives(Purpose),
    /// An address of the image, at the beginning of a block that is handed over to code outside of it, that does not
    /// lie later in the other run.
    Hands,
}

/// Where both runs part.
#[derive(Clone, Copy, PartialEq, Eq)]
pub struct Sighting {
    pub kind: Kind,
    /// The instruction.
    pub at: u16,
    /// The address that is used, without its index.
    pub here: u16,
    /// The places that its low byte comes from, or all that comes into it.
    pub low: Places,
    /// Those of its high byte.
    pub high: Places,
    /// Whether something comes into it that nobody knows.
    pub is_mixed: bool,
    /// Whether the run began at an entry, and not at a routine that nobody called.
    pub is_sure: bool,
}

/// Both memories, and what is seen of them.
#[derive(Drop)]
pub struct World {
    pub scene: Scene,
    /// What each address holds, if it is known.
    cells: Vec<Option<Pair>>,
    /// Whether the run began at a routine that nobody called. What it writes is undone.
    is_trial: bool,
    /// What cells held before a trial wrote them.
    undo: Vec<(u16, Option<Pair>)>,
    /// Whether something that nobody knows came into the last address.
    is_guess: bool,
    pub is_out_of_memory: bool,
    /// The address of the instruction that runs.
    at: u16,
    /// How many instructions have run.
    clock: u32,
    /// What decides the unknown bytes.
    seed: u32,
    /// Where instructions have run.
    pub ran: Marks,
    /// Those that have run since nothing was known.
    pub ran_now: Marks,
    /// What the last instruction leads on for, if it is known where.
    leads: Option<Purpose>,
    /// Where code goes on at bytes that the listing has as data, each once.
    pub arrivals: Vec<Sighting>,
    arrived: Marks,
    /// Whether the last instruction was one of code that the listing has as data.
    is_found: bool,
    /// The bytes of that code, but for immediate operands.
    pub found: Marks,
    /// The operands of two bytes in it.
    pub found_words: Marks,
    /// How many calls of code outside of the image have been looked at.
    handed: u32,
    pub seen: Vec<Vec<Sighting>>,
    /// What is read behind the image, and what is written there, by addresses that are known.
    pub read: Marks,
    pub written: Marks,
    /// Bytes that were used as half of an address that lies where it has to, in both runs.
    pub used: Marks,
}

/// Whether the byte is a character.
fn is_text(byte: u8) -> bool {
    matches!(byte, 0x20..=0x7E)
}

/// Whether the byte is a character, or one of those that end a text.
fn ends_text(byte: u8) -> bool {
    is_text(byte) || matches!(byte, 0 | 0x0A | 0x0D | 0x9B)
}

impl World {
    /// The memories with these images, of which nothing is known yet.
    pub fn new(alloc: Global, scene: Scene) -> Result<World, AllocError> {
        let mut seen = Vec::new(alloc);
        for _ in 0..65_536 {
            seen.push(Vec::new(alloc))?;
        }
        Ok(World {
            scene,
            cells: vec![in alloc; None; 65_536]?,
            is_trial: false,
            undo: Vec::new(alloc),
            is_guess: false,
            is_out_of_memory: false,
            at: 0,
            clock: 0,
            seed: 0,
            ran: Marks::none(alloc)?,
            ran_now: Marks::none(alloc)?,
            leads: None,
            arrivals: Vec::new(alloc),
            arrived: Marks::none(alloc)?,
            is_found: false,
            found: Marks::none(alloc)?,
            found_words: Marks::none(alloc)?,
            handed: 0,
            seen,
            read: Marks::none(alloc)?,
            written: Marks::none(alloc)?,
            used: Marks::none(alloc)?,
        })
    }

    /// Nothing is known but the images, and these unknown bytes are elsewhere.
    pub fn reset(&mut self, seed: u32) {
        self.seed = seed;
        self.clock = 0;
        self.handed = 0;
        for address in 0..=u16::MAX {
            let bytes = self.scene.byte(address).zip(self.scene.later_byte(address));
            let cell = bytes.map(|(here, later)| Pair::known(here, later, Places::one(address)));
            self.set(address, cell);
            self.ran_now.clear(address);
        }
    }

    /// What is written from now on is undone.
    pub fn begin_trial(&mut self, seed: u32) {
        self.seed = seed;
        self.is_trial = true;
    }

    /// Undoes what was written since a trial began.
    pub fn end_trial(&mut self) {
        for _ in 0..self.undo.len() {
            if let Some((address, cell)) = self.undo.pop() {
                self.set(address, cell);
            }
        }
        self.is_trial = false;
    }

    fn set(&mut self, address: u16, cell: Option<Pair>) {
        if let Some(place) = self.cells.get_mut(usize::from(address)) {
            *place = cell;
        }
    }

    pub fn cell(&self, address: u16) -> Option<Pair> {
        *self.cells.get(usize::from(address))?
    }

    /// A byte that nobody knows and both runs have, by what decides it.
    fn unknown(&self, of: u32) -> Pair {
        let mixed = of
            .wrapping_mul(0x9E37_79B1)
            .wrapping_add(self.seed.wrapping_mul(0x85EB_CA6B));
        let mixed = (mixed ^ (mixed / 0x8000)).wrapping_mul(0xC2B2_AE35);
        let byte = (mixed / 0x10000 % 256) as u8;
        Pair {
            is_mixed: true,
            ..Pair::of(if self.seed == 0 { 0 } else { byte })
        }
    }

    /// Another byte that nobody knows, at each call.
    pub fn fresh(&mut self) -> Pair {
        self.clock = self.clock.wrapping_add(1);
        self.unknown(self.clock.wrapping_add(0x0100_0000))
    }

    /// Takes down that an instruction runs at an address.
    pub fn begin(&mut self, address: u16) {
        self.at = address;
        self.clock = self.clock.wrapping_add(1);
        self.ran.set(address);
        self.ran_now.set(address);
        self.leads = None;
    }

    /// A run begins.
    pub fn begin_run(&mut self) {
        self.leads = None;
        self.is_found = false;
    }

    /// Takes down that no instruction has led to where code goes on.
    pub fn lead_nowhere(&mut self) {
        self.leads = None;
    }

    /// Whether an instruction of the listing begins at an address, or one of code that has been found, or is found now
    /// because an instruction leads there.
    pub fn may_run(&mut self, lines: &Lines, address: u16) -> bool {
        if lines.instructions.get(address) {
            self.is_found = false;
            return true;
        }
        let byte = self.cell(address).map(|pair| pair.here);
        let Some(op) = byte.and_then(|opcode| lines.op_in_data(address, opcode)) else {
            return false;
        };
        if byte != self.scene.byte(address) || !self.is_found && self.leads.is_none() {
            return false;
        }
        if let Some(purpose) = self.leads {
            self.arrive(address, purpose);
        }
        self.is_found = true;
        self.find(address, op);
        true
    }

    /// Takes down that the instruction at an address is code, though the listing has it as data.
    fn find(&mut self, address: u16, op: Op) {
        self.found.set(address);
        if op.mode != Mode::Imm {
            let from = usize::from(address);
            self.found
                .set_span(from, from.saturating_add(usize::from(op.mode.len())));
        }
        if op.mode.len() == 3 && op.mode != Mode::Zprel {
            self.found_words.set(address.wrapping_add(1));
        }
    }

    /// Takes down that an instruction leads to bytes that the listing has as data, unless code that has been found
    /// does: who follows that comes there too.
    fn arrive(&mut self, address: u16, purpose: Purpose) {
        let is_return = purpose == Purpose::Return;
        // `jmp (..)`, and with an index.
        let is_by_pointer = matches!(self.scene.byte(self.at), Some(0x6C | 0x7C));
        let is_followed = if is_return {
            self.found.get(address.wrapping_sub(1))
        } else {
            self.found_words.get(self.at.wrapping_add(1)) && !is_by_pointer
        };
        if is_followed || self.arrived.get(address) {
            return;
        }
        self.arrived.set(address);
        let arrival = Sighting {
            kind: Kind::Arrives(purpose),
            at: self.at,
            here: address.wrapping_sub(u16::from(is_return)),
            low: Places::NONE,
            high: Places::NONE,
            is_mixed: false,
            is_sure: !self.is_trial,
        };
        if self.arrivals.push(arrival).is_err() {
            self.is_out_of_memory = true;
        }
    }

    /// The word of two bytes, if both are known to come from the image, and it lies there and later in the other run.
    fn pointer(&self, Word { low, high }: Word<Pair>) -> Option<u16> {
        let here = u16::from_le_bytes([low.here, high.here]);
        let later = u16::from_le_bytes([low.later, high.later]);
        let are_known = low.is_known && high.is_known && !low.is_mixed && !high.is_mixed;
        let moves = later == here.wrapping_add(self.scene.by);
        (are_known && moves && self.scene.has(here)).then_some(here)
    }

    /// Looks at the block of a pointer that is handed over to code outside of the image: if its first word is the
    /// address of other data of the image, that must move.
    fn hand_over(&mut self, lines: &Lines, pointer: Word<Pair>) {
        let Some(block) = self.pointer(pointer) else {
            return;
        };
        let next = block.wrapping_add(1);
        if let (Some(low), Some(high)) = (self.cell(block), self.cell(next))
            && low.places == Places::one(block)
            && high.places == Places::one(next)
        {
            let address = u16::from_le_bytes([low.here, high.here]);
            let moved = self.scene.wanted(address);
            let is_string = lines.texts.get(block) || is_text(low.here) && ends_text(high.here);
            if self.scene.has(address)
                && lines.named.get(address)
                && !is_string
                && moved != [low.later, high.later]
            {
                self.see(Kind::Hands, address, Word { low, high });
            }
        }
    }

    /// Looks at what is handed over to code outside of the image: pointers in the zero page and in two registers.
    pub fn hand_all_over(&mut self, lines: &Lines, [a, x, y]: [Pair; 3]) {
        if self.handed == MOST_CALLS {
            return;
        }
        self.handed = self.handed.saturating_add(1);
        for (low, high) in [(x, y), (y, x), (a, x), (a, y), (x, a), (y, a)] {
            self.hand_over(lines, Word { low, high });
        }
        for at in 0..0xFFu16 {
            if let (Some(low), Some(high)) = (self.cell(at), self.cell(at.wrapping_add(1))) {
                self.hand_over(lines, Word { low, high });
            }
        }
    }

    /// Whether the byte is one of the image as it stands there.
    fn is_plain(&self, byte: Pair) -> bool {
        match byte.places.as_slice() {
            [at] => self.scene.byte(*at) == Some(byte.here),
            _ => false,
        }
    }

    /// Whether the low half of an address is the index: the pointer has none, and its high byte is a sum.
    fn is_low_half(&self, index: Pair, low: Pair, high: Pair) -> bool {
        low.here == 0 && index.here != 0 && self.is_plain(index) && !self.is_plain(high)
    }

    /// Takes down that both runs part where an address is used, and what comes into it.
    fn see(&mut self, kind: Kind, here: u16, Word { low, high }: Word<Pair>) {
        let sighting = Sighting {
            kind,
            at: self.at,
            here,
            low: low.places,
            high: high.places,
            is_mixed: low.is_mixed || high.is_mixed,
            is_sure: !self.is_trial,
        };
        if let Some(seen) = self.seen.get_mut(usize::from(self.at))
            && seen.len() < MOST
            // Which address is used tells nothing more.
            && !seen
                .iter()
                .any(|&other| Sighting { here, ..other } == sighting)
            && seen.push(sighting).is_err()
        {
            self.is_out_of_memory = true;
        }
    }
}

impl Bus<Pair> for World {
    fn place(&mut self, word: Word<Pair>, index: Pair, purpose: Purpose) -> Option<u16> {
        let Word { low, high } = word;
        let base = u16::from_le_bytes([low.here, high.here]);
        let here = base.wrapping_add(u16::from(index.here));
        let later = u16::from_le_bytes([low.later, high.later]);
        let later = later.wrapping_add(u16::from(index.later));
        let moved = here.wrapping_add(self.scene.by);
        self.is_guess = low.is_mixed || high.is_mixed || index.is_mixed;
        if matches!(purpose, Purpose::Jump | Purpose::Call | Purpose::Return) {
            self.leads = (low.is_known && high.is_known && !self.is_guess).then_some(purpose);
        }
        if !low.is_known && !high.is_known {
            // An unknown pointer is often zero, and then nothing in the zero page would stay known.
            let is_zero_page = high.here == 0 && purpose == Purpose::Write;
            return (!is_zero_page && !self.scene.has(here)).then_some(here);
        }
        if self.scene.moves(here) || base != here && self.scene.moves(base) {
            if later != moved {
                let is_index = self.is_low_half(index, low, high);
                let (address, low) = if is_index { (here, index) } else { (base, low) };
                self.see(Kind::Stays(purpose), address, Word { low, high });
            } else if let ([low], [high]) = (low.places.as_slice(), high.places.as_slice()) {
                self.used.set(*low);
                self.used.set(*high);
            }
        } else if later != here && !(self.scene.is_behind(here) && later == moved) {
            let low = low.with_origin(index);
            self.see(Kind::Moves(purpose), here, Word { low, high });
        }
        Some(here)
    }

    fn read(&mut self, place: Option<u16>) -> Pair {
        let Some(address) = place else {
            return self.fresh();
        };
        let is_guess = take(&mut self.is_guess);
        if !is_guess && self.scene.is_behind(address) {
            self.read.set(address);
        }
        match self.cell(address) {
            Some(pair) => Pair {
                is_mixed: pair.is_mixed || is_guess,
                ..pair
            },
            // What waits for a change goes on some time.
            None => {
                let time = (self.clock / 4096).wrapping_mul(0x10000);
                self.unknown(u32::from(address).wrapping_add(time))
            }
        }
    }

    fn write(&mut self, place: Option<u16>, value: Pair) {
        let is_guess = take(&mut self.is_guess);
        let Some(address) = place else {
            return;
        };
        if !is_guess && self.scene.is_behind(address) {
            self.written.set(address);
        }
        let before = (address, self.cell(address));
        if self.is_trial && self.undo.push(before).is_err() {
            self.is_out_of_memory = true;
        }
        self.set(address, Some(value));
    }

    fn read_word(&mut self, address: u16) -> Word<Pair> {
        let [low, high] = address.to_le_bytes();
        let [later_low, later_high] = self.scene.wanted(address);
        Word {
            low: Pair::known(low, later_low, Places::NONE),
            high: Pair::known(high, later_high, Places::NONE),
        }
    }

    fn takes(&mut self, flag: Pair, wanted: bool) -> bool {
        if flag.here != flag.later {
            let word = Word {
                low: flag,
                high: flag,
            };
            self.see(Kind::Branch, self.at, word);
        }
        (flag.here != 0) == wanted
    }
}
