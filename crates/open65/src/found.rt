//! What is found in a file: its kind and its parts.

use crate::bytes::{Bytes, Form};
use crate::kinds::Given;
use crate::records::byte_at;
use std::alloc::{AllocError, Global};

/// How many addresses there are.
pub const ADDRESSES: usize = 0x1_0000;

/// How the bytes of a piece stand in the file: as they are, each as two hex digits, or not at all, if each is this one.
#[derive(Clone, Copy, PartialEq, Eq)]
pub enum Coding {
    Plain,
    Digits,
    Filler(u8),
}

/// Bytes that follow each other in the file: where they begin, and how many a part has of them.
#[derive(Clone, Copy)]
pub struct Piece {
    pub at: usize,
    pub len: usize,
    pub coding: Coding,
}

impl Piece {
    /// Returns the bytes of the file that it takes.
    pub fn of<'f>(&self, file: Bytes<'f>) -> &'f [u8] {
        file.from(self.at).first(self.size())
    }

    /// Returns how many these are.
    pub fn size(&self) -> usize {
        match self.coding {
            Coding::Plain => self.len,
            Coding::Digits => self.len.saturating_mul(2),
            Coding::Filler(_) => 0,
        }
    }
}

/// A part of a file: an image with its address.
#[derive(Drop)]
pub struct Part {
    /// Its name is this word and this number, and then what the names of its files begin with.
    pub word: &'static str,
    pub number: usize,
    pub name: String,
    pub files: String,
    /// What the directory of a disk or tape calls it.
    pub title: Vec<u8>,
    pub start: usize,
    pub len: usize,
    pub pieces: Vec<Piece>,
    /// Where code begins.
    pub entries: Vec<usize>,
    /// Whether another length has room in the file, and the numbers that rise with it: lengths, and places behind it.
    pub can_grow: bool,
    pub rising: Vec<(usize, Form)>,
}

impl Part {
    /// Returns the address after its last byte.
    pub fn end(&self) -> usize {
        self.start.saturating_add(self.len)
    }

    /// Returns where its bytes begin in the file, if they follow each other there.
    pub fn place(&self) -> Option<usize> {
        match self.pieces.as_slice() {
            [piece] if piece.coding == Coding::Plain => Some(piece.at),
            _ => None,
        }
    }

    /// Whether it has a byte, and lies in the address space and in the file.
    fn is_sound(&self, file: Bytes<'_>) -> bool {
        let mut is_sound = 0 < self.len && self.end() <= ADDRESSES;
        for piece in &self.pieces {
            is_sound &= piece.of(file).len() == piece.size();
        }
        is_sound
    }
}

/// What is found in a file.
#[derive(Drop)]
pub struct Found<'f> {
    pub alloc: Global,
    pub file: Bytes<'f>,
    pub given: Given<'f>,
    /// The word of its kind, and what the file is, perhaps with a number after it.
    pub word: &'static str,
    pub kind: &'static str,
    pub number: Option<usize>,
    /// The machine and the CPU, if they are known.
    pub machine: &'static str,
    pub cpu: Option<&'static str>,
    pub parts: Vec<Part>,
    /// What is no part, and follows from the parts: lengths, places, checksums.
    pub derived: Vec<Piece>,
    pub guesses: Vec<&'static str>,
    /// Whether memory has run out.
    pub lost: bool,
}

impl<'f> Found<'f> {
    pub fn new(alloc: Global, file: Bytes<'f>, given: Given<'f>) -> Found<'f> {
        Found {
            alloc,
            file,
            given,
            word: "",
            kind: "",
            number: None,
            machine: "",
            cpu: None,
            parts: Vec::new(alloc),
            derived: Vec::new(alloc),
            guesses: Vec::new(alloc),
            lost: false,
        }
    }

    /// Says what the file is, and which machine it is for.
    pub fn is(&mut self, kind: &'static str, machine: &'static str) {
        self.kind = kind;
        self.machine = machine;
    }

    pub fn guess(&mut self, text: &'static str) {
        self.lost |= self.guesses.push(text).is_err();
    }

    /// Says that bytes of no part follow from the parts.
    pub fn derive(&mut self, at: usize, len: usize) {
        let coding = Coding::Plain;
        self.lost |= self.derived.push(Piece { at, len, coding }).is_err();
    }

    /// Begins a part without a byte.
    pub fn begin(&mut self, word: &'static str, start: usize) {
        let part = Part {
            word,
            number: self.parts.len(),
            name: String::new(self.alloc),
            files: String::new(self.alloc),
            title: Vec::new(self.alloc),
            start,
            len: 0,
            pieces: Vec::new(self.alloc),
            entries: Vec::new(self.alloc),
            can_grow: false,
            rising: Vec::new(self.alloc),
        };
        self.lost |= self.parts.push(part).is_err();
    }

    /// Adds a piece to the last part.
    pub fn piece(&mut self, at: usize, len: usize, coding: Coding) {
        if let Some(part) = self.parts.last_mut() {
            part.len = part.len.saturating_add(len);
            self.lost |= part.pieces.push(Piece { at, len, coding }).is_err();
        }
    }

    /// Ends the last part. It is left out, and the answer is no, unless it has a byte, and lies in the file and in the
    /// address space.
    pub fn close(&mut self) -> bool {
        let is_sound = match self.parts.last() {
            Some(part) => part.is_sound(self.file),
            None => true,
        };
        if !is_sound {
            let _ = self.parts.pop();
        }
        is_sound
    }

    /// Adds a part whose bytes follow each other, as `close` does.
    pub fn part(&mut self, word: &'static str, start: usize, at: usize, len: usize) -> bool {
        self.begin(word, start);
        self.piece(at, len, Coding::Plain);
        self.close()
    }

    /// Adds a part of all bytes from a place on, which may get another length, and where code begins.
    pub fn rest(&mut self, start: usize, at: usize, entries: &[usize]) {
        if self.part("part", start, at, self.file.from(at).0.len()) {
            self.rises(&[]);
            for entry in entries {
                self.entry(*entry);
            }
        }
    }

    /// Adds the banks of code of this size from a place on: how large each is, how many of the last ones stay and end
    /// at an address, and where the others are seen. What is not larger than a bank stays.
    pub fn banks(
        &mut self,
        from: usize,
        size: usize,
        (bank, fixed): (usize, usize),
        (seen, end): (usize, usize),
    ) {
        for begin in (0..size).step_by(bank.max(1)) {
            let left = size.saturating_sub(begin);
            let stays = size <= bank || left <= fixed.saturating_mul(bank);
            let start = if stays {
                end.saturating_sub(left)
            } else {
                seen
            };
            self.part("bank", start, from.saturating_add(begin), left.min(bank));
        }
    }

    /// The last part may get another length, with which these numbers rise.
    pub fn rises(&mut self, numbers: &[(usize, Form)]) {
        for (at, form) in numbers {
            self.derive(*at, form.0);
        }
        if let Some(part) = self.parts.last_mut() {
            part.can_grow = true;
            self.lost |= part.rising.extend_from_slice(numbers).is_err();
        }
    }

    /// Code begins at an address, if the last part has it.
    pub fn entry(&mut self, address: usize) {
        if let Some(part) = self.parts.last_mut() {
            self.lost |= add_entry(part, address);
        }
    }

    /// Code begins at an address, in each part that has it.
    pub fn entry_of_all(&mut self, address: usize) {
        for part in self.parts.iter_mut() {
            self.lost |= add_entry(part, address);
        }
    }

    /// The directory calls the last part so. Only what prints in ASCII is kept, without blanks at the end.
    pub fn title(&mut self, at: usize, len: usize) {
        if let Some(part) = self.parts.last_mut() {
            for byte in self.file.from(at).first(len) {
                let plain = byte & 0x7F;
                if 0x20 <= plain && plain < 0x7F {
                    self.lost |= part.title.push(plain).is_err();
                }
            }
            for _ in 0..len {
                if part.title.last() == Some(&b' ') {
                    let _ = part.title.pop();
                }
            }
        }
    }

    /// Returns the image that a part is.
    pub fn image(&self, part: &Part) -> Result<Vec<u8>, AllocError> {
        let mut image = Vec::with_capacity(self.alloc, part.len)?;
        for piece in &part.pieces {
            let bytes = piece.of(self.file);
            match piece.coding {
                Coding::Plain => image.extend_from_slice(bytes)?,
                Coding::Digits => {
                    for pair in bytes.chunks(2) {
                        image.push(byte_at(pair, 0).unwrap_or(0))?;
                    }
                }
                Coding::Filler(byte) => image.resize(image.len().saturating_add(piece.len), byte)?,
            }
        }
        Ok(image)
    }
}

/// Adds an entry to a part, if it lies in it. Returns whether memory has run out.
fn add_entry(part: &mut Part, address: usize) -> bool {
    let is_inside = part.start <= address && address < part.end();
    is_inside && part.entries.push(address).is_err()
}
