//! A block of bytes that is filled at its end and taken from at its front.

ghost use Rattle.std.specs.Prelude.{◌≡◌, ◌-◌, ◌<◌, ◌≤◌, ◌++◌, [], drop, length, take};
ghost use Rattle.da65_cli.specs.Code.Block.{BlockView};

use std::marker::Model;

/// How many bytes a block has.
const SIZE: usize = 8192;

/// Bytes that wait, and room for more after them. Nothing is moved or blanked as they are taken.
#[derive(Drop)]
pub struct Block {
    bytes: [u8; 8192],
    first: usize,
    end: usize,
}

impl Model for Block {
    ghost Value = { BlockView };

    ghost view = { λ b. record { bytes = drop b.first (take b.end b.bytes); room = 8192 - b.end } };

    ghost invariant = { λ b. (b.first ≤ b.end) × (b.end ≤ 8192) × (b.first ≡ b.end → b.end ≡ 0) };
}

impl Block {
    /// An empty block.
    pub fn new() -> Block
        ensures { result.bytes ≡ [] }
    {
        Block {
            bytes: [0; 8192],
            first: 0,
            end: 0,
        }
    }

    /// The bytes that wait.
    pub fn as_slice(&self) -> &[u8]
        ensures { result.now ≡ self.now.bytes }
    {
        &self.bytes[self.first..self.end]
    }

    /// For how many bytes more there is room. An empty block has some.
    #[tactic(auto, using(crate::proofs::BufferLemmas::all_taken))]
    pub fn room(&self) -> usize
        ensures room { result ≡ self.now.room }
        ensures some { self.now.bytes ≡ [] → 0 < result }
    {
        SIZE - self.end
    }

    /// Adds bytes at the end.
    pub fn put(&mut self, bytes: &[u8])
        requires { length bytes.now ≤ self.old.room }
        ensures bytes { self.new.bytes ≡ self.old.bytes ++ bytes.now }
    {
        if bytes.is_empty() {
            return;
        }
        let end = self.end + bytes.len();
        self.bytes[self.end..end].copy_from_slice(bytes);
        self.end = end;
    }

    /// Takes bytes from the front.
    pub fn take(&mut self, count: usize)
        requires { count ≤ length self.old.bytes }
        ensures { self.new.bytes ≡ drop count self.old.bytes }
    {
        self.first += count;
        if self.first == self.end {
            self.first = 0;
            self.end = 0;
        }
    }
}
