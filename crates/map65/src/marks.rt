//! A flag for each address.

ghost use Rattle.std.specs.Prelude.{◌≡◌, ◌&&◌, ◌||◌, ◌==◌, not, ℕ, IfOk, false};
ghost use Rattle.map65.specs.Words.{is_between, is_marked};

use std::alloc::{AllocError, Allocator, Global};
use std::marker::Model;

/// How many words of 64 flags there are.
const WORDS: usize = 1024;

/// A flag for each address from $0000 to $FFFF.
#[derive(Drop)]
pub struct Marks<A: Allocator = Global> {
    words: Vec<u64, A>,
}

impl<A: Allocator> Model for Marks<A> {
    ghost use Rattle.std.specs.Prelude.{◌≡◌, length};
    ghost use Rattle.map65.specs.Marks.{MarksView};

    ghost Value = { MarksView };

    ghost view = { λ m. record { words = m.words.items } };

    ghost invariant = { λ m. length m.words.items ≡ 1024 };
}

impl<A: Allocator> Marks<A> {
    /// Returns marks that are all clear. Fails if the allocation fails.
    pub fn none(alloc: A) -> Result<Marks<A>, AllocError>
        /// Returns marks of which none is set; or out of memory.
        ensures { IfOk result (λ marks. (a : ℕ) → is_marked marks a ≡ false) }
    {
        let words = vec![in alloc; 0u64; WORDS]?;
        Ok(Marks { words })
    }

    /// Returns a copy. Fails if the allocation fails.
    pub fn copy<B: Allocator>(&self, alloc: B) -> Result<Marks<B>, AllocError>
        /// Returns a copy with the same marks; or out of memory.
        ensures { IfOk result (λ marks. marks ≡ self.now) }
    {
        let words = Vec::from_slice(alloc, self.words.as_slice())?;
        Ok(Marks { words })
    }

    /// Returns whether the address is marked.
    #[tactic(auto, using(crate::proofs::MarksLemmas::marked_test))]
    pub fn get(&self, address: u16) -> bool
        /// Returns whether an address is marked.
        ensures { result ≡ is_marked self.now address }
    {
        (self.words[usize::from(address / 64)] >> (address % 64)) & 1 == 1
    }

    /// Returns whether the address is marked. No address past $FFFF is.
    #[tactic(auto, using(crate::proofs::MarksLemmas::marked_past, crate::proofs::MarksLemmas::marked_test))]
    pub fn get_at(&self, address: usize) -> bool
        /// Returns whether an address is marked. No address past $FFFF is.
        ensures { result ≡ is_marked self.now address }
    {
        match self.words.get(address / 64) {
            Some(word) => (word >> (address % 64)) & 1 == 1,
            None => false,
        }
    }

    /// Marks the address.
    #[tactic(auto, using(crate::proofs::MarksLemmas::marked_more))]
    pub fn set(&mut self, address: u16)
        /// Marks an address; all other marks stay.
        ensures { (a : ℕ) → is_marked self.new a ≡ (is_marked self.old a || address == a) }
    {
        self.words[usize::from(address / 64)] |= 1 << (address % 64);
    }

    /// Clears the mark of the address.
    #[tactic(auto, using(crate::proofs::MarksLemmas::marked_less))]
    pub fn clear(&mut self, address: u16)
        /// Clears the mark of an address; all other marks stay.
        ensures { (a : ℕ) → is_marked self.new a ≡ (is_marked self.old a && not (address == a)) }
    {
        self.words[usize::from(address / 64)] &= !(1 << (address % 64));
    }

    /// Marks the addresses from `from` to before `to`, up to $FFFF.
    pub fn set_span(&mut self, from: usize, to: usize)
        /// Marks a stretch up to $FFFF; all other marks stay.
        ensures { (a : ℕ) → is_marked self.new a ≡ (is_marked self.old a || is_between from to a) }
    {
        'span: for at in from..to.min(65_536) {
            self.set(at as u16);
        }
    }
}
