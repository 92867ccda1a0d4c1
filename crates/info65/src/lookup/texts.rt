//! Where the texts of names stand.

ghost use Rattle.std.specs.Prelude.{◌≡◌, ◌<◌};
ghost use Rattle.info65.specs.Words.{hash_from, slot_of};

use crate::fault::InfoFault;
use crate::lookup::numbers::Numbers;
use std::alloc::Allocator;
use std::collections::BTreeMap;

// How many slots there are at least and at most.
const FEWEST: usize = 16;

const MOST: usize = 0x10_0000;

// A name and what else a file says of it have some ten times as many bytes, so few names share a slot.
const BYTES_OF_A_SLOT: usize = 2;

/// Where names are found by their texts. The slot of a text is found by a hash of its bytes, and the first name whose
/// text has a slot takes it. The names whose slot was taken before them stand in a tree, so names that share a slot on
/// purpose cost no more than a look-up in the tree.
#[derive(Drop)]
pub struct Texts<'a, A: Allocator> {
    /// For each slot the number of the name that took it.
    pub slots: Numbers<A>,
    /// The addresses of the names whose slot was taken.
    pub others: BTreeMap<&'a [u8], u16, A>,
}

impl<'a, A: Allocator + Copy> Texts<'a, A> {
    ghost use Rattle.std.specs.Prelude.{◌≡◌, ℕ, List, None, IfErr, OnErr, OnOk};
    ghost use Rattle.info65.specs.Words.{AddsText, StandsAlike, out_of_memory, texts_seen};

    /// No texts, where those of a file of that many bytes are to come. Allocates nothing.
    pub fn new(alloc: A, bytes: usize) -> Self
        ensures slotted { (t : List ℕ) → (texts_seen result).slotted t ≡ 0 }
        ensures others { (t : List ℕ) → (texts_seen result).others t ≡ None }
    {
        let slots = Numbers::new(alloc, (bytes / BYTES_OF_A_SLOT).max(FEWEST).min(MOST));
        let others = BTreeMap::new(alloc);
        Texts { slots, others }
    }

    /// The number of the name that took the slot of a text, or 0. Without one no name has the text.
    pub fn slotted(&self, text: &[u8]) -> usize
        ensures { result ≡ (texts_seen self.now).slotted text.now }
    {
        self.slots.at(slot_of(self.slots.count(), text))
    }

    /// The address of the name with this text, if another name took its slot.
    pub fn other(&self, text: &'a [u8]) -> Option<u16>
        ensures { result ≡ (texts_seen self.now).others text.entry.now }
    {
        match self.others.get(&text) {
            Some(address) => Some(*address),
            None => None,
        }
    }

    /// Adds the text of a name with this address and number. After a failure each text stands as before.
    #[inline(always)]
    #[tactic(auto, using(crate::proofs::Rules::texts_add_rules))]
    pub fn add(&mut self, text: &'a [u8], address: u16, number: u32) -> Result<(), InfoFault>
        ensures done { OnOk result ((t : List ℕ) → AddsText (texts_seen self.old) text.entry.now address number (texts_seen self.new) t) }
        ensures same { OnErr result (StandsAlike (texts_seen self.old) (texts_seen self.new)) }
        ensures err { IfErr result (λ e. e ≡ out_of_memory) }
    {
        self.slots.widen()?;
        let slot = slot_of(self.slots.count(), text);
        if self.slots.at(slot) == 0 {
            self.slots.set(slot, number);
        } else {
            self.others.insert(text, address)?;
        }
        Ok(())
    }
}

// The hash of a text.
#[tactic(auto, unfolding(crate::specs::Code::Texts::hash_from))]
fn hash_of(text: &[u8]) -> usize
    ensures { result ≡ hash_from 0 text.now }
{
    let mut hash: usize = 0;
    for byte in text {
        hash = (hash * 413_293 + usize::from(*byte)) % MOST;
    }
    hash
}

// The slot of a text, one of so many.
#[tactic(auto, unfolding(crate::specs::Code::Texts::slot_of))]
fn slot_of(count: usize, text: &[u8]) -> usize
    requires { 0 < count }
    ensures value { result ≡ slot_of count text.now }
    ensures within { result < count }
{
    hash_of(text) % count
}
