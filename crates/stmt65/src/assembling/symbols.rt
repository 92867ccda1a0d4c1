//! The names that a text defines.

ghost use Rattle.std.specs.Prelude.{◌≡◌, ◌<◌, ◌++◌, ℕ, [], ◌∷◌, IfOk, OnOk, get_or, length, map, take};
ghost use Rattle.std.specs.List.{slice_get};
ghost use Rattle.std.specs.Option.{option_map};
ghost use Rattle.stmt65.specs.Words.{address_of, definition_of, find_name, first_at, with_here};
ghost use Rattle.stmt65.specs.Code.SymbolViews.{hash_of, is_named, slot_of};

use crate::reading::names::HERE;
use std::alloc::{AllocError, Allocator, Global};
use std::collections::BTreeMap;
use std::marker::Model;

/// How many slots there are at least and at most.
const FEWEST: usize = 16;

const MOST: usize = 0x4_0000;

/// The upper half of a hash, and its uppermost bits.
const UPPER_HALF: u64 = 0x1_0000_0000;

const UPPERMOST: u64 = 0x8000_0000_0000;

/// An odd number whose multiples have high bits that differ much.
const FACTOR: u64 = 0x9E37_79B9_7F4A_7C15;

/// A name, its value, and whether a line `name := number` gives it.
#[derive(Clone, Copy)]
pub struct Definition<'a> {
    pub name: &'a [u8],
    /// 2^64 - 1 in place of every greater value.
    pub value: u64,
    pub constant: bool,
}

impl Definition<'_> {
    /// The value, if it is an address.
    pub fn address(self) -> Option<u16>
        ensures { result ≡ address_of (Some (definition_of self.entry)) }
    {
        if self.value < 65536 {
            Some(self.value as u16)
        } else {
            None
        }
    }
}

/// Definitions in their order, and the first one of each name. The first name that has a slot takes
/// it. The names whose slot was taken before stand in a tree, so names that share a slot on purpose
/// cost no more than a look-up in the tree.
#[derive(Drop)]
pub struct Symbols<'a, A: Allocator = Global> {
    definitions: Vec<Definition<'a>, A>,
    /// For each slot which definition's name took it, from 1; 0 stands for none.
    slots: Vec<usize, A>,
    /// Where each other name's first definition stands.
    others: BTreeMap<&'a [u8], usize, A>,
}

impl<'a, A: Allocator> Model for Symbols<'a, A> {
    ghost use Rattle.std.specs.Prelude.{List, length, map};
    ghost use Rattle.stmt65.specs.Symbols.{Definition};
    ghost use Rattle.stmt65.specs.Code.SymbolViews.{definition_of, IsIndex, place_of, taker_of};

    ghost Value = { List Definition };

    ghost view = { λ s. map definition_of s.definitions.items };

    ghost invariant = { λ s. IsIndex s.definitions.items (length s.slots.items) (taker_of s.slots.items) (place_of s.others) };
}

/// A hash of a name.
#[tactic(auto, using(std::proofs::lemmas::List::Sums::fold_more), unfolding(crate::specs::Code::SymbolViews::hash_of))]
fn hash_of(name: &[u8]) -> u64
    ensures { result ≡ hash_of name.now }
{
    let mut hash: u64 = 0;
    'bytes: for byte in name {
        hash = hash.wrapping_add(u64::from(*byte)).wrapping_mul(FACTOR);
    }
    hash
}

/// The slot of a name, one of so many. Names that differ in a digit have hashes at even distances, which the
/// uppermost bits make uneven.
fn slot_of(count: usize, name: &[u8]) -> usize
    requires { 0 < count }
    ensures slot { result ≡ slot_of count name.now }
    ensures within { result < count }
{
    let hash = hash_of(name);
    ((hash / UPPER_HALF) ^ (hash / UPPERMOST)) as usize % count
}

/// Slots for about so many names, none of which is taken.
fn free_slots<A: Allocator>(alloc: A, count: usize) -> Result<Vec<usize, A>, AllocError>
    ensures some { IfOk result (λ slots. 0 < length slots.items) }
    ensures free { IfOk result (λ slots. (k : ℕ) → get_or slots.items k 0 ≡ 0) }
{
    let mut slots = Vec::new(alloc);
    slots.resize(count.saturating_mul(2).max(FEWEST).min(MOST), 0)?;
    Ok(slots)
}

/// Whether a definition at a place has the name.
fn is_named(definitions: &[Definition<'_>], place: usize, name: &[u8]) -> bool
    ensures { result ≡ is_named name.now (slice_get definitions.now place) }
{
    match definitions.get(place) {
        Some(definition) => definition.name == name,
        None => false,
    }
}

impl<'a, A: Allocator + Clone> Symbols<'a, A> {
    /// No definitions, where about so many are to come.
    pub fn new(alloc: A, count: usize) -> Result<Self, AllocError>
        ensures { IfOk result (λ s. s ≡ []) }
    {
        Ok(Symbols {
            definitions: Vec::new(alloc.clone()?),
            slots: free_slots(alloc.clone()?, count)?,
            others: BTreeMap::new(alloc),
        })
    }

    /// Where the first definition of the name stands.
    fn place_of(&self, name: &[u8]) -> Option<usize>
        ensures { result ≡ first_at name.now self.now }
    {
        let place = self.slots[slot_of(self.slots.len(), name)].checked_sub(1)?;
        if is_named(&self.definitions, place, name) {
            Some(place)
        } else {
            self.others.get(name).copied()
        }
    }

    /// All definitions, in their order.
    pub fn definitions(&self) -> &[Definition<'a>]
        ensures { map definition_of result.now ≡ self.now }
    {
        self.definitions.as_slice()
    }

    /// How many definitions there are.
    pub fn len(&self) -> usize
        ensures { result ≡ length self.now }
    {
        self.definitions.len()
    }

    /// All names.
    #[tactic(auto, using(crate::proofs::SymbolLaws::all_names))]
    pub fn all(&self) -> KnownNames<'_, 'a, A>
        ensures names { result ≡ self.now }
        ensures small { length self.now < 9223372036854775808 }
    {
        self.first(self.definitions.len())
    }

    /// The names of this many definitions.
    pub fn first(&self, count: usize) -> KnownNames<'_, 'a, A>
        ensures { result ≡ take count self.now }
    {
        KnownNames { table: self, count }
    }

    /// The definition at a place.
    pub fn at(&self, place: usize) -> Option<Definition<'a>>
        ensures { option_map definition_of result ≡ slice_get self.now place }
    {
        self.definitions.get(place).copied()
    }

    /// Adds a definition after the others.
    pub fn define(&mut self, definition: Definition<'a>) -> Result<(), AllocError>
        ensures { OnOk result (self.new ≡ self.old ++ definition_of definition.entry ∷ []) }
    {
        let name = definition.name;
        let place = self.definitions.len();
        let slot = slot_of(self.slots.len(), name);
        let is_free = self.slots[slot] == 0;
        let is_known = self.place_of(name).is_some();
        self.definitions.push(definition)?;
        if is_known {
            return Ok(());
        }
        if is_free {
            self.slots[slot] = place + 1;
            return Ok(());
        }
        match self.others.insert(name, place) {
            Ok(_) => Ok(()),
            Err(_) => {
                self.definitions.pop();
                Err(AllocError)
            }
        }
    }
}

/// The names of the first definitions of a table: those above a line, or all.
#[derive(Drop)]
pub struct KnownNames<'t, 'a, A: Allocator> {
    table: &'t Symbols<'a, A>,
    count: usize,
}

impl<'t, 'a, A: Allocator> Model for KnownNames<'t, 'a, A> {
    ghost use Rattle.std.specs.Prelude.{List, take};
    ghost use Rattle.stmt65.specs.Symbols.{Definition};

    ghost Value = { List Definition };

    ghost view = { λ n. take n.count n.table.now };
}

impl<'t, 'a, A: Allocator + Clone> KnownNames<'t, 'a, A> {
    /// The first definition of the name.
    #[tactic(auto, using(crate::proofs::SymbolLaws::finds))]
    pub fn find(&self, name: &[u8]) -> Option<Definition<'a>>
        ensures { option_map definition_of result ≡ find_name name.now self.now }
    {
        let Some(place) = self.table.place_of(name) else {
            return None;
        };
        if place < self.count {
            self.table.at(place)
        } else {
            None
        }
    }
}

/// Names, and `*` if it has an address.
#[derive(Drop)]
pub struct LineNames<'k, 't, 'a, A: Allocator> {
    names: &'k KnownNames<'t, 'a, A>,
    here: Option<u64>,
}

impl<'k, 't, 'a, A: Allocator> Model for LineNames<'k, 't, 'a, A> {
    ghost use Rattle.std.specs.Prelude.{List};
    ghost use Rattle.stmt65.specs.Symbols.{Definition, with_here};

    ghost Value = { List Definition };

    ghost view = { λ n. with_here n.here n.names.now };
}

impl<'k, 't, 'a, A: Allocator + Clone> LineNames<'k, 't, 'a, A> {
    /// These names, and the address that `*` is.
    pub fn new(names: &'k KnownNames<'t, 'a, A>, here: Option<u64>) -> Self
        ensures { result ≡ with_here here names.now }
    {
        LineNames { names, here }
    }

    /// The first definition of the name.
    #[tactic(auto, unfolding(crate::specs::Symbols::find_name))]
    pub fn find(&self, name: &[u8]) -> Option<Definition<'a>>
        ensures { option_map definition_of result ≡ find_name name.now self.now }
    {
        match self.here {
            Some(value) if name == HERE => Some(Definition {
                name: HERE,
                value,
                constant: false,
            }),
            _ => self.names.find(name),
        }
    }
}
