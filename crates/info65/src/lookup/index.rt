//! An index of names.

ghost use Rattle.std.specs.Prelude.{◌≡◌, ◌≢◌, ◌++◌, ◌∷◌, ℕ, AllPairs, IfErr, None, Ok, OnErr, OnOk, [], map, option_map};
ghost use Rattle.info65.specs.Words.{Gives, IsFoundAt, MayName, by_address, given_part, given_seen, is_at, is_elsewhere, name_adds, name_fault, numbered, optional_name_fault, out_of_memory, text_at};

use crate::fault::{InfoFault, InfoFaultKind};
use crate::information::name::Given;
use crate::information::pool::NamePool;
use crate::lookup::numbers::narrow;
use crate::lookup::pages::{PAGES, Pages};
use crate::lookup::texts::Texts;
use crate::syntax::names::is_reserved;
use std::alloc::Allocator;
use std::marker::Model;

// The bytes of the longest name.
const LONGEST_NAME: usize = 80;

/// Names, found by their addresses and by their texts without reading again what gives them. A contract sees the list
/// of them, in the order in which they were added.
#[derive(Drop)]
pub struct Index<'a, A: Allocator> {
    names: Vec<Given<'a>, A>,
    /// For each address the number of its name among these, from 1 on.
    numbers: Pages<A>,
    texts: Texts<'a, A>,
}

impl<'a, A: Allocator> Model for Index<'a, A> {
    ghost use Rattle.std.specs.Prelude.{List, map};
    ghost use Rattle.info65.specs.Code.Index.{IsIndex};
    ghost use Rattle.info65.specs.Code.Names.{given_seen};
    ghost use Rattle.info65.specs.Code.Texts.{texts_seen};
    ghost use Rattle.info65.specs.Views.{NameView};

    ghost Value = { List NameView };

    ghost view = { λ i. map given_seen i.names.items };

    ghost invariant = { λ i. IsIndex (map given_seen i.names.items) i.numbers (texts_seen i.texts) };
}

// The name with this number.
fn numbered<'a>(names: &[Given<'a>], number: usize) -> Option<Given<'a>>
    ensures { result ≡ numbered names.now number }
{
    if number == 0 {
        return None;
    }
    match names.get(number - 1) {
        Some(name) => Some(*name),
        None => None,
    }
}

impl<'a, A: Allocator + Copy> Index<'a, A> {
    ghost use Rattle.std.specs.List.{list_any};

    /// No names, where those of that many bytes are to come. Allocates nothing.
    pub fn new(alloc: A, bytes: usize) -> Self
        ensures { result ≡ [] }
    {
        let names = Vec::new(alloc);
        let numbers = Pages::new(alloc);
        let texts = Texts::new(alloc, bytes);
        Index {
            names,
            numbers,
            texts,
        }
    }

    // The address has a name.
    #[tactic(auto, using(crate::proofs::IndexLemmas::taken_found, std::proofs::lemmas::Grind::common_steps))]
    fn is_taken(&self, address: u16) -> bool
        ensures { result ≡ list_any (is_at address) self.now }
    {
        numbered(self.names.as_slice(), self.numbers.at(address)).is_some()
    }

    // The address of the name with this text. No two names have one text.
    fn address_of(&self, text: &'a [u8]) -> Option<u16>
        ensures address { result ≡ option_map (λ n. n.address) (text_at self.now text.entry.now) }
        ensures distinct { AllPairs (λ n m. n.text ≢ m.text) self.now }
    {
        match numbered(self.names.as_slice(), self.texts.slotted(text)) {
            Some(name) => {
                if text == name.text {
                    Some(name.address)
                } else {
                    self.texts.other(text)
                }
            }
            None => None,
        }
    }

    // The text of the name stands at another address.
    #[inline(always)]
    #[tactic(auto, using(crate::proofs::Rules::index_is_elsewhere_rules))]
    fn is_elsewhere(&self, name: Given<'a>) -> bool
        ensures { result ≡ list_any (is_elsewhere (given_seen name.entry)) self.now }
    {
        match self.address_of(name.text) {
            Some(address) => address != name.address,
            None => false,
        }
    }

    /// The fault of a name after these.
    #[tactic(auto, unfolding(crate::specs::Labels::name_fault))]
    pub fn name_fault(&self, name: Given<'a>) -> Option<InfoFaultKind>
        ensures { result ≡ name_fault self.now (given_seen name.entry) }
    {
        if is_reserved(name.address, name.text) {
            return Some(InfoFaultKind::ReservedName);
        }
        if self.is_elsewhere(name) {
            return Some(InfoFaultKind::NameTwice);
        }
        if self.is_taken(name.address) {
            return Some(InfoFaultKind::AddressTwice);
        }
        None
    }

    /// What a name of an include line adds, or its fault. A name of an address that has a name adds nothing.
    #[tactic(auto, unfolding(crate::specs::Includes::name_adds))]
    pub fn name_adds(&self, name: Given<'a>) -> Result<Option<Given<'a>>, InfoFaultKind>
        ensures { MayName result (name_adds self.now (given_seen name.entry)) }
    {
        if name.text.len() > LONGEST_NAME {
            return Err(InfoFaultKind::BadName);
        }
        if is_reserved(name.address, name.text) {
            return Err(InfoFaultKind::ReservedName);
        }
        if self.is_taken(name.address) {
            return Ok(None);
        }
        if self.is_elsewhere(name) {
            return Err(InfoFaultKind::NameTwice);
        }
        Ok(Some(name))
    }

    /// The fault of a name, if there is one, after these.
    pub fn optional_name_fault(&self, name: Option<Given<'a>>) -> Option<InfoFaultKind>
        ensures { result ≡ optional_name_fault self.now (option_map given_seen name.entry) }
    {
        match name {
            Some(name) => self.name_fault(name),
            None => None,
        }
    }

    /// Adds a name, which has no fault.
    #[inline(always)]
    pub fn add(&mut self, name: Given<'a>) -> Result<(), InfoFault>
        requires { name_fault self.old (given_seen name) ≡ None }
        ensures done { OnOk result (self.new ≡ self.old ++ given_seen name.entry ∷ []) }
        ensures same { OnErr result (self.new ≡ self.old) }
        ensures err { IfErr result (λ e. e ≡ out_of_memory) }
    {
        // What can fail comes first, so that names are found as they stand in the list, whatever fails.
        self.names.reserve(1)?;
        let number = narrow(self.names.len() + 1)?;
        self.numbers.widen(name.address)?;
        self.texts.add(name.text, name.address, number)?;
        self.numbers.set(name.address, number);
        self.names.push(name)?;
        Ok(())
    }

    /// Adds a name, which has no fault, if there is one.
    pub fn add_optional(&mut self, name: Option<Given<'a>>) -> Result<(), InfoFault>
        requires { optional_name_fault self.old (option_map given_seen name) ≡ None }
        ensures done { OnOk result (self.new ≡ self.old ++ given_part name.entry) }
        ensures same { OnErr result (self.new ≡ self.old) }
        ensures err { IfErr result (λ e. e ≡ out_of_memory) }
    {
        match name {
            Some(name) => self.add(name),
            None => Ok(()),
        }
    }

    /// The names, by address.
    #[tactic(auto, using(std::proofs::lemmas::Grind::common_steps))]
    pub fn names(self, alloc: A) -> Result<NamePool<A>, InfoFault>
        ensures { Gives (λ p. p) result (Ok (by_address self.entry)) }
    {
        let Index {
            names,
            numbers,
            texts,
        } = self;
        // What is not read again is given back before the pool grows.
        drop(texts);
        pooled(alloc, names.as_slice(), &numbers)
    }
}

// The names by address, in a pool. Pages without a name have no numbers.
fn pooled<A: Allocator + Copy>(
    alloc: A,
    names: &[Given],
    numbers: &Pages<A>,
) -> Result<NamePool<A>, InfoFault>
    requires { (a : ℕ) → IsFoundAt (map given_seen names.now) numbers.now a }
    ensures { Gives (λ p. p) result (Ok (by_address (map given_seen names.now))) }
{
    let mut pool = NamePool::with_room(alloc, names.len())?;
    for page in 0..PAGES {
        for number in numbers.page(page) {
            let Some(name) = numbered(names, *number as usize) else {
                continue;
            };
            pool.add(name)?;
        }
    }
    Ok(pool)
}
