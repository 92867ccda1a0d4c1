//! Rows of numbers that are allocated when the first of them is set.

ghost use Rattle.std.specs.Prelude.{◌≡◌, ◌<◌, ◌≤◌, ℕ, IfErr, IfOk, OnOk, get_or, length, max};
ghost use Rattle.info65.specs.Words.{out_of_memory};

use crate::fault::InfoFault;
use std::alloc::Allocator;
use std::marker::Model;

/// A number, in four bytes. It fails with Memory past 2^32 - 1: no table has room for more.
pub fn narrow(number: usize) -> Result<u32, InfoFault>
    ensures ok { IfOk result (λ n. n ≡ number) }
    ensures err { IfErr result (λ e. (e ≡ out_of_memory) × (0xFFFF_FFFF < number)) }
{
    if number <= 0xFFFF_FFFF {
        Ok(number as u32)
    } else {
        Err(InfoFault::MEMORY)
    }
}

// Adds cells of 0 where there are fewer than that many.
fn fill_up<A: Allocator>(cells: &mut Vec<u32, A>, count: usize) -> Result<(), InfoFault>
    ensures size { OnOk result (count ≤ length cells.new.items) }
    ensures bound { length cells.new.items ≤ max (length cells.old.items) count }
    ensures same { (k : ℕ) → get_or cells.new.items k 0 ≡ get_or cells.old.items k 0 }
    ensures err { IfErr result (λ e. e ≡ out_of_memory) }
{
    if cells.len() >= count {
        return Ok(());
    }
    cells.resize(count, 0)?;
    Ok(())
}

/// A row of numbers, each of which is 0 at first. A contract sees how many there are and the list of
/// them, which is empty until one is set.
#[derive(Drop)]
pub struct Numbers<A: Allocator> {
    count: usize,
    cells: Vec<u32, A>,
}

impl<A: Allocator> Model for Numbers<A> {
    ghost use Rattle.std.specs.Prelude.{◌<◌, ◌≤◌, length};
    ghost use Rattle.info65.specs.Code.Numbers.{NumbersView};

    ghost Value = { NumbersView };

    ghost view = { λ n. record { count = n.count; cells = n.cells.items } };

    ghost invariant = { λ n. (0 < n.count) × (length n.cells.items ≤ n.count) };
}

impl<A: Allocator> Numbers<A> {
    ghost use Rattle.std.specs.Prelude.{◌≡◌, ◌<◌, ◌≤◌, ℕ, [], IfErr, OnOk, get_or, length};
    ghost use Rattle.info65.specs.Words.{IsSet, out_of_memory};

    /// So many numbers, each of which is 0. Allocates nothing.
    pub fn new(alloc: A, count: usize) -> Self
        requires { 0 < count }
        ensures count { result.count ≡ count }
        ensures cells { result.cells ≡ [] }
    {
        Numbers {
            count,
            cells: Vec::new(alloc),
        }
    }

    /// How many numbers there are.
    pub fn count(&self) -> usize
        ensures value { result ≡ self.now.count }
        ensures some { 0 < result }
    {
        self.count
    }

    /// The number at a place.
    pub fn at(&self, place: usize) -> usize
        ensures { result ≡ get_or self.now.cells place 0 }
    {
        match self.cells.get(place) {
            Some(number) => *number as usize,
            None => 0,
        }
    }

    /// The numbers, or none where none is set.
    pub fn cells(&self) -> &[u32]
        ensures value { result.now ≡ self.now.cells }
        ensures bound { length result.now ≤ self.now.count }
    {
        self.cells.as_slice()
    }

    /// Allocates the row, if that was not done before.
    pub fn widen(&mut self) -> Result<(), InfoFault>
        ensures count { self.new.count ≡ self.old.count }
        ensures size { OnOk result (self.new.count ≤ length self.new.cells) }
        ensures same { (k : ℕ) → get_or self.new.cells k 0 ≡ get_or self.old.cells k 0 }
        ensures err { IfErr result (λ e. e ≡ out_of_memory) }
    {
        fill_up(&mut self.cells, self.count)
    }

    /// Sets the number at a place of a row that is allocated.
    pub fn set(&mut self, place: usize, number: u32)
        requires { place < length self.old.cells }
        ensures count { self.new.count ≡ self.old.count }
        ensures set { IsSet place number self.old.cells self.new.cells }
    {
        self.cells[place] = number;
    }
}
