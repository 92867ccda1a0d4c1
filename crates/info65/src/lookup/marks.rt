//! Tables with a cell for each address, which is set where the address is taken. They have none until one is set.

ghost use Rattle.std.specs.Prelude.{◌≡◌, ◌≤◌, ◌-◌, ◌+◌, IfErr, OnOk, length};
ghost use Rattle.info65.specs.Words.{AreSetAlike, AreSetToo, any_in, out_of_memory};

use crate::fault::InfoFault;
use std::alloc::Allocator;

/// How many addresses there are.
pub const ADDRESSES: usize = 0x1_0000;

/// The cell of an address from `first` to `last` is set.
pub fn is_marked(table: &[bool], first: u16, last: u16) -> bool
    ensures { result ≡ any_in table.now first (last + 1 - first) }
{
    // Each cell is looked at, so that the loop has no second way out and takes many cells at a time.
    let mut marked = false;
    let end = table.len().min(usize::from(last) + 1);
    for address in usize::from(first)..end {
        marked = marked | table[address];
    }
    marked
}

/// Gives the table a cell for each address.
pub fn widen<A: Allocator>(table: &mut Vec<bool, A>) -> Result<(), InfoFault>
    ensures size { OnOk result (length table.new.items ≡ 0x1_0000) }
    ensures same { AreSetAlike table.old.items table.new.items }
    ensures err { IfErr result (λ e. e ≡ out_of_memory) }
{
    table.resize(ADDRESSES, false)?;
    Ok(())
}

/// Sets the cells of the addresses from `first` to `last`.
pub fn mark<A: Allocator>(table: &mut Vec<bool, A>, first: u16, last: u16)
    requires size { length table.old.items ≡ 0x1_0000 }
    requires ordered { first ≤ last }
    ensures { AreSetToo first last table.old.items table.new.items }
{
    set(table.as_mut_slice(), first, last);
}

#[tactic(auto, using(crate::proofs::IndexLemmas::marked_end))]
fn set(table: &mut [bool], first: u16, last: u16)
    requires size { length table.old ≡ 0x1_0000 }
    requires ordered { first ≤ last }
    ensures size { length table.new ≡ length table.old }
    ensures marked { AreSetToo first last table.old table.new }
{
    for address in usize::from(first)..usize::from(last) + 1 {
        table[address] = true;
    }
}
