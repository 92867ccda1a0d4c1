//! A number for each address, in pages that take memory when the first of their numbers is set.

ghost use Rattle.std.specs.Prelude.{◌≡◌, ◌<◌, IfErr, OnOk, length};
ghost use Rattle.info65.specs.Words.{SamePages, out_of_memory};

use crate::fault::InfoFault;
use crate::lookup::numbers::Numbers;
use std::alloc::Allocator;
use std::marker::Model;

/// How many pages there are.
pub const PAGES: usize = 256;

/// How many addresses a page has.
const PAGE: usize = 256;

/// A number for each address, which is 0 at first. The names of most files lie in few pages.
#[derive(Drop)]
pub struct Pages<A: Allocator> {
    alloc: A,
    pages: Vec<Numbers<A>, A>,
}

impl<A: Allocator> Model for Pages<A> {
    ghost use Rattle.std.specs.Prelude.{List};
    ghost use Rattle.info65.specs.Code.Numbers.{ArePages, NumbersView};

    ghost Value = { List NumbersView };

    ghost view = { λ p. p.pages.items };

    ghost invariant = { λ p. ArePages p.pages.items };
}

// Adds pages without numbers, up to this one.
#[inline(always)]
fn add_pages<A: Allocator + Copy>(
    alloc: A,
    pages: &mut Vec<Numbers<A>, A>,
    last: usize,
) -> Result<(), InfoFault>
    ensures there { OnOk result (last < length pages.new.items) }
    ensures same { SamePages pages.old.items pages.new.items }
    ensures err { IfErr result (λ e. e ≡ out_of_memory) }
{
    'pages: while pages.len() <= last {
        pages.push(Numbers::new(alloc, PAGE))?;
    }
    Ok(())
}

impl<A: Allocator + Copy> Pages<A> {
    ghost use Rattle.std.specs.Prelude.{◌≡◌, ◌==◌, ◌≤◌, ℕ, [], IfErr, OnOk, get_or, if◌then◌else◌, length};
    ghost use Rattle.info65.specs.Code.Numbers.{HasCell, blank_page, number_at};
    ghost use Rattle.info65.specs.Faults.{out_of_memory};

    /// Each number is 0. Allocates nothing.
    pub fn new(alloc: A) -> Self
        ensures { result ≡ [] }
    {
        let pages = Vec::new(alloc);
        Pages { alloc, pages }
    }

    /// The number of an address.
    pub fn at(&self, address: u16) -> usize
        ensures { result ≡ number_at self.now address }
    {
        let address = usize::from(address);
        match self.pages.get(address / PAGE) {
            Some(page) => page.at(address % PAGE),
            None => 0,
        }
    }

    /// The numbers of a page, or none where none of its addresses has one.
    pub fn page(&self, page: usize) -> &[u32]
        ensures numbers { result.now ≡ (get_or self.now page blank_page).cells }
        ensures bound { length result.now ≤ 256 }
    {
        match self.pages.get(page) {
            Some(numbers) => numbers.cells(),
            None => &[],
        }
    }

    /// Makes room for the number of an address. After a failure each number is as before.
    #[inline(always)]
    pub fn widen(&mut self, address: u16) -> Result<(), InfoFault>
        ensures has { OnOk result (HasCell self.new address) }
        ensures same { (a : ℕ) → number_at self.new a ≡ number_at self.old a }
        ensures err { IfErr result (λ e. e ≡ out_of_memory) }
    {
        let page = usize::from(address) / PAGE;
        add_pages(self.alloc, &mut self.pages, page)?;
        self.pages[page].widen()
    }

    /// Sets the number of an address that has room for it.
    pub fn set(&mut self, address: u16, number: u32)
        requires { HasCell self.old address }
        ensures { (a : ℕ) → number_at self.new a ≡ (if address == a then number else number_at self.old a) }
    {
        let address = usize::from(address);
        self.pages[address / PAGE].set(address % PAGE, number);
    }
}
