//! Where segments begin.

ghost use Rattle.std.specs.Prelude.{◌≡◌, [], IfOk, OnOk};
ghost use Rattle.stmt65.specs.Words.{start_of, with_start};

use crate::assembling::symbols::{Definition, Symbols};
use std::alloc::{AllocError, Allocator, Global};
use std::marker::Model;

/// The addresses at which segments begin, by their names, and the byte that fills what is missing before them.
#[derive(Drop)]
pub struct Layout<'a, A: Allocator = Global> {
    starts: Symbols<'a, A>,
    fill: u8,
}

impl<'a, A: Allocator> Model for Layout<'a, A> {
    ghost use Rattle.stmt65.specs.Layout.{Layout as ALayout};

    ghost Value = { ALayout };

    ghost view = { λ l. record { starts = l.starts; fill = l.fill } };
}

impl<'a, A: Allocator + Clone> Layout<'a, A> {
    /// No segment begins at a given address yet.
    ///
    /// Fails if an allocation is refused.
    pub fn new(alloc: A, fill: u8) -> Result<Self, AllocError>
        /// A layout has the byte that fills gaps, and no segment; or memory ran out.
        ensures { IfOk result (λ l. l ≡ record { starts = []; fill = fill }) }
    {
        let starts = Symbols::new(alloc, 0)?;
        Ok(Layout { starts, fill })
    }

    /// The segment of this name begins at an address, unless one of the name does already.
    ///
    /// Fails if an allocation is refused.
    pub fn add(&mut self, name: &'a [u8], start: u16) -> Result<(), AllocError>
        /// Adds a segment with its start after the others; or memory ran out.
        ensures { OnOk result (self.new ≡ with_start self.old name.now start) }
    {
        self.starts.define(Definition {
            name,
            value: u64::from(start),
            constant: true,
        })
    }

    /// The address at which the segment of a name begins, if there is one.
    pub fn start_of(&self, name: &[u8]) -> Option<u16>
        /// Returns the start of the segment of a name, if it has one. If a name was added twice, the first start
        /// counts.
        ensures { result ≡ start_of self.now name.now }
    {
        self.starts.all().find(name)?.address()
    }

    /// The byte that fills what is missing.
    pub fn fill(&self) -> u8
        /// Returns the byte that fills gaps.
        ensures { result ≡ self.now.fill }
    {
        self.fill
    }
}
