//! Which name stands for an address.

use crate::by_address::ByAddress;
use crate::reference::{Offset, Reference};
use info65::Info;
use std::alloc::{AllocError, Global};
use stmt65::{Assembly, Definition};

/// What decides it: the names of the listing by the addresses that are their values, the names of the information
/// file, and the bytes of the listing from its start on.
#[derive(Drop)]
pub struct Known<'b, 't> {
    names: ByAddress<Definition<'t>>,
    info: &'b Info,
    start: u16,
    bytes: &'b [u8],
}

/// The names of these definitions. Of two names of one value the first counts, but one that moves with the lines
/// around it, as a label does, comes before one that does not.
fn names_of<'t>(
    alloc: Global,
    definitions: &[Definition<'t>],
) -> Result<ByAddress<Definition<'t>>, AllocError> {
    let mut names: ByAddress<Definition<'t>> = ByAddress::none(alloc);
    for &definition in definitions {
        let Some(address) = definition.address() else {
            continue;
        };
        match names.get(u64::from(address)) {
            Some(first) if definition.constant || !first.constant => {}
            _ => names.put(address, definition)?,
        }
    }
    Ok(names)
}

/// The address by the name of a definition, if there is one.
fn by<'t>(definition: Option<Definition<'t>>, offset: Offset) -> Option<Reference<'t>> {
    let Definition { name, .. } = definition?;
    Some(Reference { name, offset })
}

impl<'b, 't> Known<'b, 't> {
    /// What is known of a listing that from a start on assembles so.
    pub fn new(
        alloc: Global,
        start: u16,
        assembly: &'b Assembly<'t, '_, Global>,
        info: &'b Info,
    ) -> Result<Known<'b, 't>, AllocError> {
        Ok(Known {
            names: names_of(alloc, assembly.names.definitions())?,
            info,
            start,
            bytes: assembly.bytes.as_slice(),
        })
    }

    /// The address after the last byte.
    pub fn end(&self) -> usize {
        usize::from(self.start).saturating_add(self.bytes.len())
    }

    /// The name of an address.
    pub fn name_at(&self, address: u16) -> Option<&'t [u8]> {
        let Definition { name, .. } = self.names.get(u64::from(address))?;
        Some(name)
    }

    /// The byte at an address.
    pub fn byte(&self, address: u64) -> Option<u8> {
        let place = address.checked_sub(u64::from(self.start))?;
        self.bytes.get(place as usize).copied()
    }

    /// By its own name, or else by the name of which it is one of SIZE addresses.
    fn own_or_inside(&self, address: u16) -> Option<Reference<'t>> {
        let own = by(self.names.get(u64::from(address)), Offset::Zero);
        if own.is_some() {
            return own;
        }
        let given = self.info.covering(address)?;
        let offset = Offset::Plus(address.saturating_sub(given.address));
        by(self.names.get(u64::from(given.address)), offset)
    }

    /// By the name of the next address, if that moves with it: that of a constant line does not move with a byte of
    /// the image before it.
    fn next(&self, address: u16) -> Option<Reference<'t>> {
        let address = u64::from(address);
        let definition = self.names.get(address + 1)?;
        if definition.constant && self.byte(address).is_some() {
            return None;
        }
        by(Some(definition), Offset::Minus(1))
    }

    /// An address by a name: its own; or else that of which it is one of SIZE addresses; or else that of the next
    /// address, since a return address is one less than where the CPU goes on. In a table of return addresses that
    /// comes first.
    pub fn name_for(&self, returns: bool, address: u16) -> Option<Reference<'t>> {
        let (first, last) = if returns {
            (self.next(address), self.own_or_inside(address))
        } else {
            (self.own_or_inside(address), self.next(address))
        };
        if first.is_some() { first } else { last }
    }
}
