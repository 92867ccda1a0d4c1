//! What the groups of the lines `#: ..` wish to stand at which address.

use crate::by_address::ByAddress;
use crate::complaint::{Complaint, Refusal};
use crate::known::Known;
use crate::marks::NamedBytes;
use crate::reference::{Offset, Reference};
use crate::used_names::UsedNames;
use info65::{Tag, TagKind};
use isa65::{Cpu, OpcodeSet, OperandKind, Row};
use std::alloc::Global;
use stmt65::{Half, Source};

/// What is to stand in the place of a byte or a word.
#[derive(Clone, Copy)]
pub enum Wish<'t> {
    /// The half of an address.
    Half(Half, Reference<'t>),
    /// What the value of the first name is above that of the second.
    Difference(&'t [u8], &'t [u8]),
    /// The second byte of a difference.
    Second,
    /// The address that the instruction that begins there has as its operand.
    Address(Reference<'t>),
}

/// A wish, and the line of the information file on which its group begins.
#[derive(Clone, Copy)]
pub struct Wished<'t> {
    pub line: u32,
    pub wish: Wish<'t>,
}

/// The wishes of all groups, and the names that lines use.
#[derive(Drop)]
pub struct Wishes<'t> {
    by_address: ByAddress<Wished<'t>>,
    pub names: UsedNames<'t>,
}

/// A group, what is known of the listing, and which bytes are numbers.
#[derive(Clone, Copy)]
struct TagGroup<'g, 't> {
    known: &'g Known<'g, 't>,
    named: &'g NamedBytes,
    tag: Tag,
}

impl<'g, 't> TagGroup<'g, 't> {
    fn refusal(self, complaint: Complaint) -> Refusal {
        Refusal::Group(self.tag.line, complaint)
    }

    /// The byte at an address.
    fn byte(self, address: u16) -> Result<u8, Refusal> {
        let byte = self.known.byte(u64::from(address));
        byte.ok_or(self.refusal(Complaint::NoLine(u32::from(address))))
    }

    /// The word at an address, low byte first.
    fn word(self, address: u16) -> Result<u16, Refusal> {
        let low = self.byte(address)?;
        let high = self.byte(self.later(address, 1)?)?;
        Ok(u16::from_le_bytes([low, high]))
    }

    /// The address that the instruction at an address has as its operand, by the opcodes of all CPUs.
    fn operand(self, address: u16) -> Result<u16, Refusal> {
        if let Some(op) = Cpu::M65C02.decode(self.byte(address)?) {
            let place = self.later(address, 1)?;
            match op.mode.row() {
                Row::One(_, OperandKind::Word) => return self.word(place),
                Row::One(_, OperandKind::ZeroPage) => return Ok(u16::from(self.byte(place)?)),
                _ => {}
            }
        }
        Err(self.refusal(Complaint::NoAddress(address)))
    }

    /// The address this many bytes after one.
    fn later(self, address: u16, count: u16) -> Result<u16, Refusal> {
        let place = u32::from(address) + u32::from(count);
        u16::try_from(place).or(Err(self.refusal(Complaint::NoLine(place))))
    }

    /// The address this many bytes after one, if there is one.
    fn place(self, address: Option<u16>, count: u16) -> Result<Option<u16>, Refusal> {
        address
            .map(|address| self.later(address, count))
            .transpose()
    }

    /// The name of an address.
    fn name_at(self, address: u16) -> Result<&'t [u8], Refusal> {
        let name = self.known.name_at(address);
        name.ok_or(self.refusal(Complaint::NoName(address)))
    }

    /// Whether a group NUMBER has the byte of a pair, by where the first of its kind is.
    fn is_number(self, first: Option<u16>, place: u16) -> bool {
        match first {
            Some(first) => self.named.is_number(u64::from(first) + u64::from(place)),
            None => false,
        }
    }

    /// Whether a pair counts: no group NUMBER has a byte of it.
    fn counts(self, place: u16) -> bool {
        !self.is_number(self.tag.low, place) && !self.is_number(self.tag.high, place)
    }

    /// The byte of a pair, by where the first of its kind is.
    fn half_byte(self, first: Option<u16>, place: u16) -> Option<u8> {
        self.known.byte(u64::from(first?) + u64::from(place))
    }

    /// The address of a pair: that which the group has, or else that of its bytes.
    fn pair_address(self, place: u16) -> Option<u16> {
        if self.tag.address.is_some() {
            return self.tag.address;
        }
        let low = self.half_byte(self.tag.low, place)?;
        let high = self.half_byte(self.tag.high, place)?;
        Some(u16::from_le_bytes([low, high]))
    }

    /// Whether the address of a pair has to be written by the name of the next one.
    fn is_return(self, place: u16) -> bool {
        let Some(address) = self.pair_address(place) else {
            return false;
        };
        match self.known.name_for(false, address) {
            Some(Reference { offset, .. }) => matches!(offset, Offset::Minus(_)),
            None => false,
        }
    }

    /// Whether this is a table of return addresses: one of its addresses has to be written by the name of the next
    /// one.
    fn are_returns(self, count: u16) -> bool {
        1 < count && (0..count).any(|place| self.counts(place) && self.is_return(place))
    }
}

impl<'t> Wishes<'t> {
    /// No wishes.
    pub fn none(alloc: Global) -> Wishes<'t> {
        Wishes {
            by_address: ByAddress::none(alloc),
            names: UsedNames::none(),
        }
    }

    /// Takes the wishes of these groups.
    pub fn take_all<'g>(
        &mut self,
        known: &'g Known<'g, 't>,
        named: &'g NamedBytes,
        tags: &[Tag],
    ) -> Result<(), Refusal> {
        for &tag in tags {
            self.take(TagGroup { known, named, tag })?;
        }
        Ok(())
    }

    fn take(&mut self, group: TagGroup<'_, 't>) -> Result<(), Refusal> {
        match group.tag.kind {
            TagKind::Halves => self.take_halves(group),
            TagKind::Difference => self.take_difference(group),
            TagKind::After => match group.tag.first {
                Some(first) if usize::from(first) < group.known.end() => {
                    Err(group.refusal(Complaint::Inside(first)))
                }
                _ => Ok(()),
            },
            TagKind::Base => self.take_base(group),
            TagKind::Entry | TagKind::Inline | TagKind::Number => Ok(()),
        }
    }

    /// The pairs of a group. A pair with a byte of a group NUMBER counts for nothing.
    fn take_halves(&mut self, group: TagGroup<'_, 't>) -> Result<(), Refusal> {
        let count = group.tag.size.unwrap_or(1);
        let returns = group.are_returns(count);
        for place in 0..count {
            if group.counts(place) {
                self.take_pair(group, returns, place)?;
            }
        }
        Ok(())
    }

    /// The halves of a pair. One half is enough if the group has the address.
    fn take_pair(
        &mut self,
        group: TagGroup<'_, 't>,
        returns: bool,
        place: u16,
    ) -> Result<(), Refusal> {
        let low = group.place(group.tag.low, place)?;
        let high = group.place(group.tag.high, place)?;
        if group.tag.address.is_none() {
            for at in [low, high].into_iter().flatten() {
                group.byte(at)?;
            }
        }
        let Some(address) = group.pair_address(place) else {
            return Ok(());
        };
        let Some(reference) = group.known.name_for(returns, address) else {
            return Err(group.refusal(Complaint::NoName(address)));
        };
        self.names.use_name(reference.name)?;
        let [low_byte, high_byte] = address.to_le_bytes();
        for (half, at, byte) in [(Half::Low, low, low_byte), (Half::High, high, high_byte)] {
            let Some(at) = at else { continue };
            if group.byte(at)? != byte {
                return Err(group.refusal(Complaint::NotHalf(at, address)));
            }
            self.wish(group, at, Wish::Half(half, reference))?;
        }
        Ok(())
    }

    fn take_difference(&mut self, group: TagGroup<'_, 't>) -> Result<(), Refusal> {
        let tag = group.tag;
        let (Some(at), Some(from), Some(to)) = (tag.address, tag.first, tag.last) else {
            return Ok(());
        };
        if to < from || group.word(at)? != to - from {
            return Err(group.refusal(Complaint::NotDifference(at)));
        }
        let (to, from) = (group.name_at(to)?, group.name_at(from)?);
        self.names.use_name(to)?;
        self.names.use_name(from)?;
        self.wish(group, at, Wish::Difference(to, from))?;
        self.wish(group, group.later(at, 1)?, Wish::Second)
    }

    fn take_base(&mut self, group: TagGroup<'_, 't>) -> Result<(), Refusal> {
        let (Some(at), Some(base)) = (group.tag.address, group.tag.first) else {
            return Ok(());
        };
        let operand = group.operand(at)?;
        let name = group.name_at(base)?;
        self.names.use_name(name)?;
        let offset = match (operand.saturating_sub(base), base.saturating_sub(operand)) {
            (0, 0) => Offset::Zero,
            (0, less) => Offset::Minus(less),
            (more, _) => Offset::Plus(more),
        };
        self.wish(group, at, Wish::Address(Reference { name, offset }))
    }

    fn wish(&mut self, group: TagGroup<'_, 't>, at: u16, wish: Wish<'t>) -> Result<(), Refusal> {
        if self.by_address.get(u64::from(at)).is_some() {
            return Err(group.refusal(Complaint::Twice(at)));
        }
        let line = group.tag.line;
        Ok(self.by_address.put(at, Wished { line, wish })?)
    }

    /// What is wished to stand at an address.
    pub fn at(&self, address: u64) -> Option<Wished<'t>> {
        self.by_address.get(address)
    }

    /// Whether something is wished of one of the bytes from an address to before another.
    pub fn has_one(&self, at: u64, end: u64) -> bool {
        (at..end).any(|address| self.by_address.has(address))
    }
}
