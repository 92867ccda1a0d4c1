//! A listing whose labels have left the address in their name: what its lines gave where they lay before.

use crate::assembled::Listed;
use crate::lines::PlacedLine;
use crate::moves::address_in_name;
use crate::parts::Part;
use files65::repair;
use map65::Image;
use std::alloc::{AllocError, Global};
use stmt65::{AsmFaultKind, Definition, Source, SourceLine, assemble_source, names_in, read_line};
use text65::put_decimal;

/// An image, a listing that begins where it does, and the lines and the parts of the listing.
#[derive(Clone, Copy)]
pub struct Scene<'c, 'a, 't, 'l, 'n> {
    pub alloc: Global,
    pub image: &'c Image,
    pub listed: &'c Listed<'a, 't, 'l, 'n>,
    pub lines: &'c [PlacedLine<'t>],
    pub parts: &'c [Part],
}

impl<'c, 'a, 't, 'l, 'n> Scene<'c, 'a, 't, 'l, 'n> {
    /// The bytes of the listing.
    pub fn bytes(&self) -> &'c [u8] {
        self.listed.assembled().bytes()
    }

    /// The text of the listing, and how it is read.
    fn source(&self) -> &'a Source<'t, 'l, 'n> {
        self.listed.assembled().source()
    }

    /// The address that something had, by the beginning of the part that has it, or by its end.
    fn address(&self, now: u64, by_end: bool) -> Option<u64> {
        let start = u64::from(self.image.start());
        let at = now.checked_sub(start)? as usize;
        let count = self.parts.partition_point(|part| part.is.at <= at);
        let Part { was, is } = *self.parts.get(count.checked_sub(1)?)?;
        let (was, is) = if by_end {
            (was.end, is.end)
        } else {
            (was.at, is.at)
        };
        start.checked_add(at.checked_add(was)?.checked_sub(is)? as u64)
    }

    /// The value that a name had: a constant has not moved, and a label `LXXXX` was at the address in its name.
    fn value(&self, name: Definition<'_>, by_end: bool) -> Option<u64> {
        if name.constant {
            return Some(name.value);
        }
        address_in_name(name.name).or(self.address(name.value, by_end))
    }

    /// A text of the line alone, with these names of its operands as they were. It is for the CPU that has all forms
    /// of the others.
    fn text(&self, line: &[u8], names: &[&[u8]], by_end: bool) -> Result<Vec<u8>, AllocError> {
        let mut text = Vec::from_slice(self.alloc, b".setcpu \"65C02\"\n")?;
        let mut after = Vec::new(self.alloc);
        for (place, &name) in names.iter().enumerate() {
            let above = names.get(..place).unwrap_or(&[]);
            if let Some(definition) = self.listed.names().all().find(name)
                && !above.contains(&name)
                && let Some(value) = self.value(definition, by_end)
            {
                // Of the names only constants may have zero-page size.
                let out = if definition.constant {
                    &mut text
                } else {
                    &mut after
                };
                out.extend_from_slice(name)?;
                put_decimal(out, b":=", value as usize)?;
                out.extend_from_slice(b"\n")?;
            }
        }
        text.extend_from_slice(line)?;
        text.extend_from_slice(b"\n")?;
        text.extend_from_slice(&after)?;
        Ok(text)
    }

    /// The bytes of a text at an offset of the image; none if it has a fault.
    fn meaning(&self, text: &[u8], at: usize) -> Result<Vec<u8>, AllocError> {
        let start = usize::from(self.image.start()).saturating_add(at);
        let Ok(start) = u16::try_from(start) else {
            return Ok(Vec::new(self.alloc));
        };
        match assemble_source(self.alloc, &repair(self.source().layout, start, text)) {
            Err(fault) if fault.kind == AsmFaultKind::Memory => Err(AllocError),
            result => Ok(result.unwrap_or(Vec::new(self.alloc))),
        }
    }

    /// The bytes that a line gave at an offset of the image, where that has these bytes now. Of the two ways to see its
    /// names the one by which both are alike, else the second.
    pub fn gave(
        &self,
        line: &PlacedLine<'_>,
        at: usize,
        old: &[u8],
    ) -> Result<Vec<u8>, AllocError> {
        let Some(SourceLine::Statement { label, operation }) = read_line(
            self.alloc,
            self.source().language,
            line.text,
        )?
        else {
            return Ok(Vec::new(self.alloc));
        };
        let mut names = names_in(self.alloc, &operation)?;
        names.retain(|name| Some(*name) != label);
        let gave = self.meaning(&self.text(line.text, &names, true)?, at)?;
        if gave.as_slice() == old {
            return Ok(gave);
        }
        self.meaning(&self.text(line.text, &names, false)?, at)
    }
}
