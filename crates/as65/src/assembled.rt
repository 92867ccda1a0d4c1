//! A listing and its bytes.

ghost use Rattle.std.specs.Prelude.{◌≡◌, ◌<◌, Ok, IfErr, IfOk, OnErr, OnOk, length};
ghost use Rattle.std.specs.Io.KnownBytes.{Appends};
ghost use Rattle.files65.specs.Faults.{IsEmpty};
ghost use Rattle.map65.specs.Words.{AppendsFront, Counts};
ghost use Rattle.stmt65.specs.Words.{source_meaning};
ghost use Rattle.as65.specs.Words.{AssembledView, Reports, moves_in, seen};

use crate::failure::Failure;
use crate::moves::{Label, labels_in};
use files65::{FileFault, failure_of, write_text};
use map65::Sink;
use std::alloc::{AllocError, Global};
use std::marker::Model;
use stmt65::{
    Assembly, LineEnds, Source, Symbols, assemble_explained, assemble_lines, line_addresses,
};

/// A text that assembles, and its bytes.
#[derive(Drop)]
pub struct Assembled<'s, 't, 'l, 'n> {
    source: &'s Source<'t, 'l, 'n>,
    bytes: Vec<u8>,
}

impl<'s, 't, 'l, 'n> Model for Assembled<'s, 't, 'l, 'n> {
    ghost Value = { AssembledView };

    ghost view = { λ a. seen a.source.now a.bytes.items };

    ghost invariant = { λ a. source_meaning a.source.now ≡ Ok a.bytes.items };
}

impl<'s, 't, 'l, 'n> Assembled<'s, 't, 'l, 'n> {
    /// Assembles the listing of this name. Fails with its first fault.
    pub fn new(
        alloc: Global,
        source: &'s Source<'t, 'l, 'n>,
        name: &str,
    ) -> Result<Assembled<'s, 't, 'l, 'n>, Failure>
        /// A text assembles to exactly the bytes that it means in its language, from its start, with its segments
        /// where its layout says. Otherwise the failure has the line and kind of its first fault, the name of the
        /// listing, a hint or none, and the beginning of the line; or out of memory. Bytes are written by a call of
        /// `Assembled`, and only a text without a fault makes one.
        ensures whole { IfOk result (λ a. a ≡ seen source.entry.now a.bytes) }
        ensures means { IfOk result (λ a. source_meaning source.entry.now ≡ Ok a.bytes) }
        ensures fault { IfErr result (Reports name.now source.entry.now) }
    {
        match assemble_explained(alloc, source) {
            Ok(bytes) => Ok(Assembled { source, bytes }),
            Err(explained) => Err(failure_of(alloc, explained, name, source)),
        }
    }

    /// The text, its language, and where it and its segments begin.
    pub fn source(&self) -> &'s Source<'t, 'l, 'n>
        /// Returns the source that was given: it means the bytes, and has the same address after each line.
        ensures { self.now ≡ seen result.now self.now.bytes }
    {
        self.source
    }

    /// The bytes that the text means.
    pub fn bytes(&self) -> &[u8]
        /// Returns the bytes that the source means.
        ensures bytes { result.now ≡ self.now.bytes }
        ensures means { self.now.means ≡ Ok result.now }
    {
        self.bytes.as_slice()
    }

    /// The address after each line.
    pub fn ends(&self, alloc: Global) -> Result<Vec<u64>, AllocError>
        ensures { IfOk result (λ ends. ends.items ≡ self.now.ends) }
    {
        line_addresses(alloc, self.source)
    }

    /// Writes the bytes.
    pub fn write<W: Sink>(&self, out: &mut W) -> Result<(), FileFault>
        /// Writes exactly the bytes that the listing means from its start. If a write fails, a prefix of them has
        /// been written, and the failure says so. This holds for every output that reports its bytes.
        ensures whole { OnOk result (IfOk self.now.means (Appends (W.taken out.old) (W.taken out.new))) }
        ensures front { OnErr result (IfOk self.now.means (AppendsFront (W.taken out.old) (W.taken out.new))) }
        ensures count { Counts (W.faults out.old) (W.faults out.new) result }
        ensures failure { IfErr result (λ e. e ≡ FileFault.Writing) }
    {
        write_text(out, self.bytes())
    }
}

/// A text that assembles, with the address after each of its lines and what they define, all of one reading.
#[derive(Drop)]
pub struct Listed<'s, 't, 'l, 'n> {
    assembled: Assembled<'s, 't, 'l, 'n>,
    assembly: Assembly<'t, 's, Global>,
    ends: Vec<u64>,
}

impl<'s, 't, 'l, 'n> Model for Listed<'s, 't, 'l, 'n> {
    ghost Value = { AssembledView };

    ghost view = { λ l. l.assembled };

    ghost invariant = { λ l. l.ends.items ≡ l.assembled.ends };
}

impl<'s, 't, 'l, 'n> Listed<'s, 't, 'l, 'n> {
    /// Assembles the listing of this name. Fails with its first fault.
    pub fn new(
        alloc: &'s Global,
        source: &'s Source<'t, 'l, 'n>,
        name: &str,
    ) -> Result<Listed<'s, 't, 'l, 'n>, Failure>
        /// As in `Assembled::new`.
        ensures whole { IfOk result (λ a. a ≡ seen source.entry.now a.bytes) }
        ensures means { IfOk result (λ a. source_meaning source.entry.now ≡ Ok a.bytes) }
        ensures fault { IfErr result (Reports name.now source.entry.now) }
    {
        match assemble_lines(alloc, source) {
            Ok(assembly) => {
                let bytes = Vec::from_slice(*alloc, assembly.bytes.as_slice())?;
                let ends = ends_of(*alloc, &assembly.ends)?;
                let assembled = Assembled { source, bytes };
                Ok(Listed {
                    assembled,
                    assembly,
                    ends,
                })
            }
            Err(explained) => Err(failure_of(*alloc, explained, name, source)),
        }
    }

    /// The text and its bytes.
    pub fn assembled(&self) -> &Assembled<'s, 't, 'l, 'n>
        ensures { result.now ≡ self.now }
    {
        &self.assembled
    }

    /// The bytes that the text means.
    pub fn bytes(&self) -> &[u8]
        ensures { result.now ≡ self.now.bytes }
    {
        self.assembled.bytes()
    }

    /// The address after each line.
    pub fn ends(&self) -> &[u64]
        ensures { result.now ≡ self.now.ends }
    {
        &self.ends
    }

    /// The labels `LXXXX` of the lines, in order.
    pub fn labels(&self, alloc: Global) -> Result<Vec<Label>, AllocError>
        ensures { IfOk result (λ labels. moves_in labels.items ≡ self.now.moves) }
    {
        let source = self.assembled.source();
        labels_in(alloc, source, false, &self.ends)
    }

    /// What the lines define.
    pub fn names(&self) -> &Symbols<'t, &'s Global> {
        &self.assembly.names
    }
}

/// The address after each line, one after the other.
fn ends_of(alloc: Global, ends: &LineEnds<&Global>) -> Result<Vec<u64>, AllocError>
    ensures { IfOk result (λ found. found.items ≡ ends.now) }
{
    let mut found = Vec::new(alloc);
    let mut left = ends.iter();
    'ends: while let Some(end) = left.next() {
        found.push(end)?;
    }
    Ok(found)
}

/// Refuses a listing of this name that has no operation and so gives no byte.
pub fn need_bytes(
    alloc: Global,
    assembled: &Assembled<'_, '_, '_, '_>,
    name: &str,
) -> Result<(), FileFault>
    /// Fails exactly if the listing gives no byte: with its name, or out of memory.
    ensures some { OnOk result (0 < length assembled.now.bytes) }
    ensures none { OnErr result (length assembled.now.bytes ≡ 0) }
    ensures failure { IfErr result (IsEmpty name.now) }
{
    if assembled.bytes().is_empty() {
        return Err(FileFault::Empty(String::from_str(alloc, name)?));
    }
    Ok(())
}
