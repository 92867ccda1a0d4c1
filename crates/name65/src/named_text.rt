//! The listing by names.

ghost use Rattle.std.specs.Prelude.{◌≡◌, IfErr, IfOk, IsTrue, Ok};
ghost use Rattle.std.specs.String.{string_bytes};
ghost use Rattle.stmt65.specs.Words.{source_meaning};
ghost use Rattle.files65.specs.FaultyLine.{MayReport};
ghost use Rattle.name65.specs.NamedText.{IsNamed, MeansTheSame, listing_of};

use crate::changes::{Changed, changed_text};
use crate::failure::{Failure, Refused};
use crate::setup::Setup;
use files65::assembled;
use std::alloc::{AllocError, Global};
use stmt65::{Assembly, Source, assemble_known};

/// Whether a text in the place of that of the source, which assembles so, means the same bytes.
fn means_the_same<'t, 'b>(
    alloc: Global,
    source: &Source<'t, '_, '_>,
    assembly: &Assembly<'t, 'b, Global>,
    changed: &Changed<'t, 'b>,
) -> Result<bool, AllocError>
    requires { source_meaning source.now ≡ Ok assembly.now.bytes.items }
    ensures { IfOk result
        (λ same. IsTrue same → MeansTheSame (listing_of source.now) changed.now.text.items) }
{
    let text = changed.text.as_slice();
    if text == source.text {
        return Ok(true);
    }
    let names = changed.names.as_ref().unwrap_or(&assembly.names);
    match assemble_known(&alloc, &Source { text, ..*source }, names)? {
        Some(found) => Ok(found.as_slice() == assembly.bytes.as_slice()),
        None => Ok(false),
    }
}

/// Writes the listing as the groups of the lines `#: ..` ask: halves of addresses, operands and
/// differences by names, and names after the image where it ends. The information file says how many addresses a name
/// covers. With `--used` the constant lines of names that no other line uses are left out.
///
/// Nothing is trusted for the promise: each line that changes is read once more, the text is assembled too, and unless
/// it gives the bytes of the listing, there is none.
pub fn named_text(
    alloc: Global,
    source: &Source<'_, '_, '_>,
    setup: &Setup<'_>,
) -> Result<Vec<u8>, Failure>
    /// The text means exactly the bytes that the listing means, from the same start.
    ensures same { IfOk result (λ text. MeansTheSame (listing_of source.now) text.items) }
    /// Each line of the listing stands in the text, in order, with a line feed, but for constant lines that are left
    /// out or move. A line of whose bytes groups name none is unchanged. In any other, label, operation, comment and
    /// each operand of which no group names a byte are the same, byte for byte, and so are the blanks before them, but
    /// not those before a comment. Only a `.byte` may become `.lobytes` or `.hibytes`. The operand of an instruction
    /// is named if one of the bytes of the instruction is. By `same` the operands that differ have equal values.
    ///
    /// A constant line is left out only with `--used`. It moves after the last line if a group names its value and
    /// that is not before the end of the text: there a line defines the same name with the same value, `NAME := * +
    /// n`, with the same comment. Nothing else comes after the last line. That no line uses a name that was left out
    /// follows from `same`: a text that uses an undefined name means nothing.
    ensures rest { IfOk result (λ text. IsNamed (listing_of source.now) setup.now text.items) }
    /// If a line of the listing is reported, it is the line of the first fault, with the name of the listing, a hint or
    /// none, and the beginning of the line, as as65 reports it.
    ensures fault { IfErr result
        (MayReport (string_bytes setup.now.naming.now.names.listing) source.now) }
{
    let assembly = assembled(&alloc, setup.naming.names.listing.as_str(), source)?;
    let changed = changed_text(&alloc, source, &assembly, setup)?;
    if !means_the_same(alloc, source, &assembly, &changed)? {
        return Err(Failure::Own(Refused::Changed));
    }
    Ok(changed.text)
}
