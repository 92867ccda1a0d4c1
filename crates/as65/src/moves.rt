//! Where labels leave the address in their name: da65 calls an address `LXXXX` that has no name.

ghost use Rattle.std.specs.Prelude.{◌≡◌, ◌<◌, ◌++◌, [], IfErr, IfOk, IfSome, OnOk, flat_map};
ghost use Rattle.stmt65.specs.Words.{parts, reading_of, source_readings};
ghost use Rattle.as65.specs.Words.{IsMoved, address_in_name, bytes_text, digit, distance_text, is_alike, label_in_line, labels_in, move_line, move_text, moves_in, what_lies};

use crate::assembled::Assembled;
use crate::failure::{Failure, Refused};
use std::alloc::{AllocError, Global};
use stmt65::{Source, SourceLine, read_line};
use text65::{first_line, put_address, put_decimal};

/// A label `LXXXX`: the number of its line, from 1, the address in its name, and the address at which it lies.
#[derive(Clone, Copy)]
pub struct Label {
    pub number: usize,
    pub named: u64,
    pub at: u64,
}

/// What the first label is compared with: it is where its name says.
pub const IN_PLACE: Label = Label {
    number: 0,
    named: 0,
    at: 0,
};

impl Label {
    /// The address that something had, by how far this label lies from the address in its name.
    pub fn earlier(self, at: u64) -> Option<u64> {
        at.checked_add(self.named)?.checked_sub(self.at)
    }
}

/// The value of a hex digit as da65 writes it.
fn digit(byte: u8) -> Option<u64>
    ensures value { result ≡ digit byte }
    ensures low { IfSome result (λ d. d < 16) }
{
    match byte {
        b'0'..=b'9' => Some(u64::from(byte - b'0')),
        b'A'..=b'F' => Some(u64::from(byte - b'A' + 10)),
        _ => None,
    }
}

/// The address in a name of the form LXXXX.
#[tactic(auto, unfolding(crate::specs::Moves::address_in_name))]
pub fn address_in_name(name: &[u8]) -> Option<u64>
    ensures { result ≡ address_in_name name.now }
{
    let [b'L', a, b, c, d] = name else {
        return None;
    };
    Some(digit(*a)? * 4096 + digit(*b)? * 256 + digit(*c)? * 16 + digit(*d)?)
}

/// The name of a line at `at` that has that form, and its address: its label; or, with `inner`, a name inside what
/// follows.
#[tactic(auto, unfolding(crate::specs::Moves::label_in_line))]
fn label_in_line(
    alloc: Global,
    source: &Source<'_, '_, '_>,
    inner: bool,
    number: usize,
    at: u64,
    line: &[u8],
) -> Result<Option<Label>, AllocError>
    ensures { IfOk result (λ found. found ≡ label_in_line inner number at
        (reading_of source.now.language (parts source.now.language line.now))) }
{
    let (name, at) = match read_line(alloc, source.language, line)? {
        Some(
            SourceLine::Statement {
                label: Some(name),
                ..
            },
        ) => (name, at),
        Some(SourceLine::PlaceAssignment(name, plus)) if inner => {
            (name, at.saturating_add(plus.value()))
        }
        _ => return Ok(None),
    };
    let named = address_in_name(name);
    Ok(named.map(|named| Label { number, named, at }))
}

/// The labels of a text, by the address after each of its lines; with `inner` also names inside instructions.
#[tactic(auto, unfolding(crate::specs::Moves::labels_in))]
pub fn labels_in(
    alloc: Global,
    source: &Source<'_, '_, '_>,
    inner: bool,
    ends: &[u64],
) -> Result<Vec<Label>, AllocError>
    /// Returns the labels `LXXXX` of the lines, in order, on demand also names inside instructions; or out of memory.
    ensures { IfOk result (λ found. found.items
        ≡ labels_in inner 1 source.now.start (source_readings source.now) ends.now) }
{
    let mut found = Vec::new(alloc);
    let mut number = 1;
    let mut at = u64::from(source.start);
    let mut rest = source.text;
    let mut left = ends;
    'lines: while let Some((line, after)) = first_line(rest) {
        let Some((end, later)) = left.split_first() else {
            return Ok(found);
        };
        found.extend_from_slice(label_in_line(alloc, source, inner, number, at, line)?.as_slice())?;
        number += 1;
        at = *end;
        rest = after;
        left = later;
    }
    Ok(found)
}

/// Whether two labels lie equally far from the address in their names, on the same side.
pub fn is_alike(one: Label, other: Label) -> bool
    ensures { result ≡ is_alike one other }
{
    u128::from(one.at) + u128::from(other.named) == u128::from(other.at) + u128::from(one.named)
}

/// The labels at which the distance from the address in the name changes: none if each label is at that address.
#[tactic(auto, unfolding(crate::specs::Moves::moves_after))]
pub fn moves_in(alloc: Global, labels: &[Label]) -> Result<Vec<Label>, AllocError>
    /// Returns the labels at which the distance changes: each that does not lie as far from the address in its name
    /// as the one before, the first compared with a label in place. Or out of memory.
    ensures { IfOk result (λ found. found.items ≡ moves_in labels.now) }
{
    let mut found = Vec::new(alloc);
    let mut last = IN_PLACE;
    'labels: for label in labels {
        if !is_alike(last, *label) {
            found.push(*label)?;
            last = *label;
        }
    }
    Ok(found)
}

/// Appends a number of bytes.
fn put_bytes(out: &mut Vec<u8>, count: u64) -> Result<(), AllocError>
    ensures { OnOk result (out.new.items ≡ out.old.items ++ bytes_text count) }
{
    put_decimal(out, b"", count as usize)?;
    out.extend_from_slice(if count == 1 {
        b" byte".as_slice()
    } else {
        b" bytes".as_slice()
    })
}

/// Appends how far something lies from the address in its name.
#[tactic(auto, unfolding(crate::specs::Moves::distance_text))]
fn put_distance(out: &mut Vec<u8>, named: u64, at: u64) -> Result<(), AllocError>
    ensures { OnOk result (out.new.items ≡ out.old.items ++ distance_text named at) }
{
    if named == at {
        return out.extend_from_slice(b"at their addresses again");
    }
    if named < at {
        put_bytes(out, at - named)?;
        return out.extend_from_slice(b" later");
    }
    put_bytes(out, named - at)?;
    out.extend_from_slice(b" earlier")
}

/// Appends what lies elsewhere, by the address in the name of a label.
#[tactic(auto, unfolding(crate::specs::Moves::what_lies))]
fn put_what_lies(out: &mut Vec<u8>, named: usize) -> Result<(), AllocError>
    ensures { OnOk result (out.new.items ≡ out.old.items ++ what_lies named) }
{
    put_address(out, b"L", named)?;
    out.extend_from_slice(b" and what follows lie ")
}

/// Appends what is said of a label from which on the distance is another.
#[tactic(auto, unfolding(crate::specs::Moves::move_text))]
fn put_move(out: &mut Vec<u8>, label: Label) -> Result<(), AllocError>
    ensures { OnOk result (out.new.items ≡ out.old.items ++ move_text label) }
{
    put_what_lies(out, label.named as usize)?;
    put_distance(out, label.named, label.at)
}

/// Appends that as a line, with the number of the label's line.
#[tactic(auto, unfolding(crate::specs::Moves::move_line))]
fn put_move_line(out: &mut Vec<u8>, label: Label) -> Result<(), AllocError>
    ensures { OnOk result (out.new.items ≡ out.old.items ++ move_line label) }
{
    put_decimal(out, b"line ", label.number)?;
    out.extend_from_slice(b": ")?;
    put_move(out, label)?;
    out.extend_from_slice(b"\n")
}

/// Appends a line for each of these labels.
pub fn put_moves(out: &mut Vec<u8>, moves: &[Label]) -> Result<(), AllocError>
    ensures { OnOk result (out.new.items ≡ out.old.items ++ flat_map move_line moves.now) }
{
    'moves: for label in moves {
        put_move_line(out, *label)?;
    }
    Ok(())
}

/// Refuses a listing of this name in which a label or a name inside an instruction is not at the address in its name,
/// with the first such name.
pub fn need_in_place(
    alloc: Global,
    assembled: &Assembled<'_, '_, '_, '_>,
    name: &str,
) -> Result<(), Failure>
    /// Passes a listing only if each label `LXXXX` of it and each name `LXXXX := * + n` is at $XXXX. Otherwise it
    /// fails with the line of the first that is not, and how far it lies from there, or memory ran out.
    ensures none { OnOk result (assembled.now.misplaced ≡ []) }
    ensures failure { IfErr result (IsMoved name.now assembled.now.misplaced) }
{
    let ends = assembled.ends(alloc)?;
    let labels = labels_in(alloc, assembled.source(), true, &ends)?;
    let moves = moves_in(alloc, &labels)?;
    let Some((first, _)) = moves.split_first() else {
        return Ok(());
    };
    let mut said = Vec::new(alloc);
    put_move(&mut said, *first)?;
    let name = String::from_str(alloc, name)?;
    Err(Failure::Own(Refused::Moved(name, first.number, said)))
}
