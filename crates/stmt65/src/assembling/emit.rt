//! The length of a coding, and its bytes.

ghost use Rattle.std.specs.Prelude.{◌≡◌, [], ◌∷◌, ◌&&◌};
ghost use Rattle.stmt65.specs.Words.{Emits, coded_of, coding_len, data_fragments, datum_fragments, datum_of, entry_fragments, fragment_len, fragment_of, held, instruction_of, operand_of};

use crate::assembling::coding::{Coded, Fragment, Instruction, Operand};
use crate::assembling::entries::size;
use crate::assembling::fragment_bytes::{is_fragment_known, put_fragment};
use crate::assembling::symbols::LineNames;
use crate::directive::Directive;
use crate::source_line::{Datum, Value};
use std::alloc::{AllocError, Allocator};

fn fragment_len(fragment: Fragment) -> u64
    ensures { result ≡ held (fragment_len (fragment_of fragment.entry)) }
{
    match fragment {
        Fragment::Entry(directive, _) => size(directive),
        Fragment::Reserved(count, _) => count.value(),
        Fragment::Gap(count, _) => u64::from(count),
        Fragment::Half(_, _)
        | Fragment::Single(_)
        | Fragment::ZeroPage(_)
        | Fragment::Oversized(_)
        | Fragment::Distance(_) => 1,
    }
}

#[tactic(auto, using(crate::proofs::CodingLemmas::text_len), unfolding(crate::specs::Coding::coding_len))]
fn datum_len(datum: &Datum) -> u64
    ensures { result ≡ held (coding_len (datum_fragments (datum_of datum.now))) }
{
    match datum {
        Datum::String(bytes) => bytes.len() as u64,
        Datum::Number(_) | Datum::Value(_) | Datum::Half(_, _) => 1,
    }
}

#[tactic(auto, using(crate::proofs::CodingLemmas::data_step), unfolding(crate::specs::Coding::coding_len))]
fn data_len(items: &[Datum]) -> u64
    ensures { result ≡ held (coding_len (data_fragments items.now)) }
{
    let mut len: u64 = 0;
    'data: for datum in items {
        len = len.saturating_add(datum_len(datum));
    }
    len
}

#[tactic(auto, using(crate::proofs::CodingLemmas::entries_len))]
fn values_len(directive: Directive, values: &[Value]) -> u64
    ensures { result ≡ held (coding_len (entry_fragments directive values.now)) }
{
    (values.len() as u64).saturating_mul(size(directive))
}

#[tactic(auto, using(crate::proofs::CodingLemmas::instruction_lens))]
fn instruction_len(instruction: Instruction) -> u64
    ensures { result ≡ held (coding_len (instruction_of instruction.entry)) }
{
    match instruction.operand {
        Operand::None => 1,
        Operand::One(fragment) => fragment_len(fragment).saturating_add(1),
        Operand::Two(first, second) => fragment_len(first)
            .saturating_add(fragment_len(second))
            .saturating_add(1),
    }
}

/// How many bytes the coding has; 2^64 - 1 in place of every greater length.
#[tactic(auto, unfolding(crate::specs::Coding::coding_len))]
pub fn coded_len(coded: Coded) -> u64
    ensures { result ≡ held (coding_len (coded_of coded.entry)) }
{
    match coded {
        Coded::Nothing => 0,
        Coded::Instruction(instruction) => instruction_len(instruction),
        Coded::Fill(fragment) => fragment_len(fragment),
        Coded::Data(data) => data_len(data),
        Coded::Values(directive, values) => values_len(directive, values),
    }
}

/// What a coding has in a table of names, in which its values may have no room.
#[derive(Clone, Copy)]
pub struct Fit {
    /// Whether each of its names has a definition.
    pub is_known: bool,
    /// Whether each of its values has room.
    pub has_room: bool,
}

/// That of no bytes.
pub const FITS: Fit = Fit {
    is_known: true,
    has_room: true,
};

/// That of two codings together.
fn both(one: Fit, other: Fit) -> Fit
    ensures known { result.is_known ≡ (one.is_known && other.is_known) }
    ensures room { result.has_room ≡ (one.has_room && other.has_room) }
{
    Fit {
        is_known: one.is_known && other.is_known,
        has_room: one.has_room && other.has_room,
    }
}

#[tactic(auto, using(crate::proofs::CodingLemmas::fits_put, crate::proofs::CodingLemmas::misses_put))]
fn put<A: Allocator + Clone, B: Allocator>(
    out: &mut Vec<u8, B>,
    names: &LineNames<'_, '_, '_, A>,
    next: u64,
    fragment: Fragment,
) -> Result<Fit, AllocError>
    ensures { Emits result names.now next (fragment_of fragment.entry ∷ []) out.old out.new }
{
    if put_fragment(out, names, next, fragment)? {
        return Ok(FITS);
    }
    Ok(Fit {
        is_known: is_fragment_known(names, fragment),
        has_room: false,
    })
}

#[tactic(auto, using(crate::proofs::CodingLemmas::text_put))]
fn put_datum<A: Allocator + Clone, B: Allocator>(
    out: &mut Vec<u8, B>,
    names: &LineNames<'_, '_, '_, A>,
    next: u64,
    datum: &Datum,
) -> Result<Fit, AllocError>
    ensures { Emits result names.now next (datum_fragments (datum_of datum.now)) out.old out.new }
{
    match datum {
        Datum::Number(number) => {
            let value = Value::Number(*number);
            put(out, names, next, Fragment::Single(&value))
        }
        Datum::Value(value) => put(out, names, next, Fragment::Single(value)),
        Datum::Half(half, value) => put(out, names, next, Fragment::Half(*half, value)),
        Datum::String(bytes) => {
            out.extend_from_slice(bytes)?;
            Ok(FITS)
        }
    }
}

#[tactic(auto, using(crate::proofs::CodingLemmas::data_put))]
fn put_data<A: Allocator + Clone, B: Allocator>(
    out: &mut Vec<u8, B>,
    names: &LineNames<'_, '_, '_, A>,
    next: u64,
    items: &[Datum],
) -> Result<Fit, AllocError>
    ensures { Emits result names.now next (data_fragments items.now) out.old out.new }
{
    let mut fit = FITS;
    'data: for datum in items {
        fit = both(fit, put_datum(out, names, next, datum)?);
    }
    Ok(fit)
}

#[tactic(auto, using(crate::proofs::CodingLemmas::entries_put))]
fn put_values<A: Allocator + Clone, B: Allocator>(
    out: &mut Vec<u8, B>,
    names: &LineNames<'_, '_, '_, A>,
    next: u64,
    directive: Directive,
    values: &[Value],
) -> Result<Fit, AllocError>
    ensures { Emits result names.now next (entry_fragments directive values.now) out.old out.new }
{
    let mut fit = FITS;
    'values: for value in values {
        fit = both(
            fit,
            put(out, names, next, Fragment::Entry(directive, value))?,
        );
    }
    Ok(fit)
}

#[tactic(auto, using(crate::proofs::CodingLemmas::more_put, crate::proofs::CodingLemmas::nothing_put))]
fn put_operand<A: Allocator + Clone, B: Allocator>(
    out: &mut Vec<u8, B>,
    names: &LineNames<'_, '_, '_, A>,
    next: u64,
    operand: Operand,
) -> Result<Fit, AllocError>
    ensures { Emits result names.now next (operand_of operand.entry) out.old out.new }
{
    match operand {
        Operand::None => Ok(FITS),
        Operand::One(fragment) => put(out, names, next, fragment),
        Operand::Two(first, second) => {
            let fit = put(out, names, next, first)?;
            Ok(both(fit, put(out, names, next, second)?))
        }
    }
}

#[tactic(auto, using(crate::proofs::CodingLemmas::opcode_put))]
fn put_instruction<A: Allocator + Clone, B: Allocator>(
    out: &mut Vec<u8, B>,
    names: &LineNames<'_, '_, '_, A>,
    next: u64,
    instruction: Instruction,
) -> Result<Fit, AllocError>
    ensures { Emits result names.now next (instruction_of instruction.entry) out.old out.new }
{
    out.push(instruction.opcode)?;
    put_operand(out, names, next, instruction.operand)
}

/// Adds the bytes of a coding, as far as they have room; `next` is the address after it.
#[tactic(auto, using(crate::proofs::CodingLemmas::nothing_put))]
pub fn put_coded<A: Allocator + Clone, B: Allocator>(
    out: &mut Vec<u8, B>,
    names: &LineNames<'_, '_, '_, A>,
    next: u64,
    coded: Coded,
) -> Result<Fit, AllocError>
    ensures { Emits result names.now next (coded_of coded.entry) out.old out.new }
{
    match coded {
        Coded::Nothing => Ok(FITS),
        Coded::Instruction(instruction) => put_instruction(out, names, next, instruction),
        Coded::Fill(fragment) => put(out, names, next, fragment),
        Coded::Data(data) => put_data(out, names, next, data),
        Coded::Values(directive, values) => put_values(out, names, next, directive, values),
    }
}
