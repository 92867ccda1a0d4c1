//! What the fault of a line is about, for messages. No fault depends on it.

ghost use Rattle.std.specs.Prelude.{◌≡◌};
ghost use Rattle.stmt65.specs.Words.{out_of_memory};

use crate::assembling::fault::{AsmFault, AsmFaultKind};
use crate::assembling::layout::Layout;
use crate::assembling::symbols::LineNames;
use crate::assembling::values::word_in;
use crate::reading::names::HERE;
use crate::reading::numeral::Numeral;
use crate::source_line::{Datum, Form, Notation, Operation, SourceLine, Value};
use isa65::{Cpu, Mode, OpcodeSet, Pattern};
use std::alloc::{AllocError, Allocator};

/// What the fault of a line is about.
#[derive(Clone, Copy, Debug)]
pub enum About<'a> {
    /// The text of the line says it.
    Line,
    /// The first name of the line that the text does not define.
    Name(&'a [u8]),
    /// How many bytes a branch would go forward: more than 127.
    Forward(u64),
    /// How many bytes a branch would go back: more than 128.
    Back(u64),
    /// How far the difference of two addresses is below 0.
    Below(u16),
    /// The numbers of `.res`.
    Reserve,
    /// How many bytes the address is past the start of the segment, and that start.
    Past(u64, u16),
}

/// The fault of a text, and what it is about.
#[derive(Clone, Copy, Debug)]
pub struct Explained<'a> {
    pub fault: AsmFault,
    pub about: About<'a>,
}

impl<'a> From<AllocError> for Explained<'a> {
    ghost from_gives = { λ _ e. e.fault ≡ out_of_memory };

    fn from(error: AllocError) -> Self {
        Explained {
            fault: AsmFault::from(error),
            about: About::Line,
        }
    }
}

impl<'a> From<Explained<'a>> for AsmFault {
    ghost from_gives = { λ explained e. e ≡ explained.fault };

    fn from(explained: Explained<'a>) -> Self {
        explained.fault
    }
}

/// The expression at a place of an operation, from 0; 0 for an operand of `.byte` that is none; `None` past the last.
fn value_at<'a, B: Allocator>(operation: &Operation<'a, B>, place: usize) -> Option<Value<'a>> {
    match operation {
        Operation::Instr(_, Form::One(_, v)) if place == 0 => Some(*v),
        Operation::Instr(_, Form::Two(v, _)) if place == 0 => Some(*v),
        Operation::Instr(_, Form::Two(_, w)) if place == 1 => Some(*w),
        Operation::Data(data) => match *data.get(place)? {
            Datum::Value(v) | Datum::Half(_, v) => Some(v),
            Datum::Number(_) | Datum::String(_) => Some(Value::Number(Numeral::zero())),
        },
        Operation::Values(_, values) => values.get(place).copied(),
        _ => None,
    }
}

/// The names of an expression, in the order in which they are written.
fn names_of(value: Value<'_>) -> [Option<&[u8]>; 2] {
    match value {
        Value::Number(_) | Value::Sum(_, _) => [None, None],
        Value::Name(name, _, _) | Value::Less(name, _) => [Some(name), None],
        Value::Difference(name, other) => [Some(name), Some(other)],
    }
}

/// The names in the operands of an operation but `*`, in the order in which they are written.
///
/// Fails if an allocation is refused.
pub fn names_in<'a, A: Allocator, B: Allocator>(
    alloc: A,
    operation: &Operation<'a, B>,
) -> Result<Vec<&'a [u8], A>, AllocError> {
    let mut found = Vec::new(alloc);
    for place in 0..usize::MAX {
        let Some(value) = value_at(operation, place) else {
            break;
        };
        for name in names_of(value) {
            match name {
                Some(name) if name != HERE => found.push(name)?,
                _ => {}
            }
        }
    }
    Ok(found)
}

/// The first name of an expression that has no definition.
fn unknown_in<'a, A: Allocator + Clone>(
    names: &LineNames<'_, '_, '_, A>,
    value: Value<'a>,
) -> Option<About<'a>> {
    for name in names_of(value) {
        let name = name?;
        if names.find(name).is_none() {
            return Some(About::Name(name));
        }
    }
    None
}

/// How far a difference of two addresses is below 0.
fn below_zero<'a, A: Allocator + Clone>(
    names: &LineNames<'_, '_, '_, A>,
    value: Value<'_>,
) -> Option<About<'a>> {
    let Value::Difference(name, other) = value else {
        return None;
    };
    let address = names.find(name)?.address()?;
    match names.find(other)?.address()?.saturating_sub(address) {
        0 => None,
        below => Some(About::Below(below)),
    }
}

/// Where a branch leads.
fn target_of<'a, B: Allocator>(operation: &Operation<'a, B>) -> Option<Value<'a>> {
    match operation {
        Operation::Instr(
            mnemonic,
            Form::One(Notation::Plain(Pattern::Direct) | Notation::Absolute, v),
        ) if Cpu::M65C02.encode(*mnemonic, Mode::Rel).is_some() => Some(*v),
        Operation::Instr(_, Form::Two(_, w)) => Some(*w),
        _ => None,
    }
}

/// How far it is from the address after a branch to its target, if that is too far.
fn too_far<'a, A: Allocator + Clone, B: Allocator>(
    names: &LineNames<'_, '_, '_, A>,
    next: u64,
    operation: &Operation<'_, B>,
) -> Option<About<'a>> {
    let target = u64::from(word_in(names, &target_of(operation)?)?);
    match (target.saturating_sub(next), next.saturating_sub(target)) {
        (forward, _) if forward > 127 => Some(About::Forward(forward)),
        (_, back) if back > 128 => Some(About::Back(back)),
        _ => None,
    }
}

/// What the first expression that a fault of this kind is about says of it.
fn of_values<'a, A: Allocator + Clone, B: Allocator>(
    kind: AsmFaultKind,
    names: &LineNames<'_, '_, '_, A>,
    operation: &Operation<'a, B>,
) -> Option<About<'a>> {
    for place in 0..usize::MAX {
        let value = value_at(operation, place)?;
        let found = match kind {
            AsmFaultKind::Undefined => unknown_in(names, value),
            _ => below_zero(names, value),
        };
        if found.is_some() {
            return found;
        }
    }
    None
}

/// What a fault of a line is about, by names among which are all of the line that have a
/// definition, and the address after the line.
pub fn explain<'a, L: Allocator + Clone, A: Allocator + Clone, B: Allocator>(
    kind: AsmFaultKind,
    names: &LineNames<'_, '_, '_, A>,
    layout: &Layout<'_, L>,
    next: u64,
    source: &SourceLine<'a, B>,
) -> About<'a> {
    let SourceLine::Statement { operation, .. } = source else {
        return About::Line;
    };
    let found = match (kind, operation) {
        (AsmFaultKind::Undefined, _) => of_values(kind, names, operation),
        (AsmFaultKind::OutOfRange, Operation::Reserve(_, _)) => Some(About::Reserve),
        (AsmFaultKind::OutOfRange, _) => {
            too_far(names, next, operation).or(of_values(kind, names, operation))
        }
        (AsmFaultKind::PastStart, Operation::Segment(name)) => layout.start_of(name).map(
            |start| About::Past(next.saturating_sub(u64::from(start)), start),
        ),
        _ => None,
    };
    found.unwrap_or(About::Line)
}
