//! A line in its state.

ghost use Rattle.std.specs.Prelude.{◌≡◌, List};
ghost use Rattle.std.specs.Option.{option_map};
ghost use Rattle.stmt65.specs.Words.{Definition as ADefinition, IsCoding, coding_len, defined_by, definitions_in, fragments_in, has_unknown_cpu, held, here_in, here_offset, held_definitions, is_past_start, line_operation, place_in, place_of, source_of, state_of};

use crate::assembling::coding::{Coded, coding};
use crate::assembling::emit::coded_len;
use crate::assembling::state::State;
use crate::assembling::symbols::{Definition, KnownNames};
use crate::source_line::{Form, Operation, SourceLine};
use isa65::Cpu;
use std::alloc::Allocator;

/// A line in its state: what its bytes stand for, or `None` if the CPU has no such form, the address after it, that
/// which `*` is, what the line defines, and two of its faults.
#[derive(Clone, Copy)]
pub struct Placed<'s, 'a> {
    pub coded: Option<Coded<'s, 'a>>,
    pub next: u64,
    pub here: Option<u64>,
    pub definition: Option<Definition<'a>>,
    /// Whether it sets a CPU by a text that is no CPU's.
    pub has_unknown_cpu: bool,
    /// Whether it enters a segment past its start.
    pub is_past_start: bool,
}

#[tactic(auto, unfolding(crate::specs::Coding::coding))]
fn coding_in<'s, 'a, L: Allocator + Clone, A: Allocator + Clone, B: Allocator>(
    state: &State<'_, '_, L>,
    above: &KnownNames<'_, '_, A>,
    source: &'s SourceLine<'a, B>,
) -> Option<Coded<'s, 'a>>
    ensures { IsCoding result (state_of state.now above.now) (line_operation source.now) }
{
    match source {
        SourceLine::Statement { operation, .. } => coding(state, above, operation),
        SourceLine::Assignment(_, _) | SourceLine::PlaceAssignment(_, _) => Some(Coded::Nothing),
    }
}

#[tactic(auto, unfolding(crate::specs::Coding::coding_len))]
fn length_of(coded: Option<Coded>) -> u64
    ensures { result ≡ held (coding_len (fragments_in coded.entry)) }
{
    match coded {
        Some(coded) => coded_len(coded),
        None => 0,
    }
}

/// How many bytes of a line ca65 has written when it reads its `*`; `None` if that would differ from one to the next.
fn here_offset<'a, B: Allocator>(source: &SourceLine<'a, B>) -> Option<u64>
    ensures { result ≡ here_offset (line_operation source.now) }
{
    let SourceLine::Statement { operation, .. } = source else {
        return None;
    };
    match operation {
        Operation::Instr(_, Form::Two(_, _)) => Some(2),
        Operation::Instr(_, _) => Some(0),
        Operation::Data(data) if data.len() == 1 => Some(0),
        Operation::Values(_, values) if values.len() == 1 => Some(0),
        _ => None,
    }
}

/// The address that `*` is in a line at this address, if it has a value there.
fn here_in<'a, B: Allocator>(address: u64, source: &SourceLine<'a, B>) -> Option<u64>
    ensures { result ≡ option_map held (here_in address (line_operation source.now)) }
{
    let offset = here_offset(source)?;
    Some(address.saturating_add(offset))
}

/// What a line at this address defines.
#[tactic(auto, unfolding(crate::specs::Meaning::defined_by))]
fn definition_in<'a, B: Allocator>(
    address: u64,
    source: &SourceLine<'a, B>,
) -> Option<Definition<'a>>
    ensures { definitions_in result ≡ held_definitions (defined_by address (source_of source.now)) }
{
    match source {
        SourceLine::Assignment(name, n) => Some(Definition {
            name: *name,
            value: n.value(),
            constant: true,
        }),
        SourceLine::PlaceAssignment(name, n) => Some(Definition {
            name: *name,
            value: address.saturating_add(n.value()),
            constant: false,
        }),
        SourceLine::Statement {
            label: Some(name),
            ..
        } => Some(Definition {
            name: *name,
            value: address,
            constant: false,
        }),
        SourceLine::Statement { label: None, .. } => None,
    }
}

/// Whether the line sets a CPU by a text that is no CPU's.
#[tactic(auto, unfolding(crate::specs::Meaning::has_unknown_cpu))]
fn has_unknown_cpu<'a, B: Allocator>(source: &SourceLine<'a, B>) -> bool
    ensures { result ≡ has_unknown_cpu (line_operation source.now) }
{
    match source {
        SourceLine::Statement {
            operation: Operation::SetCpu(text),
            ..
        } => Cpu::from_bytes(text).is_none(),
        _ => false,
    }
}

/// Whether the line enters a segment past its start.
#[tactic(auto, unfolding(crate::specs::Meaning::is_past_start))]
fn is_past_start<'a, L: Allocator + Clone, B: Allocator>(
    state: &State<'_, '_, L>,
    source: &SourceLine<'a, B>,
) -> bool
    ensures { (above : List ADefinition) → result
        ≡ is_past_start (state_of state.now above) (line_operation source.now) }
{
    match source {
        SourceLine::Statement {
            operation: Operation::Segment(name),
            ..
        } => match state.layout.start_of(name) {
            Some(start) => u64::from(start) < state.address,
            None => false,
        },
        _ => false,
    }
}

/// The line in its state.
pub fn place<'s, 'a, L: Allocator + Clone, A: Allocator + Clone, B: Allocator>(
    state: &State<'_, '_, L>,
    above: &KnownNames<'_, '_, A>,
    source: &'s SourceLine<'a, B>,
) -> Placed<'s, 'a>
    ensures { place_of above.now result
        ≡ place_in (state_of state.now above.now) (source_of source.now) }
{
    let coded = coding_in(state, above, source);
    Placed {
        coded,
        next: state.address.saturating_add(length_of(coded)),
        here: here_in(state.address, source),
        definition: definition_in(state.address, source),
        has_unknown_cpu: has_unknown_cpu(source),
        is_past_start: is_past_start(state, source),
    }
}
