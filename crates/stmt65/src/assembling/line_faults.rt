//! What is wrong with a line.

ghost use Rattle.std.specs.Prelude.{◌≡◌, ◌||◌, not};
ghost use Rattle.stmt65.specs.Words.{definitions_in, fault_by, first_of, has_large, is_named_in, place_of};

use crate::assembling::emit::Fit;
use crate::assembling::fault::AsmFaultKind;
use crate::assembling::placed::Placed;
use crate::assembling::symbols::{Definition, KnownNames};
use std::alloc::Allocator;

/// Whether a line above has the name of a definition.
fn is_twice<A: Allocator + Clone>(
    above: &KnownNames<'_, '_, A>,
    definition: Option<Definition>,
) -> bool
    ensures { result ≡ is_named_in above.now (definitions_in definition.entry) }
{
    match definition {
        Some(definition) => above.find(definition.name).is_some(),
        None => false,
    }
}

fn is_out_of_range(definition: Option<Definition>, has_room: bool) -> bool
    ensures { result ≡ (has_large (definitions_in definition.entry) || not has_room) }
{
    match definition {
        Some(definition) => definition.value > 65535 || !has_room,
        None => !has_room,
    }
}

/// The first kind whose test holds.
fn first_of(tests: &[(AsmFaultKind, bool)]) -> Option<AsmFaultKind>
    ensures { result ≡ first_of tests.now }
{
    for (kind, holds) in tests {
        if *holds {
            return Some(*kind);
        }
    }
    None
}

/// The lowest fault of a line, by what its names and values have; `above` are the definitions above it.
pub fn fault_by<A: Allocator + Clone>(
    above: &KnownNames<'_, '_, A>,
    placed: &Placed,
    fit: Fit,
) -> Option<AsmFaultKind>
    ensures { result ≡ fault_by fit (place_of above.now placed.now) }
{
    first_of(&[
        (AsmFaultKind::UnknownCpu, placed.has_unknown_cpu),
        (AsmFaultKind::NoSuchForm, placed.coded.is_none()),
        (AsmFaultKind::Undefined, !fit.is_known),
        (
            AsmFaultKind::DefinedTwice,
            is_twice(above, placed.definition),
        ),
        (
            AsmFaultKind::OutOfRange,
            is_out_of_range(placed.definition, fit.has_room),
        ),
        (AsmFaultKind::PastStart, placed.is_past_start),
        (AsmFaultKind::PastEnd, placed.next > 65536),
    ])
}
