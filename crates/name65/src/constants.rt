//! What becomes of constant lines, and of the names that a text defines with them.

ghost use Rattle.name65.specs.Written.{IsFate, scope_seen};

use crate::plan::Plan;
use std::alloc::{AllocError, Global};
use stmt65::{Definition, Symbols};

/// What becomes of the constant line of a name.
#[derive(Clone, Copy)]
pub enum Fate {
    Kept,
    /// No line uses the name.
    LeftOut,
    /// It stands after the last line, and its value is this far from there.
    Moved(u64),
}

/// What becomes of the constant line of a name with this value.
pub fn fate_of(plan: &Plan<'_, '_>, name: &[u8], value: u64) -> Fate
    ensures { IsFate (scope_seen plan.now) value result }
{
    if plan.used && plan.wishes.names.is_left_out(name) {
        return Fate::LeftOut;
    }
    if plan.named.names(value) && plan.last <= value {
        return Fate::Moved(value - plan.last);
    }
    Fate::Kept
}

/// What becomes of a definition: of all but constant lines nothing.
fn becomes(plan: &Plan<'_, '_>, definition: Definition<'_>) -> Fate {
    if definition.constant {
        fate_of(plan, definition.name, definition.value)
    } else {
        Fate::Kept
    }
}

/// The definitions of a text as its text by names has them, or `None` if that has the same.
pub fn names_after<'t, 'b>(
    alloc: &'b Global,
    plan: &Plan<'_, '_>,
    definitions: &[Definition<'t>],
) -> Result<Option<Symbols<'t, &'b Global>>, AllocError> {
    if definitions.iter().all(|definition| matches!(becomes(plan, *definition), Fate::Kept)) {
        return Ok(None);
    }
    let mut names = Symbols::new(alloc, definitions.len())?;
    for definition in definitions {
        if matches!(becomes(plan, *definition), Fate::Kept) {
            names.define(*definition)?;
        }
    }
    for definition in definitions {
        if matches!(becomes(plan, *definition), Fate::Moved(_)) {
            let constant = false;
            names.define(Definition {
                constant,
                ..*definition
            })?;
        }
    }
    Ok(Some(names))
}
