//! What a listing means, or the line of it that has a fault.

ghost use Rattle.std.specs.Prelude.{◌≡◌, ◌++◌, IfErr, IfOk, Ok, OnOk};
ghost use Rattle.stmt65.specs.Words.{held_definitions, source_addresses, source_definitions, source_meaning};
ghost use Rattle.files65.specs.FaultyLine.{FailsWith, MayReport, Reports, about, hint_text};

use crate::failure::Failure;
use crate::hint::hint;
use crate::lines::line_at;
use crate::shown::{put_shown, trimmed};
use std::alloc::{AllocError, Global};
use stmt65::{AsmFault, AsmFaultKind, Assembly, Explained, Source, assemble_lines};

/// Appends what a fault is about, if the line does not say it.
fn put_hint(out: &mut Vec<u8>, hint: &[u8]) -> Result<(), AllocError>
    ensures { OnOk result (out.new.items ≡ out.old.items ++ hint_text hint.now) }
{
    if hint.is_empty() {
        return Ok(());
    }
    out.extend_from_slice(b": ")?;
    out.extend_from_slice(hint)
}

/// What comes after the text of a fault: a hint, if there is one, and the line.
#[tactic(auto, unfolding(crate::specs::FaultyLine::about))]
fn about(
    alloc: Global,
    hint: &[u8],
    fault: AsmFault,
    source: &Source<'_, '_, '_>,
) -> Result<Vec<u8>, AllocError>
    ensures { IfOk result (λ said. said.items ≡ about hint.now fault source.now) }
{
    let mut out = Vec::new(alloc);
    put_hint(&mut out, hint)?;
    out.extend_from_slice(b": ")?;
    put_shown(&mut out, trimmed(line_at(source.text, fault.line)))?;
    Ok(out)
}

/// The failure of the listing of this name.
#[tactic(auto, using(crate::proofs::HintLemmas::said))]
pub fn failure_of<R>(
    alloc: Global,
    explained: Explained<'_>,
    name: &str,
    source: &Source<'_, '_, '_>,
) -> Failure<R>
    requires { FailsWith explained.fault source.now }
    /// A fault is reported with its line and kind, and the name of the listing; after it come a hint or none, and
    /// at most 80 characters of the line, as in the differences. Or out of memory.
    ensures reports { Reports name.now source.now result }
    ensures so { MayReport name.now source.now result }
{
    let fault = explained.fault;
    if fault.kind == AsmFaultKind::Memory {
        return Failure::Memory;
    }
    let Ok(hint) = hint(alloc, explained, source) else {
        return Failure::Memory;
    };
    match (
        String::from_str(alloc, name),
        about(alloc, &hint, fault, source),
    ) {
        (Ok(name), Ok(said)) => Failure::Line(name, fault, said),
        _ => Failure::Memory,
    }
}

/// What the listing of this name means, line by line. Fails with its first fault.
pub fn assembled<'t, 'b, R>(
    alloc: &'b Global,
    name: &str,
    source: &Source<'t, '_, '_>,
) -> Result<Assembly<'t, 'b, Global>, Failure<R>>
    /// For a text that assembles, returns its bytes, the address after each line and the definitions, from one reading.
    ensures bytes { IfOk result (λ a. source_meaning source.now ≡ Ok a.bytes.items) }
    ensures ends { IfOk result (λ a. a.ends ≡ source_addresses source.now) }
    ensures names { IfOk result (λ a. a.names
        ≡ held_definitions (source_definitions source.now)) }
    /// For any other text, its fault as by `failure_of`.
    ensures reports { IfErr result (Reports name.now source.now) }
    ensures so { IfErr result (MayReport name.now source.now) }
{
    match assemble_lines(alloc, source) {
        Ok(assembly) => Ok(assembly),
        Err(explained) => Err(failure_of(*alloc, explained, name, source)),
    }
}
