//! Lines that give no bytes: as they were, left out, or after the last line.

ghost use Rattle.std.specs.Prelude.{◌≡◌, ◌++◌, ◌∷◌, [], IfOk, IfSome, IsTrue, OnOk, Some};
ghost use Rattle.stmt65.specs.Words.{Assignment, numeral_of};
ghost use Rattle.name65.specs.Changes.{says};
ghost use Rattle.name65.specs.Compared.{Renamed, value_cursor};
ghost use Rattle.name65.specs.Written.{AppendsLine, IsPlaced, scope_seen};

use crate::compared::{Compared, Cursor, are_renamed};
use crate::complaint::{Refusal, after, need};
use crate::constants::{Fate, fate_of};
use crate::plan::{NewText, PlacedLine, Plan};
use crate::rewriting::{cut_at, put_rest};
use std::alloc::AllocError;
use stmt65::{Language, Numeral, Places, SourceLine, Span, read_line};
use text65::put_decimal;

/// Appends a line as it was.
pub fn put_kept(out: &mut Vec<u8>, line: &[u8]) -> Result<(), AllocError>
    ensures { OnOk result (out.new.items ≡ out.old.items ++ (line.now ++ 10 ∷ [])) }
{
    out.extend_from_slice(line)?;
    out.push(b'\n')?;
    Ok(())
}

/// From where to where in a constant line its operator and its value stand.
fn value_of(language: Language, line: &[u8]) -> Option<Span> {
    let mut places = Places::new(language, line);
    places.next()?;
    let from = places.next()?.span.from;
    let to = places.operand()?.span.to;
    Some(Span { from, to })
}

/// The constant line of a name whose value is this far from the end of the text: `NAME := * + n`.
fn moved(plan: &Plan<'_, '_>, line: &[u8], distance: u64) -> Result<Vec<u8>, Refusal> {
    let Some(span) = value_of(plan.language, line) else {
        return Err(Refusal::Changed);
    };
    let found = cut_at(line, span.from, span.to)?;
    let mut out = Vec::new(plan.alloc);
    out.extend_from_slice(found.before)?;
    put_decimal(&mut out, b":= * + ", distance as usize)?;
    put_rest(&mut out, line, found.after, 0)?;
    Ok(out)
}

/// Whether a line differs from one that was only in the value.
fn is_revalued(plan: &Plan<'_, '_>, line: &[u8], new: &[u8], value: u64) -> Result<bool, Refusal>
    ensures { IfOk result (λ is. IsTrue is
        → Renamed (scope_seen plan.now) (value_cursor value) line.now new.now) }
{
    let cursor = Cursor {
        stay: 1,
        width: 0,
        from: value,
        to: after(value, 1)?,
    };
    are_renamed(
        plan,
        Compared {
            cursor,
            old: line,
            new,
        },
    )
}

/// Whether a line defines a name so that it has this value after the last line.
fn is_placed(plan: &Plan<'_, '_>, line: &[u8], name: &[u8], value: u64) -> Result<bool, Refusal>
    ensures { IfOk result (λ placed. IsTrue placed
        → IsPlaced (scope_seen plan.now) line.now name.now value) }
{
    match read_line(plan.alloc, plan.language, line)? {
        Some(SourceLine::PlaceAssignment(found, n)) => Ok(
            found == name && plan.last <= value && n.value() == value - plan.last,
        ),
        _ => Ok(false),
    }
}

/// The name and the value that a constant line gives it.
fn constant_in<'l>(
    plan: &Plan<'_, '_>,
    line: &'l [u8],
) -> Result<Option<(&'l [u8], Numeral<'l>)>, Refusal>
    ensures { IfOk result (λ found. IfSome found
        (λ c. says (scope_seen plan.now) line.now ≡ Some (Assignment c.0.now (numeral_of c.1)))) }
{
    match read_line(plan.alloc, plan.language, line)? {
        Some(SourceLine::Assignment(name, n)) => Ok(Some((name, n))),
        _ => Ok(None),
    }
}

/// Appends what stands in the place of a line that gives no bytes.
pub fn put_idle(out: &mut NewText, placed: &PlacedLine<'_, '_>) -> Result<(), Refusal>
    ensures { OnOk result (AppendsLine placed.now out.old out.new) }
{
    let (plan, line) = (placed.plan, placed.line);
    let Some((name, n)) = constant_in(plan, line)? else {
        return Ok(put_kept(&mut out.lines, line)?);
    };
    let value = n.value();
    match fate_of(plan, name, value) {
        Fate::Kept => Ok(put_kept(&mut out.lines, line)?),
        Fate::LeftOut => Ok(()),
        Fate::Moved(distance) => {
            let new = moved(plan, line, distance)?;
            need(is_revalued(plan, line, &new, value)?)?;
            need(is_placed(plan, &new, name, value)?)?;
            Ok(put_kept(&mut out.tail, &new)?)
        }
    }
}
