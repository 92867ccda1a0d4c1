//! The lines of a listing, each as it becomes.

ghost use Rattle.std.specs.Prelude.{◌≡◌, IfOk, IsTrue, OnOk};
ghost use Rattle.text65.specs.Lines.{text_lines};
ghost use Rattle.stmt65.specs.Words.{source_addresses};
ghost use Rattle.name65.specs.Changes.{LinesBecome};
ghost use Rattle.name65.specs.NamedText.{IsNamed, listing_of};
ghost use Rattle.name65.specs.Written.{AppendsLine, IsRenamedLine, scope_seen};

use crate::changed_line::put_operation;
use crate::compared::{Compared, are_renamed, cursor_of};
use crate::complaint::{Refusal, need};
use crate::constant_line::{put_idle, put_kept};
use crate::constants::names_after;
use crate::known::Known;
use crate::marks::NamedBytes;
use crate::plan::{NewText, PlacedLine, Plan};
use crate::setup::Setup;
use crate::wishes::Wishes;
use std::alloc::Global;
use stmt65::{Assembly, LineEnds, Source, Symbols};
use text65::first_line;

/// Whether a line may stand in the place of one that gives bytes.
fn is_renamed(placed: &PlacedLine<'_, '_>, new: &[u8]) -> Result<bool, Refusal>
    ensures { IfOk result (λ is. IsTrue is → IsRenamedLine placed.now new.now) }
{
    let PlacedLine {
        plan,
        line,
        at,
        end,
    } = *placed;
    if !plan.named.names_one(at, end) {
        return Ok(false);
    }
    let cursor = cursor_of(placed)?;
    are_renamed(
        plan,
        Compared {
            cursor,
            old: line,
            new,
        },
    )
}

/// Appends what stands in the place of a line. What changes in it is read once more: nothing is trusted of how it was
/// written.
fn put_line(out: &mut NewText, placed: &PlacedLine<'_, '_>) -> Result<(), Refusal>
    ensures { OnOk result (AppendsLine placed.now out.old out.new) }
{
    if placed.end <= placed.at {
        return put_idle(out, placed);
    }
    if !placed.plan.wishes.has_one(placed.at, placed.end) {
        return Ok(put_kept(&mut out.lines, placed.line)?);
    }
    out.change.clear();
    put_operation(&mut out.change, placed)?;
    let change = out.change.as_slice();
    need(is_renamed(placed, change)?)?;
    Ok(put_kept(&mut out.lines, change)?)
}

/// The lines of a source, each as it becomes, by the address after each.
fn new_lines<'w, 't>(
    plan: &'w Plan<'w, 't>,
    source: &Source<'t, '_, '_>,
    ends: &LineEnds<&Global>,
) -> Result<NewText, Refusal>
    ensures { IfOk result (λ new. LinesBecome (scope_seen plan.now) source.now.start
        (text_lines source.now.text.now) ends.now new.lines.items new.tail.items) }
{
    let mut out = NewText {
        lines: Vec::new(plan.alloc),
        tail: Vec::new(plan.alloc),
        change: Vec::new(plan.alloc),
    };
    let mut at = u64::from(source.start);
    let mut rest = source.text;
    let mut left = ends.iter();
    'lines: while let Some((line, after)) = first_line(rest) {
        let Some(end) = left.next() else {
            return Err(Refusal::Changed);
        };
        let placed = PlacedLine {
            plan,
            line,
            at,
            end,
        };
        put_line(&mut out, &placed)?;
        at = end;
        rest = after;
    }
    Ok(out)
}

/// A text by names, and the names that it defines, unless they are those of the text that it was.
#[derive(Drop)]
pub struct Changed<'t, 'b> {
    pub text: Vec<u8>,
    pub names: Option<Symbols<'t, &'b Global>>,
}

/// The text in the place of one that means this.
pub fn changed_text<'t, 'b>(
    alloc: &'b Global,
    source: &Source<'t, '_, '_>,
    assembly: &Assembly<'t, '_, Global>,
    setup: &Setup<'_>,
) -> Result<Changed<'t, 'b>, Refusal>
    requires { assembly.now.ends ≡ source_addresses source.now }
    ensures { IfOk result
        (λ changed. IsNamed (listing_of source.now) setup.now changed.text.items) }
{
    let Setup { naming, info, tags } = *setup;
    let used = naming.used;
    let named = NamedBytes::new(*alloc, tags)?;
    let known = Known::new(*alloc, source.start, assembly, info)?;
    let mut wishes = Wishes::none(*alloc);
    if used {
        wishes.names.take_used(*alloc, source)?;
    }
    wishes.take_all(&known, &named, tags)?;
    let plan = Plan {
        alloc: *alloc,
        language: source.language,
        named: &named,
        used,
        last: assembly.ends.last().unwrap_or(u64::from(source.start)),
        wishes: &wishes,
    };
    let mut new = new_lines(&plan, source, &assembly.ends)?;
    new.lines.extend_from_slice(&new.tail)?;
    let names = names_after(alloc, &plan, assembly.names.definitions())?;
    let text = new.lines;
    Ok(Changed { text, names })
}
