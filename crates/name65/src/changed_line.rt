//! What stands in the place of a line that gives a byte that groups name.

use crate::complaint::{Refusal, after};
use crate::operands::{Style, keep_free, next_item, put_operand};
use crate::plan::PlacedLine;
use crate::reference::{Reference, put_reference};
use crate::rewriting::{blank_len, column_of, cut_at, put_gap, put_rest};
use crate::wishes::{Wish, Wished, Wishes};
use stmt65::{Half, Language, Part, Places, Span};

/// The list of operands of a line: its style, where the `#` or the directive stands that opens it, whether that is a
/// `#`, and the parts of the line after that.
#[derive(Drop)]
struct List<'t> {
    style: Style,
    opening: Span,
    is_immediate: bool,
    places: Places<'t>,
}

/// The half that each of the bytes from an address to before another becomes, if there is one.
fn common_half(wishes: &Wishes<'_>, at: u64, end: u64) -> Option<Half> {
    let mut found = None;
    for address in at..end {
        match (wishes.at(address)?.wish, found) {
            (Wish::Half(half, _), None) => found = Some(half),
            (Wish::Half(half, _), Some(first)) if half == first => {}
            _ => return None,
        }
    }
    found
}

/// The list of operands of a line, if it has one. A `.byte` whose bytes all become halves of a kind is a list of these.
fn list_of<'t>(placed: &PlacedLine<'_, 't>) -> Option<List<'t>> {
    let plan = placed.plan;
    let mut places = Places::new(plan.language, placed.line);
    let operation = places.head().operation?;
    let Part::Word(word) = operation.part else {
        return None;
    };
    let mut opening = operation.span;
    let mut is_immediate = false;
    let mut style = Style::Bytes;
    if word.eq_ignore_ascii_case(b".word") {
        style = Style::Words;
    } else if !word.eq_ignore_ascii_case(b".byte") {
        let sign = places.next()?;
        if !matches!(sign.part, Part::Mark(b'#')) {
            return None;
        }
        opening = sign.span;
        is_immediate = true;
    } else if let Some(half) = common_half(plan.wishes, placed.at, placed.end) {
        style = Style::Halves(half);
    }
    Some(List {
        style,
        opening,
        is_immediate,
        places,
    })
}

/// Appends what stands in a line before its first operand, and returns where in the line the rest begins. A `.byte`
/// whose bytes all become halves of a kind is `.lobytes` or `.hibytes`.
fn open_list(out: &mut Vec<u8>, line: &[u8], list: &List<'_>) -> Result<usize, Refusal> {
    let found = cut_at(line, list.opening.from, list.opening.to)?;
    out.extend_from_slice(found.before)?;
    let Style::Halves(half) = list.style else {
        out.extend_from_slice(found.within)?;
        return Ok(list.opening.to);
    };
    let directive: &[u8] = match half {
        Half::Low => b".lobytes",
        Half::High => b".hibytes",
    };
    out.extend_from_slice(directive)?;
    let (blanks, _) = found.after.split_at(blank_len(found.after));
    let place = list.opening.to.saturating_add(blanks.len());
    put_gap(out, blanks, column_of(line, place))?;
    Ok(place)
}

/// Appends a line with other operands in its list.
fn put_list(
    out: &mut Vec<u8>,
    placed: &PlacedLine<'_, '_>,
    mut list: List<'_>,
) -> Result<(), Refusal> {
    let PlacedLine {
        plan,
        line,
        mut at,
        ..
    } = *placed;
    if list.is_immediate {
        keep_free(plan.wishes, at, 1)?;
        at = after(at, 1)?;
    }
    let mut place = open_list(out, line, &list)?;
    for _ in 0..=line.len() {
        let Some(item) = next_item(plan, list.style, &mut list.places, at)? else {
            break;
        };
        out.extend_from_slice(cut_at(line, place, item.span.from)?.within)?;
        let text = cut_at(line, item.span.from, item.span.to)?.within;
        put_operand(out, list.style, text, item.wish)?;
        at = after(at, item.count)?;
        place = item.span.to;
    }
    let kept = list.places.end().saturating_sub(place);
    Ok(put_rest(out, line, cut_at(line, place, place)?.after, kept)?)
}

/// Where the operand of an instruction stands, and where its last part ends. A directive is none.
fn operand_of(language: Language, line: &[u8]) -> Option<(Span, usize)> {
    let mut places = Places::new(language, line);
    let operation = places.head().operation?.part;
    if !matches!(operation, Part::Word(word) if word.first() != Some(&b'.')) {
        return None;
    }
    let span = places.operand()?.span;
    for _ in 0..=line.len() {
        if places.next().is_none() {
            break;
        }
    }
    Some((span, places.end()))
}

/// Appends a line with another address in the operand of its instruction.
fn put_address(
    out: &mut Vec<u8>,
    placed: &PlacedLine<'_, '_>,
    reference: Reference<'_>,
) -> Result<(), Refusal> {
    let PlacedLine {
        plan,
        line,
        at,
        end,
    } = *placed;
    let next = after(at, 1)?;
    keep_free(plan.wishes, next, end.saturating_sub(next))?;
    let Some((span, last)) = operand_of(plan.language, line) else {
        keep_free(plan.wishes, at, 1)?;
        return Err(Refusal::Changed);
    };
    let found = cut_at(line, span.from, span.to)?;
    out.extend_from_slice(found.before)?;
    put_reference(out, reference)?;
    Ok(put_rest(out, line, found.after, last.saturating_sub(span.to))?)
}

/// Appends what stands in the place of a line that gives a byte of which something is wished, without a line feed.
pub fn put_operation(out: &mut Vec<u8>, placed: &PlacedLine<'_, '_>) -> Result<(), Refusal> {
    let PlacedLine { plan, at, end, .. } = *placed;
    if let Some(
        Wished {
            wish: Wish::Address(reference),
            ..
        },
    ) = plan.wishes.at(at)
    {
        return put_address(out, placed, reference);
    }
    let Some(list) = list_of(placed) else {
        keep_free(plan.wishes, at, end.saturating_sub(at))?;
        return Err(Refusal::Changed);
    };
    put_list(out, placed, list)
}
