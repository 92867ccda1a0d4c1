//! The operands of a list, and what stands in their places.

use crate::complaint::{Complaint, Refusal};
use crate::plan::Plan;
use crate::reference::{Reference, put_in_list};
use crate::wishes::{Wish, Wished, Wishes};
use stmt65::{Datum, Half, Places, Span, Value};

/// What the operands of a list are.
#[derive(Clone, Copy)]
pub enum Style {
    /// Bytes.
    Bytes,
    /// Bytes that all become this half, whose sign is not written.
    Halves(Half),
    /// Words.
    Words,
}

impl Style {
    /// How many bytes an operand gives that is no string.
    fn size(self) -> u64 {
        match self {
            Style::Bytes | Style::Halves(_) => 1,
            Style::Words => 2,
        }
    }
}

/// An operand of a list: where it stands, how many bytes it gives, and what is wished of it.
#[derive(Clone, Copy)]
pub struct Item<'t> {
    pub span: Span,
    pub count: u64,
    pub wish: Option<Wish<'t>>,
}

/// The wish can't be followed where it is.
fn misplaced<T>(wished: Wished<'_>, address: u64) -> Result<T, Refusal> {
    let address = address.min(0xFFFF) as u16;
    let complaint = match wished.wish {
        Wish::Address(_) => Complaint::NoAddress(address),
        _ => Complaint::NoNumber(address),
    };
    Err(Refusal::Group(wished.line, complaint))
}

/// Refuses a wish for one of so many bytes from an address on.
pub fn keep_free(wishes: &Wishes<'_>, from: u64, count: u64) -> Result<(), Refusal> {
    for address in from..from.saturating_add(count) {
        if let Some(wished) = wishes.at(address) {
            return misplaced(wished, address);
        }
    }
    Ok(())
}

/// The address by its name whose halves groups have at a place, low byte first, if they have them of one address.
fn word_at<'t>(wishes: &Wishes<'t>, at: u64) -> Option<Reference<'t>> {
    match (wishes.at(at)?.wish, wishes.at(at.checked_add(1)?)?.wish) {
        (Wish::Half(Half::Low, low), Wish::Half(Half::High, high)) => (low == high).then_some(low),
        _ => None,
    }
}

/// What is wished of a number of a list, whose first byte is at an address. A word needs both halves of one address.
fn of_number<'t>(
    wishes: &Wishes<'t>,
    size: u64,
    address: u64,
) -> Result<Option<Wish<'t>>, Refusal> {
    let Some(wished) = wishes.at(address) else {
        keep_free(wishes, address, size)?;
        return Ok(None);
    };
    match wished.wish {
        Wish::Half(_, _) if size == 1 || word_at(wishes, address).is_some() => {}
        Wish::Difference(_, _) if size == 2 => {}
        _ => return misplaced(wished, address),
    }
    Ok(Some(wished.wish))
}

/// The next operand of a list, whose first byte is at an address.
pub fn next_item<'t>(
    plan: &Plan<'_, 't>,
    style: Style,
    places: &mut Places<'_>,
    address: u64,
) -> Result<Option<Item<'t>>, Refusal> {
    let Some(found) = places.operand() else {
        return Ok(None);
    };
    let (wishes, span, size) = (plan.wishes, found.span, style.size());
    let (count, wish) = match found.datum {
        Datum::Value(Value::Number(_) | Value::Sum(_, _)) => {
            (size, of_number(wishes, size, address)?)
        }
        Datum::String(text) => (text.len() as u64, None),
        _ => (size, None),
    };
    if wish.is_none() {
        keep_free(wishes, address, count)?;
    }
    Ok(Some(Item { span, count, wish }))
}

/// Appends what stands in the place of an operand of a list.
pub fn put_operand(
    out: &mut Vec<u8>,
    style: Style,
    text: &[u8],
    wish: Option<Wish<'_>>,
) -> Result<(), Refusal> {
    match wish {
        None => out.extend_from_slice(text)?,
        Some(Wish::Half(half, reference)) => put_in_list(out, style, half, reference)?,
        Some(Wish::Difference(to, from)) => {
            out.extend_from_slice(to)?;
            out.extend_from_slice(b" - ")?;
            out.extend_from_slice(from)?;
        }
        Some(_) => return Err(Refusal::Changed),
    }
    Ok(())
}
