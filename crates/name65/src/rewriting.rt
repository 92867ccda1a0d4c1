//! Cuts lines, and keeps their columns where what is new in them fits.

ghost use Rattle.std.specs.Prelude.{◌≡◌, ◌≤◌, ◌-◌, ◌++◌, IfOk, drop, length, take};
ghost use Rattle.std.specs.List.{list_all};
ghost use Rattle.text65.specs.Names.{is_blank};
ghost use Rattle.name65.specs.Compared.{IsCut};

use crate::complaint::{Refusal, need};
use std::alloc::AllocError;
use text65::is_blank;

/// How many columns a tab has at most.
const TAB: usize = 8;

/// Bytes that are cut at two places.
#[derive(Clone, Copy)]
pub struct Cut<'l> {
    pub before: &'l [u8],
    pub within: &'l [u8],
    pub after: &'l [u8],
}

/// Cuts bytes at two places, if they have them in this order.
#[inline(always)]
pub fn cut_at(bytes: &[u8], from: usize, to: usize) -> Result<Cut<'_>, Refusal>
    ensures { IfOk result (IsCut bytes.now from to) }
{
    need(from <= to && to <= bytes.len())?;
    let (before, rest) = bytes.split_at(from);
    let (within, after) = rest.split_at(to - from);
    Ok(Cut {
        before,
        within,
        after,
    })
}

/// How many blanks are at the beginning of bytes.
pub fn blank_len(bytes: &[u8]) -> usize
    ensures { result ≤ length bytes.now }
{
    bytes.iter().take_while(|byte| is_blank(**byte)).count()
}

/// Whether each byte is a blank.
#[inline(always)]
pub fn are_blank(bytes: &[u8]) -> bool
    ensures { result ≡ list_all is_blank bytes.now }
{
    bytes.iter().all(|byte| is_blank(*byte))
}

/// The column after bytes that begin at one, from 0. A tab goes on to the next multiple of 8.
fn column_after(column: usize, bytes: &[u8]) -> usize {
    let mut at = column;
    for byte in bytes {
        let step = if *byte == b'\t' { TAB - at % TAB } else { 1 };
        at = at.saturating_add(step);
    }
    at
}

/// The column of a place in a line, from 0.
pub fn column_of(line: &[u8], place: usize) -> usize {
    column_after(0, line.get(..place).unwrap_or(line))
}

/// Appends blanks up to a column, but at least one: those that stood before it if they end there. Otherwise there are
/// tabs only if one was among them.
pub fn put_gap(out: &mut Vec<u8>, blanks: &[u8], column: usize) -> Result<(), AllocError> {
    let mut at = column_after(0, out);
    if at < column && column_after(at, blanks) == column {
        return out.extend_from_slice(blanks);
    }
    let mut tabs = 0;
    if blanks.contains(&b'\t') {
        tabs = (column / TAB).saturating_sub(at / TAB);
    }
    if 0 < tabs {
        at = column / TAB * TAB;
    }
    let spaces = column.saturating_sub(at);
    for place in 0..tabs.saturating_add(spaces).max(1) {
        out.push(if place < tabs { b'\t' } else { b' ' })?;
    }
    Ok(())
}

/// Appends the rest of a line, which stands after its operands: so many bytes, and then blanks and a comment, which
/// stays in its column if there is room.
pub fn put_rest(
    out: &mut Vec<u8>,
    line: &[u8],
    rest: &[u8],
    kept: usize,
) -> Result<(), AllocError> {
    let (before, after) = rest.split_at(kept.min(rest.len()));
    let (blanks, comment) = after.split_at(blank_len(after));
    out.extend_from_slice(before)?;
    if comment.first() == Some(&b';') && !blanks.is_empty() {
        let place = line.len().saturating_sub(comment.len());
        put_gap(out, blanks, column_of(line, place))?;
    } else {
        out.extend_from_slice(blanks)?;
    }
    out.extend_from_slice(comment)
}
