//! Addresses that the information file says in halves.

use crate::Steps;
use crate::readers::{Split, Table};
use info65::{Tag, TagKind};
use map65::{ADDRESSES, Marks};
use std::alloc::{AllocError, Global};

/// The table whose halves begin at these addresses: as code reads it, if it is one of these, which are in order; else
/// as one of addresses of code, or of such addresses less one, if only the address after its first one has a name.
fn table_of(steps: &Steps<'_>, tables: &[Table], low: u16, high: u16) -> Table {
    let index = tables.partition_point(|table| (table.low, table.high) < (low, high));
    if let Some(&table) = tables.get(index)
        && (table.low, table.high) == (low, high)
    {
        return table;
    }
    let mut table = Table::of_code(low, high, 0);
    let info = steps.map().info();
    if let Some(address) = table.entry(steps.image(), 0)
        && info.covering(address).is_none()
        && info.covering(address.saturating_add(1)).is_some()
    {
        table.less = 1;
    }
    table
}

/// Returns the halves of the groups HALVES without ADDR: as code reads them, if they are one of these tables, which are
/// in order, else as addresses of code.
pub fn declared_of(steps: &Steps<'_>, tables: &[Table]) -> Result<Vec<Split>, AllocError> {
    let mut found = Vec::new(steps.alloc());
    for tag in steps.tags() {
        let halves = (tag.kind, tag.low, tag.high, tag.address);
        if let (TagKind::Halves, Some(low), Some(high), None) = halves {
            let table = table_of(steps, tables, low, high);
            let count = usize::from(tag.size.unwrap_or(1));
            found.push(Split { table, count })?;
        }
    }
    Ok(found)
}

/// Returns marks of the addresses that groups of a kind have as ADDR.
pub fn tagged(alloc: Global, tags: &[Tag], kind: TagKind) -> Result<Marks, AllocError> {
    let mut marks = Marks::none(alloc)?;
    for tag in tags {
        if tag.kind == kind
            && let Some(address) = tag.address
        {
            marks.set(address);
        }
    }
    Ok(marks)
}

/// Returns marks of the bytes that groups HALVES and NUMBER of the information file have.
pub fn said_places(alloc: Global, tags: &[Tag]) -> Result<Marks, AllocError> {
    let mut marks = tagged(alloc, tags, TagKind::Number)?;
    for tag in tags {
        if tag.kind == TagKind::Halves {
            for first in [tag.low, tag.high] {
                if let Some(first) = first {
                    let from = usize::from(first);
                    marks.set_span(from, from + usize::from(tag.size.unwrap_or(1)));
                }
            }
        }
    }
    Ok(marks)
}

/// Returns the words in these tables, and how much less they are than the addresses, each once. At most as many entries
/// count as there are addresses: no more have bytes of their own.
pub fn words_in(steps: &Steps<'_>, splits: &[Split]) -> Result<Vec<(u16, u16)>, AllocError> {
    let mut found = Vec::new(steps.alloc());
    if splits.is_empty() {
        return Ok(found);
    }
    let mut marks = [Marks::none(steps.alloc())?, Marks::none(steps.alloc())?];
    let mut left = ADDRESSES;
    for split in splits {
        let count = split.count.min(left);
        left = left.saturating_sub(count);
        let less = split.table.less.min(1);
        for index in 0..count {
            if let Some(word) = split.table.word(steps.image(), index)
                && !marks[usize::from(less)].get(word)
            {
                marks[usize::from(less)].set(word);
                found.push((word, u16::from(less)))?;
            }
        }
    }
    Ok(found)
}
