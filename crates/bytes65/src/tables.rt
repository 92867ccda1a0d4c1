//! The words and halves of tables that reached code reads.

use crate::ground::Ground;
use crate::survey::Survey;
use entries65::readers::{PATIENCE, Split, Table};
use map65::is_inside;
use std::alloc::AllocError;

/// Whether the entry of the table is an address of the image: one where code begins, or, for a
/// table of data, one that no code has, or where a routine begins.
fn is_entry(ground: &Ground<'_>, survey: &Survey<'_>, table: Table, index: usize) -> bool {
    let Some(address) = table.entry(ground.image, index) else {
        return false;
    };
    let is_led_to = survey.reached.get(address) && survey.code.get(address);
    is_inside(ground.image, usize::from(address))
        && (table.is_code && is_led_to || !table.is_code && survey.is_likely(address))
}

/// Whether another table begins at the address.
fn begins_other(survey: &Survey<'_>, table: Table, at: usize) -> bool {
    survey.operands.get_at(at) && !table.is_read_at(at)
}

/// How many entries the table has: up to one that is none, unless it is whole, or at which another table begins.
/// `left` is how many entries may still be looked at for that.
fn entry_count(ground: &Ground<'_>, survey: &Survey<'_>, table: Table, left: &mut usize) -> usize {
    let mut is_whole = false;
    let mut count = 0;
    for index in 0..table.most() {
        let (low, high) = table.places(index);
        let begins = 0 < index
            && (begins_other(survey, table, low) || begins_other(survey, table, high));
        if begins || !ground.is_plain(low) || !ground.is_plain(high) {
            break;
        }
        let fits = is_entry(ground, survey, table, index);
        is_whole = is_whole || !fits && table.is_whole(survey.steps, left);
        if !fits && !is_whole {
            break;
        }
        count = index + 1;
    }
    count
}

/// Marks the words of the tables, and returns the tables of halves whose entries are addresses.
pub fn mark_tables(
    ground: &mut Ground<'_>,
    survey: &Survey<'_>,
    tables: &[Table],
) -> Result<Vec<Split>, AllocError> {
    let mut splits = Vec::new(survey.steps.alloc());
    let mut left = PATIENCE;
    for &table in tables {
        let count = entry_count(ground, survey, table, &mut left);
        let (low, high) = table.places(0);
        let (low_end, high_end) = (low.saturating_add(count), high.saturating_add(count));
        if table.has_words() {
            for index in 0..count {
                let (at, _) = table.places(index);
                ground.put_words(u16::from(table.less), at, at.saturating_add(2));
            }
        } else if 1 < count {
            ground.put_numbers(low, low_end);
            ground.put_numbers(high, high_end);
            splits.push(Split { table, count })?;
        }
    }
    Ok(splits)
}
