//! Who refers to a name or an address: in which way, and in which routine.

use crate::markup::{Address, Put, Text, add, digits_of, put};
use crate::survey::{Named, Reference, Survey};
use crate::way::{WAYS, Way};

/// How many references stand above the line of a name.
pub const SHOWN: usize = 10;

/// Appends the address of a line that refers to something, as a link to it.
fn put_place(out: &mut Text, one: &Reference) {
    let mut link = *b"<a href=\"#a0000\">0000</a>";
    let digits = digits_of(one.at);
    for place in 0..4 {
        link[11 + place] = digits[place];
        link[17 + place] = digits[place];
    }
    add(out, &link);
}

/// Appends a line that refers to something, and the routine to which it belongs.
fn put_line(out: &mut Text, survey: &Survey<'_, '_>, one: &Reference) {
    put_place(out, one);
    if let Some(routine) = survey.routine_of(one) {
        put!(out; " ", routine.definition.name);
    }
}

/// Appends the references of one way, the nearest to a line first, and at most so many. Returns how many more there
/// may be.
fn put_nearest(
    out: &mut Text,
    survey: &Survey<'_, '_>,
    (uses, line): (&[Reference], usize),
    most: usize,
) -> usize {
    let mut before = uses.partition_point(|one| one.line < line);
    let mut after = before;
    let count = uses.len().min(most);
    for place in 0..count {
        let above = uses.get(before.wrapping_sub(1));
        let below = uses.get(after);
        let is_above = match (above, below) {
            (Some(above), Some(below)) => line.saturating_sub(above.line)
                <= below.line.saturating_sub(line),
            (above, _) => above.is_some(),
        };
        if is_above {
            before = before.wrapping_sub(1);
        } else {
            after = after.wrapping_add(1);
        }
        if let Some(one) = if is_above { above } else { below } {
            put!(out; if 0 < place { ", " } else { " " });
            put_line(out, survey, one);
        }
    }
    most.saturating_sub(count)
}

/// Appends who refers to a name, as a line above its own: by the ways, and of each the nearest first. If there are more
/// than that, a link leads to the row that has all.
pub fn put_references(out: &mut Text, survey: &Survey<'_, '_>, named: &Named<'_>) {
    let uses = survey.to_name(named.place);
    if uses.is_empty() {
        return;
    }
    put!(out; "<i class=\"r\">");
    let mut left = SHOWN;
    for group in uses.chunk_by(|one, other| one.way == other.way) {
        if let [first, ..] = group
            && 0 < left
        {
            put!(out; if left < SHOWN { "; " } else { "" }, WAYS[first.way as usize]);
            left = put_nearest(out, survey, (group, named.line), left);
        }
    }
    let more = uses.len().saturating_sub(SHOWN);
    if 0 < more {
        let row = named.definition.value as usize;
        put!(out; ("; <a href=\"#r", Address(row)), ("\">", more), " more</a>");
    }
    put!(out; "\n</i>");
}

/// Appends all who refer to something: by the ways, and of each by the routines.
pub fn put_uses(out: &mut Text, survey: &Survey<'_, '_>, uses: &[Reference]) {
    let mut before: Option<(Way, usize)> = None;
    for one in uses {
        let is_same_way = matches!(before, Some((way, _)) if way == one.way);
        let is_same = before == Some((one.way, one.routine));
        if !is_same_way {
            put!(out; if before.is_some() { "; " } else { "" }, WAYS[one.way as usize]);
        }
        if !is_same {
            put!(out; if is_same_way { "," } else { "" });
            if let Some(routine) = survey.routine_of(one) {
                put!(out; " ", routine.definition.name);
            }
        }
        before = Some((one.way, one.routine));
        put!(out; " ");
        put_place(out, one);
    }
}
