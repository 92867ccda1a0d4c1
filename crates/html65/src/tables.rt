//! The lists of a page: names, and addresses that operands have as numbers, with who refers to them.

ghost use Rattle.std.specs.Prelude.{◌<◌};

use crate::markup::{Address, Link, LinkTo, Put, Quoted, Text, put};
use crate::survey::{Named, Reference, Survey};
use crate::uses::{SHOWN, put_uses};
use crate::way::Way;

/// The titles of the lists, in their order. The id of each is `s` and its place.
const TITLES: [&str; 4] = [
    "Routines",
    "Before the image",
    "In the image",
    "After the image",
];

/// A link to each list.
pub const LINKS: &str = "<p><a href=\"#s0\">Routines</a>; addresses <a href=\"#s1\">before</a>, \
    <a href=\"#s2\">in</a> and <a href=\"#s3\">after</a> the image</p>\n";

pub const TABLE_END: &str = "</table></details>\n";

/// Appends what stands before the rows of the list of a place, which has so many. The last column takes what room is
/// left.
pub fn put_title(out: &mut Text, place: usize, count: usize) {
    put!(out; ("<details open id=\"s", place), "\"><summary>", TITLES[place % 4], (" (", count), ")</summary><table>");
    put!(out; if place == 0 { "<col span=\"3\"><col>\n" } else { "<col span=\"8\"><col>\n" });
    put!(out; if count == 0 { "<tr><td><em>none</em>\n" } else { "" });
}

/// The columns of counts: reads, writes, changes, pointers, jumps with calls and branches, and data.
const COLUMNS: [&str; 6] = ["r", "w", "c", "p", "j", "d"];

/// The column in which a way is counted.
fn column_of(way: Way) -> usize
    ensures { result < 6 }
{
    match way {
        Way::Read => 0,
        Way::Write => 1,
        Way::Change => 2,
        Way::Pointer => 3,
        Way::Call | Way::Jump | Way::Branch => 4,
        Way::Table | Way::Half | Way::Value => 5,
    }
}

/// Appends so many cells without text, as one.
fn put_blank(out: &mut Text, count: usize) {
    match count {
        0 => {}
        1 => put!(out; "<td>"),
        _ => put!(out; ("<td colspan=\"", count), "\">"),
    }
}

/// Appends how many references there are, in their columns, after so many without text. Returns how many of these are
/// the last ones, which are not appended.
fn put_counts(out: &mut Text, uses: &[Reference], before: usize) -> usize {
    let mut counts: [usize; 6] = [0; 6];
    for one in uses {
        let column = column_of(one.way);
        counts[column] = counts[column].saturating_add(1);
    }
    let mut blank = before;
    for column in 0..6 {
        if counts[column] == 0 {
            blank = blank.saturating_add(1);
        } else {
            put_blank(out, blank);
            put!(out; "<td>", (COLUMNS[column], counts[column]));
            blank = 0;
        }
    }
    blank
}

/// Appends a group that names an address.
fn put_group(out: &mut Text, address: usize) {
    put!(out; ("LABEL { ADDR $", Address(address)), "; NAME \"\"; };");
}

/// Whether two references are to one address.
fn are_same(one: &Reference, other: &Reference) -> bool {
    one.to == other.to
}

/// Appends the row of an address that operands have as a number, and below it who refers to it.
fn put_address(out: &mut Text, survey: &Survey<'_, '_>, address: usize, uses: &[Reference]) {
    put!(out; ("<tr id=\"r", Address(address)), "\"><td>", LinkTo(b'r', address, ("$", Address(address))));
    put_counts(out, uses, 1);
    put!(out; "\n<tr class=\"u\"><td colspan=\"9\">");
    put_uses(out, survey, uses);
    put!(out; " <code>");
    put_group(out, address);
    put!(out; "</code>\n");
}

/// Appends the row of a name, which may have an id by the value, and below it who refers to it, if these are too many
/// for the line above its own. A comment is cut if the column is too narrow.
fn put_name(out: &mut Text, survey: &Survey<'_, '_>, named: &Named<'_>, has_id: bool) {
    let uses = survey.to_name(named.place);
    let value = Address(named.definition.value as usize);
    put!(out; "<tr");
    if has_id {
        put!(out; (" id=\"r", value), "\"");
    }
    put!(out; ("><td>$", value), "<td>", Link(named.line, named.definition.name));
    let mut blank = 0;
    if uses.is_empty() {
        put!(out; "<td colspan=\"6\"><em>none</em>");
    } else {
        blank = put_counts(out, uses, 0);
    }
    if !named.comment.is_empty() {
        put_blank(out, blank);
        put!(out; "<td class=\"k\" title=\"", Quoted(named.comment), "\">", named.comment);
    }
    put!(out; "\n");
    if SHOWN < uses.len() {
        put!(out; "<tr class=\"u\"><td colspan=\"9\">");
        put_uses(out, survey, uses);
        put!(out; "\n");
    }
}

/// Appends the rows of the names whose values are below an end, after a row of another value or of none. Of those of
/// one value the first has the id. Returns the names that are left.
fn put_names<'n>(
    out: &mut Text,
    survey: &Survey<'_, '_>,
    names: &'n [(u64, usize)],
    (mut last, end): (u64, u64),
) -> &'n [(u64, usize)] {
    let mut count: usize = 0;
    for (value, place) in names {
        if end <= *value {
            break;
        }
        if let Some(named) = survey.names.get(*place) {
            put_name(out, survey, named, last != *value);
        }
        last = *value;
        count = count.saturating_add(1);
    }
    names.get(count..).unwrap_or(&[])
}

/// Appends these addresses and names, in the order of their values, as the list of a place.
fn put_part(
    out: &mut Text,
    survey: &Survey<'_, '_>,
    place: usize,
    (numbers, mut names): (&[Reference], &[(u64, usize)]),
) {
    let count = numbers.chunk_by(are_same).count();
    put_title(out, place, count.saturating_add(names.len()));
    let mut last = u64::MAX;
    for uses in numbers.chunk_by(are_same) {
        let [one, ..] = uses else { break };
        names = put_names(out, survey, names, (last, one.to as u64));
        put_address(out, survey, one.to, uses);
        last = one.to as u64;
    }
    put_names(out, survey, names, (last, u64::MAX));
    put!(out; TABLE_END);
}

/// Appends the lists: what is before the image, in it, and after it.
pub fn put_lists(out: &mut Text, survey: &Survey<'_, '_>) {
    let start = u64::from(survey.start);
    let mut numbers = survey.to_addresses.as_slice();
    let mut names = survey.by_value.as_slice();
    let end = start.saturating_add(survey.bytes.len() as u64);
    for (place, end) in [(1, start), (2, end), (3, u64::MAX)] {
        let (own, others) = numbers.split_at(numbers.partition_point(|one| (one.to as u64) < end));
        let (own_names, other_names) = names.split_at(names.partition_point(|one| one.0 < end));
        put_part(out, survey, place, (own, own_names));
        numbers = others;
        names = other_names;
    }
}

/// Appends the groups that name the addresses without a name.
pub fn put_groups(out: &mut Text, survey: &Survey<'_, '_>) {
    let count = survey.to_addresses.chunk_by(are_same).count();
    if count == 0 {
        return;
    }
    put!(out; ("<details><summary>Groups to copy (", count), ")</summary><code>");
    for uses in survey.to_addresses.chunk_by(are_same) {
        if let [one, ..] = uses {
            put_group(out, one.to);
        }
        put!(out; "\n");
    }
    put!(out; "</code></details>\n");
}
