//! The ranges that groups RANGE say.

ghost use Rattle.std.specs.Prelude.{◌≡◌, ◌≤◌, ◌<◌, ◌++◌, IfOk, IfSome, length, option_to_list};
ghost use Rattle.std.specs.Result.{result_err};
ghost use Rattle.std.specs.Vec.{vec_capacity, vec_len};
ghost use Rattle.info65.specs.Words.{AreContents, IsRangeFault, RangeSpec, RangesToo, assigned_seen, group, last_from, range_between, range_in, range_of_parts};
ghost use Rattle.info65.specs.declared.syntax.attribute.GroupKind.TheVariants.{Range};

use crate::fault::InfoFaultKind;
use crate::groups::comments::lacks_name;
use crate::groups::contents::Contents;
use crate::groups::group_values::value_in;
use crate::groups::label_groups::range_name;
use crate::information::range::{RangeSpec, RangeType};
use crate::lookup::index::Index;
use crate::lookup::marks::{is_marked, mark};
use crate::syntax::assignment::{Assignment, as_address, as_number, as_type};
use crate::syntax::attribute::Attribute;
use std::alloc::Allocator;

/// The range that a group RANGE says by what is given in it. It is Missing where START, TYPE, or both END
/// and SIZE are not given, or a comment is given and no name, and OutOfRange where it ends before it begins
/// or past $FFFF.
#[tactic(auto, unfolding(crate::specs::Ranges::range_in))]
pub fn range_in(given: &[Assignment]) -> Result<RangeSpec, InfoFaultKind>
    ensures { result ≡ range_in (assigned_seen given.now) }
{
    if lacks_name(given) {
        return Err(InfoFaultKind::Missing);
    }
    range_of_parts(given)
}

#[tactic(auto, unfolding(crate::specs::Ranges::range_of_parts))]
fn range_of_parts(given: &[Assignment]) -> Result<RangeSpec, InfoFaultKind>
    ensures { result ≡ range_of_parts (assigned_seen given.now) }
{
    let first = as_address(value_in(given, Attribute::Start));
    let end = as_address(value_in(given, Attribute::End));
    let size = as_number(value_in(given, Attribute::Size));
    let role = as_type(value_in(given, Attribute::Role));
    match (first, role) {
        (Some(first), Some(role)) => range_between(first, role, last_from(first, end, size)),
        _ => Err(InfoFaultKind::Missing),
    }
}

// The last address by END or SIZE, which may lie past $FFFF.
fn last_from(first: u16, end: Option<u16>, size: Option<u32>) -> Option<u64>
    ensures { result ≡ last_from first end size }
{
    match (end, size) {
        (Some(last), _) => Some(u64::from(last)),
        (None, Some(size)) => Some((u64::from(first) + u64::from(size)).saturating_sub(1)),
        (None, None) => None,
    }
}

fn range_between(first: u16, role: RangeType, last: Option<u64>) -> Result<RangeSpec, InfoFaultKind>
    ensures { result ≡ range_between first role last }
{
    match last {
        None => Err(InfoFaultKind::Missing),
        Some(last) => {
            if u64::from(first) <= last && last <= 0xFFFF {
                Ok(RangeSpec {
                    first,
                    last: last as u16,
                    role,
                })
            } else {
                Err(InfoFaultKind::OutOfRange)
            }
        }
    }
}

/// What a group RANGE says at its closing brace, or its fault, after ranges that the table marks and the names of the
/// index.
pub fn range_contents<'a, A: Allocator + Copy>(
    table: &[bool],
    names: &Index<'a, A>,
    given: &[Assignment<'a>],
) -> Result<Contents<'a>, InfoFaultKind>
    ensures fault { IsRangeFault table.now names.now (assigned_seen given.now) (result_err result) }
    ensures contents { IfOk result (AreContents (group Range (assigned_seen given.now))) }
{
    match range_in(given) {
        Err(fault) => Err(fault),
        Ok(range) => {
            if is_marked(table, range.first, range.last) {
                return Err(InfoFaultKind::RangesOverlap);
            }
            let name = range_name(given, range);
            match names.optional_name_fault(name) {
                Some(fault) => Err(fault),
                None => Ok(Contents {
                    range: Some(range),
                    name,
                    segment: None,
                }),
            }
        }
    }
}

/// Adds and marks the range of a group, if it says one. There is room for it.
pub fn add_range<A: Allocator>(
    ranges: &mut Vec<RangeSpec, A>,
    table: &mut Vec<bool, A>,
    range: Option<RangeSpec>,
)
    requires ordered { IfSome range (λ r. r.first ≤ r.last) }
    requires room { IfSome range (λ _. vec_len ranges.old < vec_capacity ranges.old) }
    requires cells { IfSome range (λ _. length table.old.items ≡ 0x1_0000) }
    ensures done { ranges.new.items ≡ ranges.old.items ++ option_to_list range }
    ensures marked { RangesToo range table.old.items table.new.items }
{
    if let Some(range) = range {
        ranges.push_reserved(range);
        mark(table, range.first, range.last);
    }
}
