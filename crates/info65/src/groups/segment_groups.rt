//! The segments that groups SEGMENT say.

ghost use Rattle.std.specs.Prelude.{◌≡◌, ◌≤◌, IfErr, IfOk, IfSome, Ok, Some, length, option_map, option_to_list};
ghost use Rattle.std.specs.Result.{result_err};
ghost use Rattle.info65.specs.Words.{AreContents, Gives, IsSegmentFault, Sees, SegmentsToo, assigned_seen, group, group_seen, groups_seen, out_of_memory, parts_seen, segment_from, segment_in, segment_part, segment_seen, segments_of, segments_seen};
ghost use Rattle.info65.specs.declared.syntax.attribute.GroupKind.TheVariants.{Segment};

use crate::fault::{InfoFault, InfoFaultKind};
use crate::groups::contents::Contents;
use crate::groups::group_values::value_in;
use crate::information::segment::SegmentSpec;
use crate::lookup::marks::{is_marked, mark};
use crate::syntax::assignment::{Assignment, Group, as_address, as_name};
use crate::syntax::attribute::{Attribute, GroupKind};
use std::alloc::Allocator;

/// A segment whose name is borrowed.
#[derive(Clone, Copy)]
pub struct SegmentParts<'a> {
    pub first: u16,
    pub last: u16,
    pub name: &'a [u8],
}

/// The segment that a group SEGMENT says by what is given in it. It is Missing where START, END or NAME is
/// not given, and OutOfRange where it ends before it begins.
#[tactic(auto, unfolding(crate::specs::Segments::segment_in))]
pub fn segment_in<'a>(given: &[Assignment<'a>]) -> Result<SegmentParts<'a>, InfoFaultKind>
    ensures value { Sees parts_seen result (segment_in (assigned_seen given.now)) }
    ensures room { IfOk result (λ s. s.last ≤ 0xFFFF) }
{
    let first = as_address(value_in(given, Attribute::Start));
    let last = as_address(value_in(given, Attribute::End));
    let name = as_name(value_in(given, Attribute::Name));
    match (first, last, name) {
        (Some(first), Some(last), Some(name)) => segment_from(first, last, name),
        _ => Err(InfoFaultKind::Missing),
    }
}

fn segment_from<'a>(
    first: u16,
    last: u16,
    name: &'a [u8],
) -> Result<SegmentParts<'a>, InfoFaultKind>
    ensures value { Sees parts_seen result (segment_from (Some first) (Some last) (Some name.entry.now)) }
    ensures room { IfOk result (λ s. s.last ≤ 0xFFFF) }
{
    if first <= last {
        Ok(SegmentParts { first, last, name })
    } else {
        Err(InfoFaultKind::OutOfRange)
    }
}

/// What a group SEGMENT says at its closing brace, or its fault, after segments that the table marks.
pub fn segment_contents<'a>(
    table: &[bool],
    given: &[Assignment<'a>],
) -> Result<Contents<'a>, InfoFaultKind>
    ensures fault { IsSegmentFault table.now (assigned_seen given.now) (result_err result) }
    ensures contents { IfOk result (AreContents (group Segment (assigned_seen given.now))) }
{
    match segment_in(given) {
        Err(fault) => Err(fault),
        Ok(segment) => {
            if is_marked(table, segment.first, segment.last) {
                return Err(InfoFaultKind::SegmentsOverlap);
            }
            Ok(Contents {
                range: None,
                name: None,
                segment: Some(segment),
            })
        }
    }
}

// The segment of a group SEGMENT.
fn segment_part<'a, A: Allocator>(group: &Group<'a, A>) -> Option<SegmentParts<'a>>
    ensures { option_to_list (option_map parts_seen result) ≡ segment_part (group_seen group.now) }
{
    match group.kind {
        GroupKind::Segment => segment_in(group.given.as_slice()).ok(),
        GroupKind::Global | GroupKind::Range | GroupKind::Label | GroupKind::Include => None,
    }
}

/// Marks the segment of a group, if it says one.
pub fn mark_segment<A: Allocator>(table: &mut Vec<bool, A>, segment: Option<SegmentParts>)
    requires ordered { IfSome segment (λ s. s.first ≤ s.last) }
    requires cells { IfSome segment (λ _. length table.old.items ≡ 0x1_0000) }
    ensures { SegmentsToo segment.entry table.old.items table.new.items }
{
    if let Some(segment) = segment {
        mark(table, segment.first, segment.last);
    }
}

// The segment with a name of its own.
fn owned<A: Allocator + Copy>(alloc: A, parts: SegmentParts) -> Result<SegmentSpec<A>, InfoFault>
    ensures value { IfOk result (λ s. segment_seen s ≡ parts_seen parts.entry) }
    ensures err { IfErr result (λ e. e ≡ out_of_memory) }
{
    let mut name = Vec::new(alloc);
    name.extend_from_slice(parts.name)?;
    Ok(SegmentSpec {
        first: parts.first,
        last: parts.last,
        name,
    })
}

/// The segments of the groups SEGMENT, in the order of the groups.
pub fn segments_of<A: Allocator + Copy, B: Allocator>(
    alloc: A,
    groups: &[Group<B>],
) -> Result<Vec<SegmentSpec<A>, A>, InfoFault>
    ensures { Gives (λ s. segments_seen s.items) result (Ok (segments_of (groups_seen groups.now))) }
{
    let mut segments = Vec::new(alloc);
    for group in groups {
        if let Some(parts) = segment_part(group) {
            let segment = owned(alloc, parts)?;
            segments.push(segment)?;
        }
    }
    Ok(segments)
}
