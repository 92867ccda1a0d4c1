//! The lines before the label of a group: the separator, the segment, the comments of its names and its forward lines.

ghost use Rattle.std.specs.Option.{option_copied};
ghost use Rattle.std.specs.Bool.{OnFalse, OnTrue};
ghost use Rattle.std.specs.Prelude.{IfSome, ◌+◌, ◌*◌, ◌≡◌, ◌≤◌, ◌<◌, length};
ghost use Rattle.stmt65.specs.Words.{IsNameLong};
ghost use Rattle.da65.specs.Words.{HasNoneBefore, IsForwardLine, IsGroupIn, IsHeading, IsSegmentLine, IsUnnamed, comment_lines, is_same_segment, line_text, segment_before, segment_line, separator_lines};
ghost use Rattle.da65.specs.Lines.{IsLineOf};
ghost use Rattle.map65.specs.Words.{segment_at};

use crate::listing::base_names::put_base;
use crate::listing::comment_lines::comment_at;
use crate::listing::group::ListedGroup;
use crate::listing::grouping::is_skipped;
use crate::listing::listed_image::ListedImage;
use crate::listing::plain_lines::{put_plain, put_remark};
use crate::listing::style::Style;
use map65::NameBuf;
use std::alloc::Allocator;
use stmt65::{Line, Statement};

/// The segment of an address: a name, or the default.
#[tactic(auto, using(crate::proofs::NextLine::CommentLemmas::segment_told, crate::proofs::NextLine::CommentLemmas::some_segment))]
fn segment_at<'a, A: Allocator>(listed: &ListedImage<'a, A>, address: u16) -> Option<&'a [u8]>
    ensures segment { option_copied result ≡ segment_at listed.now address }
    ensures long { IfSome (option_copied result) IsNameLong }
{
    listed.map().segment_at(address)
}

/// Whether both are the default, or both have one name.
pub(crate) fn is_same_segment(one: Option<&[u8]>, other: Option<&[u8]>) -> bool
    ensures { result ≡ is_same_segment (option_copied one.entry) (option_copied other.entry) }
{
    match (one, other) {
        (None, None) => true,
        (Some(one), Some(other)) => one == other,
        _ => false,
    }
}

/// The segment of the last group before the byte of this index, with which a group
/// begins. Without one it is the default.
fn segment_before<'a, A: Allocator>(listed: &ListedImage<'a, A>, index: usize) -> Option<&'a [u8]>
    requires { index ≤ length listed.now.image.bytes }
    ensures { option_copied result ≡ segment_before listed.now index }
{
    let mut left = index;
    'skipped: while 0 < left {
        left -= 1;
        let address = listed.address(left);
        if !is_skipped(listed.map(), address) {
            return segment_at(listed, address);
        }
    }
    None
}

/// What stands in the separator.
const HYPHENS: &[u8] =
    b"----------------------------------------------------------------------------";

/// Replaces the buffer by the separator, if it stands before the group at this address: a run begins there.
#[tactic(auto, unfolding(crate::specs::Listing::separator))]
fn put_separator<A: Allocator>(out: &mut Line, listed: &ListedImage<'_, A>, address: u16) -> bool
    ensures { IsLineOf listed.now (separator_lines listed.now address) out.new.items result }
{
    if listed.style().level.get() == 0 || listed.map().is_in_run(address) {
        return false;
    }
    put_remark(out, listed.style(), HYPHENS);
    true
}

/// Replaces the buffer by the line that enters a segment.
fn put_segment_line(out: &mut Line, style: &Style, segment: Option<&[u8]>)
    requires { IfSome (option_copied segment) IsNameLong }
    ensures { out.new.items ≡ line_text style.now (segment_line (option_copied segment.entry)) }
{
    match segment {
        Some(name) => put_plain(out, style, &Statement::Segment(name)),
        None => put_plain(out, style, &Statement::Code),
    }
}

/// Replaces the buffer by the line that enters the segment of this group, if it is not that of the group before.
#[tactic(auto, using(crate::proofs::Rules::put_segment_rules, std::proofs::lemmas::Grind::common_steps))]
fn put_segment<A: Allocator>(out: &mut Line, group: ListedGroup<'_, '_, A>) -> bool
    requires { IsGroupIn group }
    ensures { IsSegmentLine group.entry out.new.items result }
{
    let segment = segment_at(group.listed, group.address);
    if is_same_segment(segment, segment_before(group.listed, group.index)) {
        return false;
    }
    put_segment_line(out, group.listed.style(), segment);
    true
}

/// Replaces the buffer by the comment of the name of this address, if it has one.
fn put_comment<A: Allocator>(out: &mut Line, listed: &ListedImage<'_, A>, address: u16) -> bool
    ensures { IsLineOf listed.now (comment_lines listed.now address) out.new.items result }
{
    match comment_at(listed, address) {
        Some(text) => {
            put_remark(out, listed.style(), text);
            true
        }
        None => false,
    }
}

/// Replaces the buffer by the forward line of an address of the group, if that is defined by name. The buffer for
/// the name has a stack frame of its own.
#[inline(never)]
fn put_forward_named<A: Allocator>(
    out: &mut Line,
    group: ListedGroup<'_, '_, A>,
    address: u16,
) -> bool
    requires { group.address ≤ address }
    ensures { IsForwardLine group.entry address out.new.items result }
{
    let mut name = NameBuf::new();
    if !put_base(group.listed.map(), address, &mut name) {
        return false;
    }
    put_plain(
        out,
        group.listed.style(),
        &Statement::Forward(name.as_slice(), address - group.address),
    );
    true
}

/// Puts the forward line, as of `put_forward_named`. Most addresses have no name, and need no buffer for one.
#[inline(always)]
#[tactic(auto, using(crate::proofs::Names::BaseLemmas::base_unnamed))]
fn put_forward<A: Allocator>(out: &mut Line, group: ListedGroup<'_, '_, A>, address: u16) -> bool
    requires { group.address ≤ address }
    ensures { IsForwardLine group.entry address out.new.items result }
{
    if !group.listed.map().has_name(address) {
        return false;
    }
    put_forward_named(out, group, address)
}

/// Replaces the buffer by what has this number among the lines that may stand before
/// the label of a group, if that is there.
#[inline(always)]
#[tactic(auto, using(crate::proofs::Rules::put_heading_rules, std::proofs::lemmas::Grind::common_steps), unfolding(crate::specs::Lines::heading_lines))]
pub fn put_heading<A: Allocator>(
    out: &mut Line,
    group: ListedGroup<'_, '_, A>,
    number: usize,
) -> bool
    requires group { IsGroupIn group }
    requires low { number < 2 * length group.bytes.now + 1 }
    ensures { IsHeading group.entry number out.new.items result }
{
    if number == 0 {
        return put_separator(out, group.listed, group.address);
    }
    if number == 1 {
        return put_segment(out, group);
    }
    let byte = number - 2;
    let len = group.bytes.len();
    if byte < len {
        put_comment(out, group.listed, group.address + byte as u16)
    } else {
        put_forward(out, group, group.address + (byte - len + 1) as u16)
    }
}

/// Whether no address of a group has a name.
#[inline(always)]
fn is_unnamed<A: Allocator>(group: ListedGroup<'_, '_, A>) -> bool
    requires { IsGroupIn group }
    ensures { OnTrue result (IsUnnamed group.entry) }
{
    let first = usize::from(group.address);
    for address in first..first + group.bytes.len() {
        if group.listed.map().has_name(address as u16) {
            return false;
        }
    }
    true
}

/// Whether a separator or a segment line may stand before a group. It stands only before the first group of a run.
#[inline(always)]
#[tactic(auto, using(crate::proofs::Rules::may_have_head_rules, std::proofs::lemmas::Grind::common_steps))]
fn may_have_head<A: Allocator>(group: ListedGroup<'_, '_, A>) -> bool
    requires { IsGroupIn group }
    ensures { OnFalse result (HasNoneBefore group.entry 2) }
{
    if !group.listed.is_marked() {
        return false;
    }
    if group.listed.map().is_in_run(group.address) {
        return false;
    }
    true
}

/// A number before which a group has no such lines. Most listings have none but forward
/// lines, and most groups have no names.
#[inline(always)]
#[tactic(auto, using(crate::proofs::Rules::first_heading_rules, std::proofs::lemmas::Grind::common_steps))]
pub fn first_heading<A: Allocator>(group: ListedGroup<'_, '_, A>) -> usize
    requires { IsGroupIn group }
    ensures { HasNoneBefore group.entry result }
{
    if may_have_head(group) {
        return 0;
    }
    if is_unnamed(group) {
        return 2 * group.bytes.len() + 1;
    }
    if group.listed.is_marked() {
        return 2;
    }
    2 + group.bytes.len()
}
