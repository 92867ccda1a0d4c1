//! Whether an information says what another one says, and what is found.

ghost use Rattle.std.specs.Prelude.{◌≡◌, ◌++◌, IfErr, IfOk, IsTrue, Ok};
ghost use Rattle.info65.specs.Words.{default_label, given_seen, information, name_seen, segment_seen, segments_seen};
ghost use Rattle.trace65.specs.Words.{AreMerged, Explains, Says};

use crate::failure::{Failure, Refused, failure_of};
use info65::{
    Given, IncludeSpec, Info, Options, RangeSpec, SegmentSpec, Settings, default_name, read_info,
    read_tags,
};
use std::alloc::Global;

/// Whether two file names are the same, or neither is given.
fn is_same_file(a: &Option<String>, b: &Option<String>) -> bool
    ensures { IsTrue result → name_seen a.now ≡ name_seen b.now }
{
    a.as_deref() == b.as_deref()
}

/// Whether two settings are the same.
fn are_same_settings(a: &Settings, b: &Settings) -> bool
    ensures { IsTrue result → a.now ≡ b.now }
{
    is_same_file(&a.input, &b.input)
        && is_same_file(&a.output, &b.output)
        && a.offset == b.offset
        && a.size == b.size
        && a.start == b.start
        && a.cpu == b.cpu
        && a.comments == b.comments
        && a.mnemonic_column == b.mnemonic_column
        && a.argument_column == b.argument_column
        && a.comment_column == b.comment_column
        && a.text_column == b.text_column
        && a.label_break == b.label_break
        && a.hexoffs == b.hexoffs
        && a.newline_after_jmp == b.newline_after_jmp
        && a.newline_after_rts == b.newline_after_rts
}

/// Whether two segments are the same.
fn is_same_segment(a: &SegmentSpec, b: &SegmentSpec) -> bool
    ensures { IsTrue result → segment_seen a.now ≡ segment_seen b.now }
{
    a.first == b.first && a.last == b.last && a.name == b.name
}

/// Whether two include files are the same.
fn is_same_include(a: &IncludeSpec, b: &IncludeSpec) -> bool
    ensures { IsTrue result → a.now ≡ b.now }
{
    a.file.as_str() == b.file.as_str()
        && a.comment_start == b.comment_start
        && a.ignore_unknown == b.ignore_unknown
}

/// Whether two names are the same.
fn is_same_name(a: Given<'_>, b: Given<'_>) -> bool
    ensures { IsTrue result → given_seen a.entry ≡ given_seen b.entry }
{
    a.address == b.address && a.size == b.size && a.text == b.text && a.comment == b.comment
}

/// Whether a name is the default name of the address.
fn is_default(name: Given<'_>, address: u16) -> bool
    ensures { IsTrue result → given_seen name.entry ≡ default_label address }
{
    name.address == address
        && name.size == 1
        && name.comment.is_none()
        && name.text == default_name(address).as_slice()
}

/// Whether the ranges are those of the base, and then these.
fn are_ranges(new: &[RangeSpec], base: &[RangeSpec], found: &[RangeSpec]) -> bool
    ensures { IsTrue result → new.now ≡ base.now ++ found.now }
{
    match new.strip_prefix(base) {
        Some(after) => after == found,
        None => false,
    }
}

/// Whether the segments are the same.
fn are_same_segments(a: &[SegmentSpec], b: &[SegmentSpec]) -> bool
    ensures { IsTrue result → segments_seen a.now ≡ segments_seen b.now }
{
    if a.len() != b.len() {
        return false;
    }
    'segments: for index in 0..a.len() {
        if !is_same_segment(&a[index], &b[index]) {
            return false;
        }
    }
    true
}

/// Whether the include files are the same.
fn are_same_includes(a: &[IncludeSpec], b: &[IncludeSpec]) -> bool
    ensures { IsTrue result → a.now ≡ b.now }
{
    if a.len() != b.len() {
        return false;
    }
    'includes: for index in 0..a.len() {
        if !is_same_include(&a[index], &b[index]) {
            return false;
        }
    }
    true
}

/// Whether the names are those of the base and the default names of these addresses.
fn are_names(new: &Info, base: &Info, labels: &[u16]) -> bool
    ensures { IsTrue result → AreMerged base.now.names labels.now new.now.names }
{
    let mut given = 0;
    let mut label = 0;
    'names: for index in 0..new.given_count() {
        let name = new.given(index);
        if given < base.given_count() && is_same_name(name, base.given(given)) {
            given += 1;
        } else if label < labels.len() && is_default(name, labels[label]) {
            label += 1;
        } else {
            return false;
        }
    }
    given == base.given_count() && label == labels.len()
}

/// Returns whether the information says what the base says, these ranges after those of the base, default names
/// for these addresses, and nothing else.
pub fn says(new: &Info, base: &Info, ranges: &[RangeSpec], labels: &[u16]) -> bool
    /// Returns true only if an information says what another one says, with these ranges and labels, and nothing
    /// else.
    ensures { IsTrue result → Says base.now ranges.now labels.now new.now }
{
    are_same_settings(new.settings(), base.settings())
        && are_ranges(new.ranges(), base.ranges(), ranges)
        && are_same_segments(new.segments(), base.segments())
        && are_names(new, base, labels)
        && are_same_includes(new.includes(), base.includes())
}

/// Reads an information file with what is found, and returns what it says. Fails with the fault that it would be
/// refused for, and with `Other` unless it says what the base says, these ranges after those of the base, default names
/// for these addresses, and nothing else.
pub fn read_back(
    alloc: Global,
    options: &Options,
    base: &Info,
    text: &[u8],
    ranges: &[RangeSpec],
    labels: &[u16],
) -> Result<Info, Failure>
    /// Reads a text by `read_info`. Returns what the text says only if that is what the base says, with these
    /// ranges and labels. A failure that names a fault of the text names the one that `read_info` refuses it for.
    ensures accepted { IfOk result (λ info. information options.now text.now ≡ Ok info) }
    ensures says { IfOk result (Says base.now ranges.now labels.now) }
    ensures fault { IfErr result (Explains options.now text.now) }
{
    let info = match read_info(alloc, options, text) {
        Ok(info) => info,
        Err(fault) => return Err(failure_of(fault.kind, Refused::Text(fault))),
    };
    if !says(&info, base, ranges, labels) {
        return Err(Failure::Own(Refused::Other));
    }
    Ok(info)
}

/// Reads the groups in the lines `#: ..` of what is found, and fails with the first fault.
pub fn need_groups(alloc: Global, text: &[u8]) -> Result<(), Failure> {
    match read_tags(alloc, text) {
        Ok(_groups) => Ok(()),
        Err(fault) => Err(failure_of(fault.kind, Refused::Text(fault))),
    }
}
