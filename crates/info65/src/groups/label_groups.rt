//! The names that groups LABEL and RANGE say.

ghost use Rattle.std.specs.Prelude.{◌≡◌, IfOk, option_copied, option_map};
ghost use Rattle.std.specs.Result.{result_err};
ghost use Rattle.info65.specs.Words.{AreContents, Sees, assigned_seen, given_seen, group, label_fault, label_in, label_sized, range_name};
ghost use Rattle.info65.specs.declared.syntax.attribute.GroupKind.TheVariants.{Label};

use crate::fault::InfoFaultKind;
use crate::groups::comments::comment_in;
use crate::groups::contents::Contents;
use crate::groups::group_values::value_in;
use crate::information::name::Given;
use crate::information::range::RangeSpec;
use crate::lookup::index::Index;
use crate::syntax::assignment::{Assignment, as_address, as_name, as_number};
use crate::syntax::attribute::Attribute;
use std::alloc::Allocator;

/// The name that a group LABEL says by what is given in it. It is Missing where ADDR or NAME is not given,
/// and OutOfRange where its addresses go past $FFFF.
#[tactic(auto, unfolding(crate::specs::Labels::label_in))]
pub fn label_in<'a>(given: &[Assignment<'a>]) -> Result<Given<'a>, InfoFaultKind>
    ensures { Sees given_seen result (label_in (assigned_seen given.now)) }
{
    let address = as_address(value_in(given, Attribute::Address));
    let text = as_name(value_in(given, Attribute::Name));
    let size = as_number(value_in(given, Attribute::Size));
    match (address, text) {
        (Some(address), Some(text)) => {
            label_sized(address, text, size.unwrap_or(1), comment_in(given))
        }
        _ => Err(InfoFaultKind::Missing),
    }
}

fn label_sized<'a>(
    address: u16,
    text: &'a [u8],
    size: u32,
    comment: Option<&'a [u8]>,
) -> Result<Given<'a>, InfoFaultKind>
    ensures { Sees given_seen result (label_sized address text.entry.now size (option_copied comment.entry)) }
{
    if u64::from(address) + u64::from(size) <= 0x1_0000 {
        Ok(Given {
            address,
            size,
            text,
            comment,
        })
    } else {
        Err(InfoFaultKind::OutOfRange)
    }
}

/// What a group LABEL says at its closing brace, or its fault, after the names of the index.
pub fn label_contents<'a, A: Allocator + Copy>(
    names: &Index<'a, A>,
    given: &[Assignment<'a>],
) -> Result<Contents<'a>, InfoFaultKind>
    ensures fault { result_err result ≡ label_fault names.now (label_in (assigned_seen given.now)) }
    ensures contents { IfOk result (AreContents (group Label (assigned_seen given.now))) }
{
    match label_in(given) {
        Err(fault) => Err(fault),
        Ok(name) => match names.name_fault(name) {
            Some(fault) => Err(fault),
            None => Ok(Contents {
                range: None,
                name: Some(name),
                segment: None,
            }),
        },
    }
}

/// The name that a group RANGE says: that of its first address, with its comment.
#[tactic(auto, unfolding(crate::specs::Labels::range_name))]
pub fn range_name<'a>(given: &[Assignment<'a>], range: RangeSpec) -> Option<Given<'a>>
    ensures { option_map given_seen result ≡ range_name (assigned_seen given.now) range }
{
    match as_name(value_in(given, Attribute::Name)) {
        Some(text) => Some(Given {
            address: range.first,
            size: 1,
            text,
            comment: comment_in(given),
        }),
        None => None,
    }
}
