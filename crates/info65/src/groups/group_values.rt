//! What is given in groups.

ghost use Rattle.std.specs.Prelude.{◌≡◌, option_map};
ghost use Rattle.info65.specs.Words.{assigned_seen, given_before, global_part, global_seen, group_seen, groups_seen, has, has_instead, is_given, value_in, value_seen};

use crate::syntax::assignment::{Assignment, Group, Value};
use crate::syntax::attribute::{Attribute, GroupKind};
use std::alloc::Allocator;

/// The attribute is given.
#[tactic(auto, using(crate::proofs::GroupLemmas::has_value))]
pub fn has(given: &[Assignment], attribute: Attribute) -> bool
    ensures { result ≡ has attribute (assigned_seen given.now) }
{
    value_in(given, attribute).is_some()
}

fn global_part<'a, 'b, A: Allocator>(group: &'b Group<'a, A>) -> &'b [Assignment<'a>]
    ensures { assigned_seen result.now ≡ global_part (group_seen group.now) }
{
    match group.kind {
        GroupKind::Global => group.given.as_slice(),
        GroupKind::Range | GroupKind::Label | GroupKind::Segment | GroupKind::Include => &[],
    }
}

/// The attribute was given before in its group, where END and SIZE count as one.
#[tactic(auto, unfolding(crate::specs::Groups::is_given))]
pub fn is_given<A: Allocator>(
    before: &[Group<A>],
    kind: GroupKind,
    given: &[Assignment],
    attribute: Attribute,
) -> bool
    ensures { result ≡ is_given (groups_seen before.now) kind (assigned_seen given.now) attribute }
{
    has_before(before, kind, attribute) || has(given, attribute) || has_instead(given, attribute)
}

#[tactic(auto, unfolding(crate::specs::Groups::has_instead))]
fn has_instead(given: &[Assignment], attribute: Attribute) -> bool
    ensures { result ≡ has_instead attribute (assigned_seen given.now) }
{
    match attribute {
        Attribute::End => has(given, Attribute::Size),
        Attribute::Size => has(given, Attribute::End),
        _ => false,
    }
}

#[tactic(auto, unfolding(crate::specs::Groups::has))]
fn has_before<A: Allocator>(before: &[Group<A>], kind: GroupKind, attribute: Attribute) -> bool
    ensures { result ≡ has attribute (given_before (groups_seen before.now) kind) }
{
    match kind {
        GroupKind::Global => has_global(before, attribute),
        GroupKind::Range | GroupKind::Label | GroupKind::Segment | GroupKind::Include => false,
    }
}

/// The value that the attribute is given.
#[tactic(auto, unfolding(crate::specs::Groups::value_in))]
pub fn value_in<'a>(given: &[Assignment<'a>], attribute: Attribute) -> Option<Value<'a>>
    ensures { option_map value_seen result ≡ value_in attribute (assigned_seen given.now) }
{
    for each in given {
        if attribute == each.attribute {
            return Some(each.value);
        }
    }
    None
}

/// The value that the groups GLOBAL give the attribute.
pub fn global_value<'a, A: Allocator>(
    groups: &[Group<'a, A>],
    attribute: Attribute,
) -> Option<Value<'a>>
    ensures { option_map value_seen result ≡ value_in attribute (global_seen groups.now) }
{
    for group in groups {
        if let Some(value) = value_in(global_part(group), attribute) {
            return Some(value);
        }
    }
    None
}

// The attribute is given in a group GLOBAL.
#[tactic(auto, using(crate::proofs::GroupLemmas::has_value))]
fn has_global<A: Allocator>(groups: &[Group<A>], attribute: Attribute) -> bool
    ensures { result ≡ has attribute (global_seen groups.now) }
{
    global_value(groups, attribute).is_some()
}
