//! The include files that groups ASMINC say.

ghost use Rattle.std.specs.Prelude.{◌≡◌, ◌<◌, ◌+◌, ◌^◌, ◌++◌, IfErr, Ok, length, option_map, option_to_list};
ghost use Rattle.info65.specs.Words.{Adds, AreAllFormed, AreFormed, Gives, Sees, assigned_seen, group_seen, groups_seen, has_room, include_in, include_part, includes_of, named_seen, out_of_memory};

use crate::fault::{InfoFault, InfoFaultKind};
use crate::groups::group_values::value_in;
use crate::includes::include::IncludeSpec;
use crate::information::merge::text_of;
use crate::syntax::assignment::{Assignment, Group, as_boolean, as_character, as_name};
use crate::syntax::attribute::{Attribute, GroupKind};
use std::alloc::Allocator;

// How many include files there are at most.
const MOST_FILES: usize = 16;

/// An include file, by the bytes of its name.
#[derive(Clone, Copy)]
pub struct NamedFile<'a> {
    pub file: &'a [u8],
    pub comment_start: u8,
    pub ignore_unknown: bool,
}

/// The include file that a group ASMINC says by what is given in it. It is Missing if FILE is not given.
#[tactic(auto, unfolding(crate::specs::IncludeGroups::include_in))]
pub fn include_in<'a>(given: &[Assignment<'a>]) -> Result<NamedFile<'a>, InfoFaultKind>
    ensures { Sees named_seen result (include_in (assigned_seen given.now)) }
{
    let comment_start = as_character(value_in(given, Attribute::CommentStart));
    let ignore_unknown = as_boolean(value_in(given, Attribute::IgnoreUnknown));
    match as_name(value_in(given, Attribute::File)) {
        Some(file) => Ok(NamedFile {
            file,
            comment_start: comment_start.unwrap_or(b';'),
            ignore_unknown: ignore_unknown.unwrap_or(false),
        }),
        None => Err(InfoFaultKind::Missing),
    }
}

// The include file of a group ASMINC.
fn include_part<'a, A: Allocator>(group: &Group<'a, A>) -> Option<NamedFile<'a>>
    ensures { option_to_list (option_map named_seen result) ≡ include_part (group_seen group.now) }
{
    match group.kind {
        GroupKind::Include => include_in(group.given.as_slice()).ok(),
        GroupKind::Global | GroupKind::Range | GroupKind::Label | GroupKind::Segment => None,
    }
}

// So many, and one more if the group says an include file.
fn counted<A: Allocator>(count: usize, group: &Group<A>) -> usize
    requires { count < 2 ^ 63 }
    ensures { result ≡ count + length (include_part (group_seen group.now)) }
{
    match include_part(group) {
        Some(_) => count + 1,
        None => count,
    }
}

// How many include files the groups say.
fn count<A: Allocator>(groups: &[Group<A>]) -> usize
    ensures { result ≡ length (includes_of (groups_seen groups.now)) }
{
    let mut count = 0;
    for group in groups {
        count = counted(count, group);
    }
    count
}

/// One more value of the attribute can be given after these groups: a FILE only after fewer than 16.
#[tactic(auto, unfolding(crate::specs::IncludeGroups::has_room))]
pub fn has_room<A: Allocator>(groups: &[Group<A>], attribute: Attribute) -> bool
    ensures { result ≡ has_room (groups_seen groups.now) attribute }
{
    match attribute {
        Attribute::File => count(groups) < MOST_FILES,
        _ => true,
    }
}

// Adds the include file of the group, if it says one.
fn push_include<A: Allocator + Copy, B: Allocator>(
    alloc: A,
    includes: &mut Vec<IncludeSpec<A>, A>,
    group: &Group<B>,
) -> Result<(), InfoFault>
    requires { AreFormed (group_seen group.now).given }
    ensures done { Adds result includes.old includes.new (include_part (group_seen group.now)) }
    ensures err { IfErr result (λ e. e ≡ out_of_memory) }
{
    match include_part(group) {
        Some(named) => {
            let file = text_of(alloc, named.file)?;
            includes.push(IncludeSpec {
                file,
                comment_start: named.comment_start,
                ignore_unknown: named.ignore_unknown,
            })?;
            Ok(())
        }
        None => Ok(()),
    }
}

/// The include files of the groups ASMINC, in the order of the groups.
pub fn includes_of<A: Allocator + Copy, B: Allocator>(
    alloc: A,
    groups: &[Group<B>],
) -> Result<Vec<IncludeSpec<A>, A>, InfoFault>
    requires { AreAllFormed (groups_seen groups.now) }
    ensures { Gives (λ i. i.items) result (Ok (includes_of (groups_seen groups.now))) }
{
    let mut includes = Vec::new(alloc);
    for group in groups {
        push_include(alloc, &mut includes, group)?;
    }
    Ok(includes)
}
