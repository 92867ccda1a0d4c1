//! The groups of an information file that are closed.

ghost use Rattle.std.specs.Prelude.{◌≡◌, ◌<◌, ◌++◌, ◌∷◌, IfErr, IfOk, IfSome, Ok, OnOk, [], length};
ghost use Rattle.std.specs.Result.{result_err};
ghost use Rattle.std.specs.Vec.{vec_capacity, vec_len};
ghost use Rattle.info65.specs.Words.{AreContents, AreSetAlike, Gives, Grows, MayClose, assigned_seen, at_end, by_address, closed, closing_fault, group, group_seen, groups_seen, kept_of, kept_part, names_said, out_of_memory, ranges_of};

use crate::fault::{InfoFault, InfoFaultKind};
use crate::groups::contents::{Contents, NOTHING};
use crate::groups::group_list::GroupList;
use crate::groups::include_groups::include_in;
use crate::groups::label_groups::label_contents;
use crate::groups::range_groups::{add_range, range_contents};
use crate::groups::segment_groups::{mark_segment, segment_contents};
use crate::information::pool::NamePool;
use crate::information::range::RangeSpec;
use crate::lookup::index::Index;
use crate::lookup::marks::widen;
use crate::syntax::assignment::{Assignment, Group};
use crate::syntax::attribute::GroupKind;
use std::alloc::Allocator;
use std::marker::Model;

/// What is kept of the groups that are closed. Of a group RANGE that is its range and its name, and of a group LABEL
/// its name. A contract sees the list of all groups.
#[derive(Drop)]
pub struct Closed<'a, A: Allocator> {
    groups: GroupList<'a, A>,
    /// The groups that are read again, of the other kinds.
    kept: Vec<Group<'a, A>, A>,
    ranges: Vec<RangeSpec, A>,
    /// For each address, whether it belongs to a range.
    ranged: Vec<bool, A>,
    names: Index<'a, A>,
    /// For each address, whether it belongs to a segment.
    segmented: Vec<bool, A>,
}

impl<'a, A: Allocator> Model for Closed<'a, A> {
    ghost use Rattle.std.specs.Prelude.{List};
    ghost use Rattle.info65.specs.Code.Groups.{groups_seen};
    ghost use Rattle.info65.specs.Code.Kept.{AreKept};
    ghost use Rattle.info65.specs.Groups.{GroupView};

    ghost Value = { List GroupView };

    ghost view = { λ c. c.groups };

    ghost invariant = { λ c. AreKept c.groups (groups_seen c.kept.items) c.ranges.items c.names c.ranged.items c.segmented.items };
}

// Makes room for a group that says this, where what is kept and the tables of addresses grow.
fn make_room<'a, A: Allocator>(
    kept: &mut Vec<Group<'a, A>, A>,
    ranges: &mut Vec<RangeSpec, A>,
    ranged: &mut Vec<bool, A>,
    segmented: &mut Vec<bool, A>,
    contents: Contents<'a>,
) -> Result<(), InfoFault>
    ensures kept { kept.new.items ≡ kept.old.items }
    ensures ranges { ranges.new.items ≡ ranges.old.items }
    ensures ranged { AreSetAlike ranged.old.items ranged.new.items }
    ensures segmented { AreSetAlike segmented.old.items segmented.new.items }
    ensures more_kept { OnOk result (vec_len kept.new < vec_capacity kept.new) }
    ensures more_ranges { OnOk result (
        IfSome contents.entry.range (λ _. vec_len ranges.new < vec_capacity ranges.new)) }
    ensures range_cells { OnOk result (
        IfSome contents.entry.range (λ _. length ranged.new.items ≡ 0x1_0000)) }
    ensures segment_cells { OnOk result (
        IfSome contents.entry.segment (λ _. length segmented.new.items ≡ 0x1_0000)) }
    ensures err { IfErr result (λ e. e ≡ out_of_memory) }
{
    kept.reserve(1)?;
    if contents.range.is_some() {
        ranges.reserve(1)?;
        widen(ranged)?;
    }
    if contents.segment.is_some() {
        widen(segmented)?;
    }
    Ok(())
}

// Adds a group to those that are read again, if it is one, and returns a list for what is given in the next group: that
// of this group, if it is not read again. There is room for it.
fn keep<'a, A: Allocator>(
    alloc: A,
    kept: &mut Vec<Group<'a, A>, A>,
    group: Group<'a, A>,
) -> Vec<Assignment<'a>, A>
    requires { vec_len kept.old < vec_capacity kept.old }
    ensures { groups_seen kept.new.items ≡ groups_seen kept.old.items ++ kept_part (group_seen group.entry) }
{
    let Group { kind, given } = group;
    match kind {
        GroupKind::Range | GroupKind::Label => given,
        GroupKind::Global | GroupKind::Segment | GroupKind::Include => {
            kept.push_reserved(Group { kind, given });
            Vec::new(alloc)
        }
    }
}

impl<'a, A: Allocator + Copy> Closed<'a, A> {
    /// No groups, where those of that many bytes are to come.
    pub fn new(alloc: A, bytes: usize) -> Result<Self, InfoFault>
        ensures { Gives (λ c. c) result (Ok []) }
    {
        let groups = GroupList::new();
        let kept = Vec::new(alloc);
        let ranges = Vec::new(alloc);
        let ranged = Vec::new(alloc);
        // Beside its name a group has more bytes than a line of an include file, so fewer slots do.
        let names = Index::new(alloc, bytes / 2);
        let segmented = Vec::new(alloc);
        Ok(Closed {
            groups,
            kept,
            ranges,
            ranged,
            names,
            segmented,
        })
    }

    /// The groups GLOBAL, SEGMENT and ASMINC, in their order.
    pub fn kept(&self) -> &[Group<'a, A>]
        ensures { groups_seen result.now ≡ kept_of self.now }
    {
        self.kept.as_slice()
    }

    // What a group after these says where it closes, or its first fault.
    #[tactic(auto, using(std::proofs::lemmas::Grind::common_steps), unfolding(crate::specs::Closing::closing_fault))]
    fn contents(
        &self,
        kind: GroupKind,
        given: &[Assignment<'a>],
    ) -> Result<Contents<'a>, InfoFaultKind>
        ensures fault { result_err result ≡ closing_fault self.now kind (assigned_seen given.now) }
        ensures contents { IfOk result (AreContents (group kind (assigned_seen given.now))) }
    {
        match kind {
            GroupKind::Global => Ok(NOTHING),
            GroupKind::Range => range_contents(self.ranged.as_slice(), &self.names, given),
            GroupKind::Label => label_contents(&self.names, given),
            GroupKind::Segment => segment_contents(self.segmented.as_slice(), given),
            GroupKind::Include => match include_in(given) {
                Ok(_) => Ok(NOTHING),
                Err(fault) => Err(fault),
            },
        }
    }

    // Adds a group, which has no fault and says this, and returns a list for what is given in the next group.
    fn add(
        &mut self,
        alloc: A,
        group: Group<'a, A>,
        contents: Contents<'a>,
    ) -> Result<Vec<Assignment<'a>, A>, InfoFault>
        requires fine { MayClose self.old group }
        requires contents { AreContents (group_seen group) contents }
        ensures done { OnOk result (self.new ≡ self.old ++ group_seen group.entry ∷ []) }
        ensures err { IfErr result (λ e. e ≡ out_of_memory) }
    {
        // What can fail comes first, so that what is kept is that of these groups, whatever fails.
        make_room(
            &mut self.kept,
            &mut self.ranges,
            &mut self.ranged,
            &mut self.segmented,
            contents,
        )?;
        self.names.add_optional(contents.name)?;
        add_range(&mut self.ranges, &mut self.ranged, contents.range);
        mark_segment(&mut self.segmented, contents.segment);
        self.groups.add(&group);
        Ok(keep(alloc, &mut self.kept, group))
    }

    /// Adds a group, unless it has a fault where it closes, on this line. Returns a list for what is given in the next
    /// group.
    pub fn close(
        &mut self,
        alloc: A,
        kind: GroupKind,
        given: Vec<Assignment<'a>, A>,
        line: u32,
    ) -> Result<Vec<Assignment<'a>, A>, InfoFault>
        ensures { Grows (at_end self.old kind (assigned_seen given.entry.items) line) result
            (λ _. Ok (closed, self.new)) }
    {
        match self.contents(kind, given.as_slice()) {
            Ok(contents) => self.add(alloc, Group { kind, given }, contents),
            Err(fault) => Err(InfoFault::new(line, fault)),
        }
    }

    /// The ranges of the groups, in their order, and the names that they say, by address.
    pub fn ranges_and_names(self, alloc: A) -> Result<(Vec<RangeSpec, A>, NamePool<A>), InfoFault>
        ensures ranges { IfOk result (λ said. said.0.items ≡ ranges_of self.entry) }
        ensures names { IfOk result (λ said. said.1 ≡ by_address (names_said self.entry)) }
        ensures err { IfErr result (λ e. e ≡ out_of_memory) }
    {
        let Closed {
            groups,
            kept,
            ranges,
            ranged,
            names,
            segmented,
        } = self;
        // What is not read again is given back before the pool of the names grows.
        drop(groups);
        drop(kept);
        drop(ranged);
        drop(segmented);
        let names = names.names(alloc)?;
        Ok((ranges, names))
    }
}
