//! The list of the groups so far, which contracts alone see.

use crate::syntax::assignment::Group;
use std::alloc::Allocator;
use std::marker::Model;
use std::snapshot::Snapshot;

// A group, after those before it. A contract sees the list of all of them.
#[derive(Drop)]
#[cycle(longer)]
struct Longer<'a, A: Allocator> {
    before: Option<Snapshot<Longer<'a, A>>>,
    group: Snapshot<Group<'a, A>>,
}

impl<'a, A: Allocator> Model for Longer<'a, A> {
    ghost use Rattle.std.specs.Prelude.{List, ◌++◌, ◌∷◌, [], length};
    ghost use Rattle.info65.specs.Code.GroupLists.{before_seen};
    ghost use Rattle.info65.specs.Code.Groups.{group_seen};
    ghost use Rattle.info65.specs.Groups.{GroupView};

    ghost Value = { List GroupView };

    ghost view = { λ l. before_seen l.before ++ group_seen l.group.value ∷ [] };

    ghost size = { length };

    ghost use Rattle.std.proofs.Common.{arith, length-append};

    ghost size_decreases = { λ a h. Prim.grind (arith, length-append) };
}

/// The groups so far. A contract sees the list of them, and the program keeps nothing of them.
#[derive(Drop)]
pub struct GroupList<'a, A: Allocator> {
    last: Option<Snapshot<Longer<'a, A>>>,
}

impl<'a, A: Allocator> Model for GroupList<'a, A> {
    ghost use Rattle.std.specs.Prelude.{List};
    ghost use Rattle.info65.specs.Code.GroupLists.{before_seen};
    ghost use Rattle.info65.specs.Groups.{GroupView};

    ghost Value = { List GroupView };

    ghost view = { λ l. before_seen l.last };
}

impl<'a, A: Allocator> GroupList<'a, A> {
    ghost use Rattle.std.specs.Prelude.{◌≡◌, ◌++◌, ◌∷◌, []};
    ghost use Rattle.info65.specs.Code.Groups.{group_seen};

    /// No groups.
    pub fn new() -> Self
        ensures { result ≡ [] }
    {
        GroupList { last: None }
    }

    /// Adds a group.
    pub fn add(&mut self, group: &Group<'a, A>)
        ensures { self.new ≡ self.old ++ group_seen group.now ∷ [] }
    {
        let longer = Longer {
            before: self.last.take(),
            group: Snapshot::of(group),
        };
        self.last = Some(Snapshot::of(&longer));
    }
}
