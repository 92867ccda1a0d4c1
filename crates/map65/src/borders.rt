//! Marks the segment borders in the cells of a map.

ghost use Rattle.std.specs.Prelude.{◌≡◌, ◌+◌, ◌==◌, ◌||◌, length};
ghost use Rattle.info65.specs.Words.{AreSegments};
ghost use Rattle.map65.specs.Words.{Changes, is_border, with_border};

use crate::cells::with_border;
use info65::Info;
use std::alloc::Allocator;

/// Marks a border before an address. Nothing is marked for $10000, which is no address.
#[tactic(auto, using(crate::proofs::ChangeLemmas::changes))]
fn mark_border(cells: &mut [u16], at: usize)
    requires { length cells.old ≡ 65536 }
    ensures { Changes with_border (λ a. at == a) cells.old cells.new }
{
    if at < cells.len() {
        cells[at] = with_border(cells[at]);
    }
}

/// Marks the borders of a segment: before its first address, and after its last.
#[tactic(auto, using(crate::proofs::CellLemmas::with_border_again, crate::proofs::ChangeLemmas::changes))]
fn mark_segment(cells: &mut [u16], first: u16, last: u16)
    requires { length cells.old ≡ 65536 }
    ensures { Changes with_border (λ a. first == a || last + 1 == a) cells.old cells.new }
{
    mark_border(cells, usize::from(first));
    mark_border(cells, usize::from(last) + 1);
}

/// Marks the borders of all segments.
pub fn mark_borders<A: Allocator>(cells: &mut [u16], info: &Info<A>)
    requires { length cells.old ≡ 65536 }
    ensures marked { Changes with_border (is_border info.now.segments) cells.old cells.new }
    ensures sound { AreSegments info.now.segments }
{
    let segments = info.segments();
    for i in 0..segments.len() {
        let segment = &segments[i];
        mark_segment(cells, segment.first, segment.last);
    }
}
