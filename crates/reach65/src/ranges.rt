//! The ranges of the addresses that are not taken.

ghost use Rattle.std.specs.Prelude.{◌≡◌, ◌≤◌, ◌<◌, ℕ, IfOk, not};
ghost use Rattle.map65.specs.Words.{is_marked};
ghost use Rattle.reach65.specs.Words.{AreInOrder, HaveAllFree, LieIn};

use info65::{RangeSpec, RangeType};
use map65::{Image, Marks};
use std::alloc::{AllocError, Allocator};

/// The first address from `from` to before `to` that is marked, or that is not, as asked; `to` if there is none.
fn first_with<A: Allocator>(marks: &Marks<A>, is: bool, from: usize, to: usize) -> usize
    requires order { from ≤ to }
    requires room { to ≤ 65536 }
    ensures low { from ≤ result }
    ensures high { result ≤ to }
    ensures others { (a : ℕ) → from ≤ a → a < result → is_marked marks.now a ≡ not is }
    ensures first { result < to → is_marked marks.now result ≡ is }
{
    'marks: for at in from..to {
        if marks.get(at as u16) == is {
            return at;
        }
    }
    to
}

/// Returns ranges of exactly the addresses of the image that are not taken, in order. `piece` is called with the first
/// address of each range, and returns its type and the address before which it should end. The range ends before that
/// address, before the next taken one or with the image, whichever comes first, but it has at least one byte. Looks at
/// each address twice at most. Fails only if an allocation fails.
pub fn ranges_of<A: Allocator, B: Allocator, C: Allocator, F: Fn(u16) -> (RangeType, usize)>(
    alloc: A,
    image: &Image<B>,
    taken: &Marks<C>,
    piece: F,
) -> Result<Vec<RangeSpec, A>, AllocError>
    requires { F.IsAlwaysCallable piece }
    /// The ranges are disjoint, in order, lie in the image, and cover exactly its addresses that are not taken,
    /// whatever the caller's function says of where they end. Or out of memory.
    ensures cover { IfOk result (λ list. HaveAllFree image.now (is_marked taken.now) list.items) }
    ensures inside { IfOk result (λ list. LieIn image.now list.items) }
    ensures apart { IfOk result (λ list. AreInOrder list.items) }
{
    let start = usize::from(image.start());
    let end = start + image.bytes().len();
    let mut ranges = Vec::new(alloc);
    let mut first = first_with(taken, false, start, end);
    'pieces: while first < end {
        let (role, asked) = piece(first as u16);
        let after = first_with(taken, true, first + 1, asked.max(first + 1).min(end));
        ranges.push(RangeSpec {
            first: first as u16,
            last: (after - 1) as u16,
            role,
        })?;
        first = first_with(taken, false, after, end);
    }
    Ok(ranges)
}
