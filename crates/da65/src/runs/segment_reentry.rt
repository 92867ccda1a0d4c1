//! Whether a segment is entered again.

ghost use Rattle.std.specs.Prelude.{◌≡◌, ℕ, List, IfOk, None, OnOk, false};
ghost use Rattle.std.specs.Option.{option_copied};
ghost use Rattle.da65.specs.Words.{HasNameToo, IsAfter, has_had, has_name, is_entered_again, segment_name};

use crate::listing::grouping::is_skipped;
use crate::listing::heading_lines::is_same_segment;
use map65::Map;
use std::alloc::{AllocError, Allocator};
use std::collections::BTreeMap;

/// The name of a segment. The default counts as CODE.
fn name_of(segment: Option<&[u8]>) -> &[u8]
    ensures { result.now ≡ segment_name (option_copied segment.entry) }
{
    match segment {
        Some(name) => name,
        None => b"CODE",
    }
}

/// The segments of the groups so far.
#[derive(Drop)]
struct Entered<'a, A: Allocator> {
    /// The segment of the last group. Before the first it is the default.
    last: Option<&'a [u8]>,
    /// The names of the segments.
    names: BTreeMap<&'a [u8], (), A>,
}

/// Adds a name. Returns whether it was there.
#[tactic(auto, using(crate::proofs::Reentry::name_added))]
fn add_name<'a, A: Allocator + Copy>(
    names: &mut BTreeMap<&'a [u8], (), A>,
    name: &'a [u8],
) -> Result<bool, AllocError>
    ensures old { IfOk result (λ is_old. is_old ≡ has_name names.old name.entry.now) }
    ensures names { OnOk result (HasNameToo names.old names.new name.entry.now) }
{
    Ok(names.insert(name, ())?.is_some())
}

impl<'a, A: Allocator + Copy> Entered<'a, A> {
    fn none(alloc: A) -> Self
        ensures last { option_copied result.last ≡ None }
        ensures names { (t : List ℕ) → has_had result t ≡ false }
    {
        Entered {
            last: None,
            names: BTreeMap::new(alloc),
        }
    }

    /// Adds the segment of the next group. Returns whether a segment line leads back to it.
    fn add(&mut self, segment: Option<&'a [u8]>) -> Result<bool, AllocError>
        ensures { IfOk result (λ b. IsAfter self.old self.new (option_copied segment.entry) b) }
    {
        let is_old = add_name(&mut self.names, name_of(segment))?;
        let is_back = !is_same_segment(self.last, segment) && is_old;
        self.last = segment;
        Ok(is_back)
    }
}

/// Whether a segment line of the listing leads to a segment that an earlier group had.
///
/// A run has no segment border inside, so its first group decides. The time grows as n + r log s with n bytes, r runs
/// and s segments. Only the names of the segments are kept.
pub fn is_entered_again<A: Allocator + Copy>(alloc: A, map: &Map<'_, A>) -> Result<bool, AllocError>
    ensures { IfOk result (λ is. is ≡ is_entered_again map.now) }
{
    if map.info().segments().is_empty() {
        return Ok(false);
    }
    let image = map.image();
    let start = image.start() as usize;
    let mut entered = Entered::none(alloc);
    for at in 0..image.bytes().len() {
        let address = (start + at) as u16;
        if map.is_in_run(address) {
            continue;
        }
        if is_skipped(map, address) {
            continue;
        }
        if entered.add(map.segment_at(address))? {
            return Ok(true);
        }
    }
    Ok(false)
}
