//! The ids of a page: that they differ, and where the one of a link is.

ghost use Rattle.std.specs.Prelude.{◌≡◌, ◌∷◌, ◌<◌, ◌+◌, [], IfOk, IsSome, IsTrue, true};
ghost use Rattle.std.specs.List.{list_all};
ghost use Rattle.html65.specs.Links.{are_ascending, is_found, kind_of, number_in, texts, with_digit};

use std::alloc::{AllocError, Global};

/// The most that the number of an id may be for it to be found again.
const MOST: usize = 4_194_304;

/// The place of no id.
const NOWHERE: usize = usize::MAX;

/// The place of each id among all, by its kind and its number. Nothing of it is trusted: whoever asks looks whether the
/// id is there.
#[derive(Drop)]
pub struct Index {
    names: Vec<usize>,
    lines: Vec<usize>,
    rows: Vec<usize>,
    lists: Vec<usize>,
}

impl Index {
    fn new(alloc: Global) -> Index {
        Index {
            names: Vec::new(alloc),
            lines: Vec::new(alloc),
            rows: Vec::new(alloc),
            lists: Vec::new(alloc),
        }
    }

    /// Takes down the place of the next id of a kind, which has a number.
    fn note(&mut self, kind: usize, number: u32, place: usize) -> Result<(), AllocError> {
        let places = match kind {
            0 => &mut self.names,
            1 => &mut self.lines,
            2 => &mut self.rows,
            _ => &mut self.lists,
        };
        let number = number as usize;
        if MOST < number {
            return Ok(());
        }
        if places.len() < number {
            places.resize(number, NOWHERE)?;
        }
        places.push(place)?;
        Ok(())
    }

    /// Where an id should be.
    fn place_of(&self, id: &[u8]) -> usize {
        let places = match kind_of(id) {
            0 => &self.names,
            1 => &self.lines,
            2 => &self.rows,
            _ => &self.lists,
        };
        places
            .get(number_in(id) as usize)
            .copied()
            .unwrap_or(NOWHERE)
    }
}

/// The kind of an id, by its first byte.
pub fn kind_of(id: &[u8]) -> usize
    ensures value { result ≡ kind_of id.now }
    ensures four { result < 4 }
{
    if id.is_empty() {
        return 0;
    }
    usize::from(id[0] % 4)
}

/// The number after a byte, which counts if it is a hex digit.
#[inline(always)]
fn with_digit(radix: u32, number: u32, byte: u8) -> u32
    ensures { result ≡ with_digit radix number byte }
{
    let digit = match byte {
        b'0'..=b'9' => byte - b'0',
        b'a'..=b'f' => byte - b'a' + 10,
        b'A'..=b'F' => byte - b'A' + 10,
        _ => return number,
    };
    number.wrapping_mul(radix).wrapping_add(u32::from(digit))
}

/// The number that the digits of an id make.
#[tactic(auto, using(std::proofs::lemmas::List::Sums::fold_more), unfolding(crate::specs::Links::number_in))]
pub fn number_in(id: &[u8]) -> u32
    ensures { result ≡ number_in id.now }
{
    let radix = if kind_of(id) == 0 { 10 } else { 16 };
    let digits = if id.is_empty() { id } else { &id[1..] };
    let mut number = 0;
    'bytes: for byte in digits {
        number = with_digit(radix, number, *byte);
    }
    number
}

/// Where the ids are, if the numbers of each kind ascend, so that they differ.
#[tactic(auto, unfolding(crate::specs::Links::are_ascending))]
pub fn index_of(alloc: Global, ids: &[&[u8]]) -> Result<Option<Index>, AllocError>
    ensures { IfOk result (λ found. IsSome found
        → are_ascending (0 ∷ 0 ∷ 0 ∷ 0 ∷ []) (texts ids.now) ≡ true) }
{
    let mut index = Index::new(alloc);
    let mut least: [usize; 4] = [0; 4];
    let mut rest = ids;
    'ids: while let [id, after @ ..] = rest {
        let kind = kind_of(id);
        let number = number_in(id);
        if (number as usize) < least[kind] {
            return Ok(None);
        }
        least[kind] = number as usize + 1;
        index.note(kind, number, ids.len().saturating_sub(rest.len()))?;
        rest = after;
    }
    Ok(Some(index))
}

/// Whether the id that should be the target is it.
#[tactic(auto, using(crate::proofs::LinkLemmas::one_is_found))]
fn is_found(ids: &[&[u8]], index: &Index, target: &[u8]) -> bool
    requires { are_ascending (0 ∷ 0 ∷ 0 ∷ 0 ∷ []) (texts ids.now) ≡ true }
    ensures { IsTrue result → IsTrue (is_found (texts ids.now) target.now) }
{
    let place = index.place_of(target);
    place < ids.len() && ids[place] == target
}

/// Whether each target is found among the ids.
pub fn are_found(ids: &[&[u8]], index: &Index, targets: &[&[u8]]) -> bool
    requires { are_ascending (0 ∷ 0 ∷ 0 ∷ 0 ∷ []) (texts ids.now) ≡ true }
    ensures { IsTrue result → IsTrue (list_all (is_found (texts ids.now)) (texts targets.now)) }
{
    'targets: for target in targets {
        if !is_found(ids, index, target) {
            return false;
        }
    }
    true
}
