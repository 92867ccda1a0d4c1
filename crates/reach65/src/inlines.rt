//! Tables by which the texts after calls are found.

ghost use Rattle.std.specs.Prelude.{◌≡◌, ℕ, IfOk, [], length, slice_index};
ghost use Rattle.std.specs.List.{list_any};
ghost use Rattle.reach65.specs.Words.{AreEnds, AreFirsts, Enters, HasText, is_text};

use info65::{Tag, TagKind};
use map65::{ADDRESSES, Image};
use std::alloc::{AllocError, Global};

/// Whether the group says that text follows each call of an address.
fn is_text(tag: Tag) -> bool
    ensures { result ≡ is_text tag }
{
    tag.kind == TagKind::Inline
}

/// Whether a group says that text follows each call of an address.
fn has_text(tags: &[Tag]) -> bool
    ensures { result ≡ list_any is_text tags.now }
{
    tags.iter().any(|&tag| is_text(tag))
}

/// That many zeros.
#[tactic(auto, using(map65::proofs::Public::blank_word))]
fn zeros(alloc: Global, count: usize) -> Result<Vec<usize>, AllocError>
    ensures len { IfOk result (λ zeros. length zeros.items ≡ count) }
    ensures blank { IfOk result (λ zeros. (k : ℕ) → slice_index zeros.items k ≡ 0) }
{
    vec![in alloc; 0usize; count]
}

/// Enters the number of a group for its address, unless an earlier one is there.
#[tactic(auto, unfolding(crate::specs::Inlines::is_inline))]
fn enter(firsts: &mut [usize], tag: Tag, number: usize)
    requires { length firsts.old ≡ 65536 }
    ensures len { length firsts.new ≡ length firsts.old }
    ensures entered { Enters tag number firsts.old firsts.new }
{
    if is_text(tag)
        && let Some(address) = tag.address
        && firsts[usize::from(address)] == 0
    {
        firsts[usize::from(address)] = number;
    }
}

/// Enters the numbers of the groups, from 1 on.
#[tactic(auto, using(crate::proofs::TableLemmas::firsts_blank))]
fn enter_all(firsts: &mut [usize], tags: &[Tag])
    requires all { length firsts.old ≡ 65536 }
    requires blank { (a : ℕ) → slice_index firsts.old a ≡ 0 }
    ensures { AreFirsts tags.now [] firsts.new }
{
    'tags: for (k, &tag) in tags.iter().enumerate() {
        enter(firsts, tag, k + 1);
    }
}

/// For each address the number of the first group that says that text follows each call of it, from 1
/// on, or 0. Empty if no group says so.
#[tactic(auto, using(crate::proofs::TableLemmas::firsts_none))]
pub fn firsts_of(alloc: Global, tags: &[Tag]) -> Result<Vec<usize>, AllocError>
    ensures { IfOk result (λ firsts. AreFirsts tags.now [] firsts.items) }
{
    if !has_text(tags) {
        return Ok(Vec::new(alloc));
    }
    let mut firsts = zeros(alloc, ADDRESSES)?;
    enter_all(firsts.as_mut_slice(), tags);
    Ok(firsts)
}

/// Enters for each byte of the image the address after the next zero byte, and one more, or 0 if there is none.
fn enter_ends(ends: &mut [u32], image: &Image)
    requires { length ends.old ≡ length image.now.bytes }
    ensures { AreEnds image.now image.now.start ends.new }
{
    let start = usize::from(image.start());
    let bytes = image.bytes();
    let mut end = 0;
    'bytes: for i in (0..bytes.len()).rev() {
        if bytes[i] == 0 {
            end = (start + i + 2) as u32;
        }
        ends[i] = end;
    }
}

/// For each byte of the image the address after the next zero byte, and one more, or 0 if there is none. Empty if no
/// group says that text follows calls.
pub fn ends_of(alloc: Global, image: &Image, tags: &[Tag]) -> Result<Vec<u32>, AllocError>
    ensures { IfOk result (λ ends.
        HasText tags.now → AreEnds image.now image.now.start ends.items) }
{
    if !has_text(tags) {
        return Ok(Vec::new(alloc));
    }
    let mut ends = vec![in alloc; 0u32; image.bytes().len()]?;
    enter_ends(ends.as_mut_slice(), image);
    Ok(ends)
}
