//! The pieces of a page: its tags, and the text between them.

ghost use Rattle.std.specs.Prelude.{◌≡◌, ◌<◌, ◌+◌, ◌≤◌, [], codes, drop, length, min, take, true, IsTrue, MatchOption};
ghost use Rattle.std.specs.List.{prefix_len};
ghost use Rattle.html65.specs.Pieces.{Text, entity_at, is_neither, is_other, pieces};
ghost use Rattle.html65.specs.Views.{BeginsWith};

use std::simd::prelude::{SimdPartialEq, u8x32};

/// A piece of a page.
#[derive(Clone, Copy)]
pub enum Piece<'a> {
    /// A tag, without its angle brackets.
    Tag(&'a [u8]),
    /// Bytes of the text; the one of an entity stands by itself.
    Text(&'a [u8]),
}

/// How many bytes of a block come before the first one that is this byte; 64 if none is.
#[inline(always)]
fn block_len(byte: u8, block: u8x32) -> usize
    ensures { min 32 result ≡ prefix_len (is_other byte) block }
{
    block
        .simd_eq(u8x32::splat(byte))
        .to_bitmask()
        .trailing_zeros() as usize
}

/// How many bytes come before the first one that is one of these two. The first bytes are looked at together.
#[inline(always)]
#[tactic(auto, using(crate::proofs::PieceLemmas::in_block))]
fn len_before_either(one: u8, other: u8, bytes: &[u8]) -> usize
    ensures value { result ≡ prefix_len (is_neither one other) bytes.now }
    ensures fits { result ≤ length bytes.now }
{
    if 32 <= bytes.len() {
        let block = u8x32::from_slice(bytes);
        let len = block_len(one, block).min(block_len(other, block));
        if len < 32 {
            return len;
        }
    }
    let is_other = |byte: &&u8| !(**byte == one || **byte == other);
    bytes.iter().take_while(is_other).count()
}

/// How many bytes come before the first one that is this byte.
#[inline(always)]
#[tactic(auto, using(crate::proofs::PieceLemmas::one_of_two))]
pub fn len_before(byte: u8, bytes: &[u8]) -> usize
    ensures value { result ≡ prefix_len (is_other byte) bytes.now }
    ensures fits { result ≤ length bytes.now }
{
    len_before_either(byte, byte, bytes)
}

/// The byte that an entity stands for, and the length of the entity; without an entity the byte `&` alone.
#[tactic(auto, unfolding(crate::specs::Pieces::entity_at))]
fn entity_at(bytes: &[u8]) -> (&'static [u8], usize)
    ensures text { result.0.now ≡ (entity_at bytes.now).0 }
    ensures len { result.1 ≡ (entity_at bytes.now).1 }
    ensures some { 0 < result.1 }
{
    if bytes.starts_with(b"&amp;") {
        return (b"&", 5);
    }
    if bytes.starts_with(b"&lt;") {
        return (b"<", 4);
    }
    if bytes.starts_with(b"&gt;") {
        return (b">", 4);
    }
    if bytes.starts_with(b"&#13;") {
        return (b"\r", 5);
    }
    if bytes.starts_with(b"&#0;") {
        return (b"\0", 4);
    }
    (b"&", 1)
}

/// The bytes after this many; none if there are fewer.
fn after(bytes: &[u8], count: usize) -> &[u8]
    ensures { result.now ≡ drop count bytes.now }
{
    if count < bytes.len() {
        return &bytes[count..];
    }
    &[]
}

/// The first piece of a page, and the bytes after it.
#[tactic(auto, using(crate::proofs::PieceLemmas::first_pieces))]
pub fn first_piece(page: &[u8]) -> Option<(Piece<'_>, &[u8])>
    ensures { MatchOption result (pieces page.now ≡ [])
        (λ found. BeginsWith page.now found.0 found.1.now) }
{
    if page.is_empty() {
        return None;
    }
    let first = page[0];
    if first == b'<' {
        let len = len_before(b'>', &page[1..]);
        return Some((Piece::Tag(&page[1..len + 1]), after(page, len + 2)));
    }
    if first == b'&' {
        let (text, len) = entity_at(page);
        return Some((Piece::Text(text), after(page, len)));
    }
    let len = len_before_either(b'<', b'&', page);
    Some((Piece::Text(&page[..len]), &page[len..]))
}
