//! The bytes of one fragment of a statement.

ghost use Rattle.std.specs.Prelude.{◌≡◌, [], ◌∷◌, ◌&&◌, nat_lt, replicate, Some, true, is_some};
ghost use Rattle.stmt65.specs.Words.{Adds, AddsOne, below, distance, entry_bytes, fragment_of, half_of, is_fragment_known, is_near, low, or_zero};

use crate::assembling::coding::Fragment;
use crate::assembling::entries::put_number;
use crate::assembling::symbols::LineNames;
use crate::assembling::values::{entry_in, is_known, word_in};
use crate::directive::Directive;
use crate::source_line::Half;
use std::alloc::{AllocError, Allocator};

/// Whether each name in the fragment has a definition.
pub fn is_fragment_known<A: Allocator + Clone>(
    names: &LineNames<'_, '_, '_, A>,
    fragment: Fragment,
) -> bool
    ensures { result ≡ is_fragment_known names.now (fragment_of fragment.entry) }
{
    match fragment {
        Fragment::Single(v)
        | Fragment::ZeroPage(v)
        | Fragment::Oversized(v)
        | Fragment::Distance(v)
        | Fragment::Entry(_, v)
        | Fragment::Half(_, v) => is_known(names, v),
        Fragment::Reserved(_, _) | Fragment::Gap(_, _) => true,
    }
}

/// Whether there is a value, and it is a byte.
fn is_byte(word: Option<u16>) -> bool
    ensures { result ≡ is_some (below 256 word) }
{
    match word {
        Some(word) => word < 256,
        None => false,
    }
}

/// From 128 below the address `next` to 127 above it.
fn is_near(next: u64, word: Option<u16>) -> bool
    ensures { result ≡ is_near next word }
{
    let Some(word) = word else {
        return false;
    };
    let word = u128::from(word);
    let next = u128::from(next);
    next <= word + 128 && word <= next + 127
}

/// The signed distance from `next` as a byte.
fn distance(next: u64, word: u16) -> u8
    ensures { result ≡ distance next word }
{
    ((u64::from(word) + 256).saturating_sub(next) % 256) as u8
}

/// The low or the high byte.
fn half_of(half: Half, word: u16) -> u8
    ensures { result ≡ half_of half word }
{
    match half {
        Half::Low => (word % 256) as u8,
        Half::High => (word / 256) as u8,
    }
}

/// Adds a byte if it fits.
fn put_byte<A: Allocator>(out: &mut Vec<u8, A>, fits: bool, byte: u8) -> Result<bool, AllocError>
    ensures { Adds result fits (byte ∷ []) out.old out.new }
{
    if fits {
        out.push(byte)?;
    }
    Ok(fits)
}

/// So many bytes of one value.
fn put_fill<A: Allocator>(out: &mut Vec<u8, A>, count: u64, value: u64) -> Result<bool, AllocError>
    ensures { Adds result (nat_lt count 65536 && nat_lt value 256) (replicate count (low value)) out.old out.new }
{
    if count < 65536 && value < 256 {
        let len = out.len() + count as usize;
        out.resize(len, value as u8)?;
        return Ok(true);
    }
    Ok(false)
}

/// The value as an entry, if there is one.
fn put_entry<A: Allocator>(
    out: &mut Vec<u8, A>,
    directive: Directive,
    value: Option<u32>,
) -> Result<bool, AllocError>
    ensures { Adds result (is_some value) (entry_bytes directive (or_zero value)) out.old out.new }
{
    match value {
        Some(value) => {
            put_number(out, directive, value)?;
            Ok(true)
        }
        None => Ok(false),
    }
}

/// Adds the bytes of a fragment if it has room for its value, and returns whether it has;
/// `next` is the address after the statement.
#[tactic(auto, unfolding(crate::specs::Coding::fragment_fits, crate::specs::Coding::fragment_bytes))]
pub fn put_fragment<A: Allocator + Clone, B: Allocator>(
    out: &mut Vec<u8, B>,
    names: &LineNames<'_, '_, '_, A>,
    next: u64,
    fragment: Fragment,
) -> Result<bool, AllocError>
    ensures { AddsOne result names.now next (fragment_of fragment.entry) out.old out.new }
{
    match fragment {
        Fragment::Single(v) | Fragment::ZeroPage(v) => {
            let word = word_in(names, v);
            put_byte(out, is_byte(word), half_of(Half::Low, word.unwrap_or(0)))
        }
        Fragment::Oversized(_) => Ok(false),
        Fragment::Entry(directive, v) => put_entry(out, directive, entry_in(names, directive, v)),
        Fragment::Distance(v) => {
            let word = word_in(names, v);
            put_byte(out, is_near(next, word), distance(next, word.unwrap_or(0)))
        }
        Fragment::Half(half, v) => {
            let word = word_in(names, v);
            put_byte(out, word.is_some(), half_of(half, word.unwrap_or(0)))
        }
        Fragment::Reserved(count, value) => put_fill(out, count.value(), value.value()),
        Fragment::Gap(count, value) => put_fill(out, u64::from(count), u64::from(value)),
    }
}
