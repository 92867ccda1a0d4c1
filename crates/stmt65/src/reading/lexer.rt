//! The parts of a line, each taken as long as it can be.

ghost use Rattle.std.specs.Prelude.{◌<◌, ◌∷◌, ◌≡◌, ◌≤◌, IfSome, MatchOption, [], drop, false, get_or, length, take, true};
ghost use Rattle.std.specs.Char.{is_ascii_digit, is_ascii_hexdigit};
ghost use Rattle.std.specs.List.{prefix_len};
ghost use Rattle.stmt65.specs.Words.{Language, alone_at, cut_by, hex_len, is_binary_digit, is_blank, is_character, is_text_byte, is_word_byte, is_word_start, part_at, part_of, part_text, parts};

use crate::language::Language;
use text65::{is_blank, is_word_byte};

/// What stands in a line: words and numbers as they are written, the bytes between the quotes of a
/// string, `:=`, and any other byte by itself.
#[derive(Clone, Copy)]
pub enum Part<'a> {
    Word(&'a [u8]),
    Number(&'a [u8]),
    Text(&'a [u8]),
    Define,
    Mark(u8),
}

fn is_word_start(b: u8) -> bool
    ensures { result ≡ is_word_start b }
{
    b.is_ascii_alphabetic() || b == b'_' || b == b'.'
}

fn is_text_byte(b: u8) -> bool
    ensures { result ≡ is_text_byte b }
{
    b > 0x1F && b < 0x7F && b != b'"'
}

fn word_len(bytes: &[u8]) -> usize
    ensures value { result ≡ prefix_len is_word_byte bytes.now }
    ensures fits { result ≤ length bytes.now }
{
    bytes.iter().take_while(|b| is_word_byte(**b)).count()
}

fn digits_len(bytes: &[u8]) -> usize
    ensures value { result ≡ prefix_len is_ascii_digit bytes.now }
    ensures fits { result ≤ length bytes.now }
{
    bytes.iter().take_while(|b| b.is_ascii_digit()).count()
}

fn hex_digits_len(bytes: &[u8]) -> usize
    ensures value { result ≡ prefix_len is_ascii_hexdigit bytes.now }
    ensures fits { result ≤ length bytes.now }
{
    bytes.iter().take_while(|b| b.is_ascii_hexdigit()).count()
}

/// How many hex digits a `$` before the bytes takes.
fn hex_len(bytes: &[u8]) -> usize
    ensures value { result ≡ hex_len bytes.now }
    ensures fits { result ≤ length bytes.now }
{
    let len = hex_digits_len(bytes);
    if len < 8 { len } else { 8 }
}

fn text_len(bytes: &[u8]) -> usize
    ensures value { result ≡ prefix_len is_text_byte bytes.now }
    ensures fits { result ≤ length bytes.now }
{
    bytes.iter().take_while(|b| is_text_byte(**b)).count()
}

fn is_binary_digit(b: u8) -> bool
    ensures { result ≡ is_binary_digit b }
{
    b == b'0' || b == b'1'
}

fn binary_len(bytes: &[u8]) -> usize
    ensures value { result ≡ prefix_len is_binary_digit bytes.now }
    ensures fits { result ≤ length bytes.now }
{
    bytes.iter().take_while(|b| is_binary_digit(**b)).count()
}

/// A byte from $20 to $7E, and an apostrophe after it.
fn is_character(bytes: &[u8]) -> bool
    ensures value { result ≡ is_character bytes.now }
    ensures two { result ≡ true → 2 ≤ length bytes.now }
{
    match bytes {
        [byte, end, ..] => *byte > 0x1F && *byte < 0x7F && *end == b'\'',
        _ => false,
    }
}

/// The part that begins with the first byte, which begins none of a listing but itself, and how
/// many of the bytes after it belong to it.
fn alone_at(language: Language, bytes: &[u8]) -> (Part<'_>, usize)
    requires { 0 < length bytes.now }
    ensures part { part_of result.0 ≡ (cut_by (alone_at language) bytes.now).0 }
    ensures more { result.1 ≡ (cut_by (alone_at language) bytes.now).1 }
    ensures fits { result.1 < length bytes.now }
{
    let [first, after @ ..] = bytes else {
        unreachable!()
    };
    if language == Language::Listing {
        return (Part::Mark(*first), 0);
    }
    if *first == b'%' {
        let len = binary_len(after);
        if len > 0 {
            return (Part::Number(&bytes[..len + 1]), len);
        }
    }
    if *first == b'\'' && is_character(after) {
        return (Part::Number(&bytes[..3]), 2);
    }
    (Part::Mark(*first), 0)
}

/// The part that begins with the first byte, and how many of the bytes after it belong to it.
#[tactic(auto, unfolding(crate::specs::Lexing::part_at))]
fn part_at(language: Language, bytes: &[u8]) -> (Part<'_>, usize)
    requires { 0 < length bytes.now }
    ensures part { part_of result.0 ≡ (cut_by (part_at language) bytes.now).0 }
    ensures more { result.1 ≡ (cut_by (part_at language) bytes.now).1 }
    ensures fits { result.1 < length bytes.now }
{
    let [first, after @ ..] = bytes else {
        unreachable!()
    };
    let first = *first;
    if is_word_start(first) {
        let len = word_len(after);
        return (Part::Word(&bytes[..len + 1]), len);
    }
    if first.is_ascii_digit() {
        let len = digits_len(after);
        return (Part::Number(&bytes[..len + 1]), len);
    }
    if first == b'$' {
        let len = hex_len(after);
        if len > 0 {
            return (Part::Number(&bytes[..len + 1]), len);
        }
    }
    if first == b'"' {
        let len = text_len(after);
        if len < after.len() && after[len] == b'"' {
            return (Part::Text(&after[..len]), len + 1);
        }
    }
    if first == b':' && !after.is_empty() && after[0] == b'=' {
        return (Part::Define, 1);
    }
    alone_at(language, bytes)
}

/// How many blanks the bytes begin with.
pub fn blank_len(bytes: &[u8]) -> usize
    ensures value { result ≡ prefix_len is_blank bytes.now }
    ensures fits { result ≤ length bytes.now }
{
    bytes.iter().take_while(|byte| is_blank(**byte)).count()
}

/// The part with which the bytes begin, and how many of them it has. They begin with no blank.
#[inline(always)]
#[tactic(auto, using(crate::proofs::PartLemmas::lexing))]
pub fn part_here(language: Language, bytes: &[u8]) -> Option<(Part<'_>, usize)>
    requires stop { 0 < length bytes.now → is_blank (get_or bytes.now 0 0) ≡ false }
    ensures parts { MatchOption result (parts language bytes.now ≡ [])
        (λ f. parts language bytes.now ≡ part_of f.0 ∷ parts language (drop f.1 bytes.now)) }
    ensures text { IfSome result (λ f. part_text (part_of f.0) ≡ take f.1 bytes.now) }
    ensures fits { IfSome result (λ f. f.1 ≤ length bytes.now) }
{
    match bytes {
        [] => None,
        [first, ..] => {
            if *first == b';' {
                return None;
            }
            let (part, more) = part_at(language, bytes);
            Some((part, more + 1))
        }
    }
}

/// The first part of the line, and the bytes after it.
#[tactic(auto, using(crate::proofs::PartLemmas::parts_begin, crate::proofs::PartLemmas::no_blank))]
pub fn first_part(language: Language, bytes: &[u8]) -> Option<(Part<'_>, &[u8])>
    ensures { MatchOption result (parts language bytes.now ≡ [])
        (λ found. parts language bytes.now ≡ part_of found.0 ∷ parts language found.1.now) }
{
    let (_, left) = bytes.split_at(blank_len(bytes));
    let (part, len) = part_here(language, left)?;
    Some((part, left.split_at(len).1))
}
