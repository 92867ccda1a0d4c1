//! What a token is, from its first byte on.

ghost use Rattle.std.specs.Prelude.{◌≡◌, ◌+◌, ◌-◌, ◌<◌, ◌≤◌, IfOk, IfSome, get_or, length};
ghost use Rattle.std.specs.List.{prefix_len};
ghost use Rattle.info65.specs.Words.{AreDigitsIn, Sees, begins_gap, bit_of, character_at, classes_of, in_class, is_blank, kind_seen, lexeme_at, lexeme_seen, number_in, starts_word, string_at, word_at};
ghost use Rattle.info65.specs.Lexemes.{mark, number_at};

use crate::fault::{InfoFault, InfoFaultKind};
use crate::syntax::digits::{digits_at, number_of_digits};
use crate::syntax::token::TokenKind;

/// Bytes that run on within a token.
#[derive(Clone, Copy)]
pub enum Class {
    Word,
    Decimal,
    Hexadecimal,
    Text,
}

/// A token at the front of some bytes: what it is, and how many bytes it takes after its first.
#[derive(Clone, Copy)]
pub struct Lexeme<'a> {
    pub kind: TokenKind<'a>,
    pub more: usize,
}

// The classes of each byte: 1 for a word, 2 and 4 for decimal and hexadecimal digits, 8 for a text, 16 for a blank, and
// 32 for a byte that ends a line or may begin a comment.
const CLASSES: [u8; 256] = [
    0, 0, 0, 0, 0, 0, 0, 0, 0, 24, 32, 0, 0, 16, 0, 0, 0, 0, 0, 0, 0, 0, 0, 0, 0, 0, 0, 0, 0, 0, 0,
    0, 24, 8, 0, 40, 8, 8, 8, 8, 8, 8, 8, 8, 8, 8, 8, 40, 15, 15, 15, 15, 15, 15, 15, 15, 15, 15,
    8, 8, 8, 8, 8, 8, 8, 13, 13, 13, 13, 13, 13, 9, 9, 9, 9, 9, 9, 9, 9, 9, 9, 9, 9, 9, 9, 9, 9, 9,
    9, 9, 9, 8, 8, 8, 8, 9, 8, 13, 13, 13, 13, 13, 13, 9, 9, 9, 9, 9, 9, 9, 9, 9, 9, 9, 9, 9, 9, 9,
    9, 9, 9, 9, 9, 8, 8, 8, 8, 0, 8, 8, 8, 8, 8, 8, 8, 8, 8, 8, 8, 8, 8, 8, 8, 8, 8, 8, 8, 8, 8, 8,
    8, 8, 8, 8, 8, 8, 8, 8, 8, 8, 8, 8, 8, 8, 8, 8, 8, 8, 8, 8, 8, 8, 8, 8, 8, 8, 8, 8, 8, 8, 8, 8,
    8, 8, 8, 8, 8, 8, 8, 8, 8, 8, 8, 8, 8, 8, 8, 8, 8, 8, 8, 8, 8, 8, 8, 8, 8, 8, 8, 8, 8, 8, 8, 8,
    8, 8, 8, 8, 8, 8, 8, 8, 8, 8, 8, 8, 8, 8, 8, 8, 8, 8, 8, 8, 8, 8, 8, 8, 8, 8, 8, 8, 8, 8, 8, 8,
    8, 8, 8, 8, 8, 8, 8, 8, 8, 8,
];

// The bit of a class.
fn bit_of(class: Class) -> u8
    ensures value { result ≡ bit_of class }
    ensures some { 0 < result }
{
    match class {
        Class::Word => 1,
        Class::Decimal => 2,
        Class::Hexadecimal => 4,
        Class::Text => 8,
    }
}

fn classes_in(classes: &[u8], byte: u8) -> u8
    ensures { result ≡ get_or classes.now byte 0 }
{
    match classes.get(usize::from(byte)) {
        Some(classes) => *classes,
        None => 0,
    }
}

// The classes of a byte.
#[tactic(auto, unfolding(crate::specs::Code::Classes::classes_of))]
fn classes_of(byte: u8) -> u8
    ensures { result ≡ classes_of byte }
{
    classes_in(&CLASSES, byte)
}

#[tactic(auto, using(crate::proofs::ClassLemmas::class_told))]
fn is_in(class: Class, byte: u8) -> bool
    ensures { result ≡ in_class class byte }
{
    classes_of(byte) / bit_of(class) % 2 == 1
}

// How many bytes at the front are of the class.
#[inline(always)]
fn run_len(bytes: &[u8], class: Class) -> usize
    ensures value { result ≡ prefix_len (in_class class) bytes.now }
    ensures bound { result ≤ length bytes.now }
{
    for (i, byte) in bytes.iter().enumerate() {
        if !is_in(class, *byte) {
            return i;
        }
    }
    bytes.len()
}

#[tactic(auto, using(crate::proofs::ClassLemmas::start_told))]
fn starts_word(byte: u8) -> bool
    ensures { result ≡ starts_word byte }
{
    classes_of(byte) % 4 == 1
}

/// The byte is a blank other than a line feed.
#[tactic(auto, using(crate::proofs::ClassLemmas::blank_told))]
#[inline(always)]
pub fn is_blank(byte: u8) -> bool
    ensures { result ≡ is_blank byte }
{
    classes_of(byte) / 16 % 2 == 1
}

/// The byte is a line feed, or it may begin a comment.
#[tactic(auto, using(crate::proofs::ClassLemmas::gap_told))]
#[inline(always)]
pub fn begins_gap(byte: u8) -> bool
    ensures { result ≡ begins_gap byte }
{
    classes_of(byte) / 32 == 1
}

fn mark<'a>(kind: TokenKind<'a>) -> Lexeme<'a>
    ensures value { lexeme_seen result ≡ mark (kind_seen kind.entry) }
    ensures within { result.more ≡ 0 }
{
    Lexeme { kind, more: 0 }
}

#[tactic(auto, unfolding(crate::specs::Lexemes::word_at))]
#[inline(always)]
fn word_at<'a>(rest: &'a [u8]) -> Lexeme<'a>
    ensures value { lexeme_seen result ≡ word_at rest.entry.now }
    ensures within { result.more ≤ length rest.entry.now }
{
    Lexeme {
        kind: TokenKind::Word,
        more: run_len(rest, Class::Word),
    }
}

// A number by its digits, after a sign of `sign` bytes. The class is that of the digits.
#[tactic(auto, unfolding(crate::specs::Lexemes::number_at))]
#[inline(always)]
fn number_at<'a>(
    line: u32,
    class: Class,
    radix: u32,
    sign: usize,
    bytes: &'a [u8],
) -> Result<Lexeme<'a>, InfoFault>
    requires low { 2 ≤ radix }
    requires high { radix ≤ 36 }
    requires digits { AreDigitsIn class radix }
    requires signed { sign ≤ 1 }
    ensures value { Sees lexeme_seen result (number_at line class radix sign bytes.entry.now) }
    ensures within { IfOk result (λ l. l.more ≤ sign + length bytes.entry.now - 1) }
{
    let (size, value) = digits_at(bytes, radix);
    let is_word = size < bytes.len() && starts_word(bytes[size]);
    if is_word || size == 0 || value > u64::from(u32::MAX) {
        return Err(InfoFault::new(line, InfoFaultKind::BadNumber));
    }
    Ok(Lexeme {
        kind: TokenKind::Number(value as u32),
        more: sign + size - 1,
    })
}

// A string, of which the opening quote is taken.
#[tactic(auto, unfolding(crate::specs::Lexemes::string_at))]
#[inline(always)]
fn string_at<'a>(line: u32, rest: &'a [u8]) -> Result<Lexeme<'a>, InfoFault>
    ensures value { Sees lexeme_seen result (string_at line rest.entry.now) }
    ensures within { IfOk result (λ l. l.more ≤ length rest.entry.now) }
{
    let size = run_len(rest, Class::Text);
    if size == rest.len() {
        return Err(InfoFault::new(line, InfoFaultKind::OpenString));
    }
    match rest[size] {
        b'"' => {
            let (content, _) = rest.split_at(size);
            Ok(Lexeme {
                kind: TokenKind::Text(content),
                more: size + 1,
            })
        }
        b'\r' | b'\n' => Err(InfoFault::new(line, InfoFaultKind::OpenString)),
        _ => Err(InfoFault::new(line, InfoFaultKind::BadByte)),
    }
}

// A character constant, of which the first apostrophe is taken.
#[tactic(auto, unfolding(crate::specs::Lexemes::character_at))]
fn character_at<'a>(line: u32, rest: &'a [u8]) -> Result<Lexeme<'a>, InfoFault>
    ensures value { Sees lexeme_seen result (character_at line rest.entry.now) }
    ensures within { IfOk result (λ l. l.more ≤ length rest.entry.now) }
{
    if rest.len() >= 2 && rest[0] >= 0x20 && rest[0] <= 0x7E && rest[1] == b'\'' {
        Ok(Lexeme {
            kind: TokenKind::Character(rest[0]),
            more: 2,
        })
    } else {
        Err(InfoFault::new(line, InfoFaultKind::BadByte))
    }
}

/// The token at the front of these bytes, or its fault.
#[tactic(auto, unfolding(crate::specs::Lexemes::lexeme_at), using(crate::proofs::NumberLemmas::digit_classes))]
#[inline(always)]
pub fn lexeme_at<'a>(line: u32, bytes: &'a [u8]) -> Result<Lexeme<'a>, InfoFault>
    requires { 0 < length bytes.now }
    ensures value { Sees lexeme_seen result (lexeme_at line bytes.entry.now) }
    ensures within { IfOk result (λ l. l.more ≤ length bytes.entry.now - 1) }
{
    let first = bytes[0];
    let rest = &bytes[1..];
    if starts_word(first) {
        Ok(word_at(rest))
    } else if first.is_ascii_digit() {
        number_at(line, Class::Decimal, 10, 0, bytes)
    } else if first == b'$' {
        number_at(line, Class::Hexadecimal, 16, 1, rest)
    } else if first == b'"' {
        string_at(line, rest)
    } else if first == b'\'' {
        character_at(line, rest)
    } else if first == b'{' {
        Ok(mark(TokenKind::OpenBrace))
    } else if first == b'}' {
        Ok(mark(TokenKind::CloseBrace))
    } else if first == b';' {
        Ok(mark(TokenKind::Semicolon))
    } else {
        Err(InfoFault::new(line, InfoFaultKind::BadByte))
    }
}

/// The number that the digits write, where there is one and it is at most 2^32 - 1.
#[tactic(auto, unfolding(crate::specs::Lexemes::number_in))]
#[inline(always)]
pub fn number_in(digits: &[u8], radix: u32) -> Option<u32>
    requires low { 2 ≤ radix }
    requires high { radix ≤ 36 }
    ensures value { result ≡ number_in radix digits.now }
    ensures some { IfSome result (λ _. 0 < length digits.now) }
{
    match number_of_digits(digits, radix) {
        Some(value) if value <= u64::from(u32::MAX) => Some(value as u32),
        _ => None,
    }
}
