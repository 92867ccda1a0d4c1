//! What a page is written with: markup, texts of the listing, numbers and links.

use std::alloc::AllocError;
use std::simd::prelude::{SimdPartialEq, u8x16};
use text65::{hex_digit, put_decimal};

/// Appends parts to a page, one after the other.
macro_rules! put {
    ($out:expr; $($part:expr),+) => {{ $(Put::put($part, $out);)+ }};
}

pub(crate) use put;

/// What there is, unless an allocation is refused.
pub type Result<T> = std::result::Result<T, AllocError>;

/// The text of a page so far, unless an allocation was refused. It is asked once, at its end.
pub type Text = Result<Vec<u8>>;

/// Appends bytes as they stand.
#[inline(always)]
pub fn add(out: &mut Text, bytes: &[u8]) {
    if let Ok(text) = out
        && let Err(cause) = text.extend_from_slice(bytes)
    {
        *out = Err(cause);
    }
}

/// What a page can be written with.
pub trait Put {
    /// Appends it.
    fn put(self, out: &mut Text);
}

/// Markup, as it stands.
impl Put for &str {
    #[inline(always)]
    fn put(self, out: &mut Text) {
        add(out, self.as_bytes());
    }
}

/// The bytes that a text has entities for: `&`, `<` and `>`, and CR and NUL, which a browser would take for a line feed
/// and for nothing.
const SPECIAL: [u8; 5] = [b'&', b'<', b'>', b'\r', 0];

fn is_special(byte: &u8) -> bool {
    matches!(*byte, b'&' | b'<' | b'>' | b'\r' | 0)
}

/// Whether one of these bytes has an entity. Sixteen are looked at together.
fn has_special(bytes: &[u8]) -> bool {
    if bytes.len() < 16 {
        return bytes.iter().any(is_special);
    }
    let block = u8x16::from_slice(bytes);
    let mut found: u64 = 0;
    for byte in SPECIAL {
        found |= block.simd_eq(u8x16::splat(byte)).to_bitmask();
    }
    found != 0
}

/// Whether no byte of a text has an entity.
pub fn is_plain(text: &[u8]) -> bool {
    !text.chunks(16).any(has_special)
}

/// A text of the listing, with entities.
impl Put for &[u8] {
    fn put(self, out: &mut Text) {
        if is_plain(self) {
            return add(out, self);
        }
        for piece in self.split_inclusive(is_special) {
            let (text, entity) = match piece {
                [text @ .., b'&'] => (text, "&amp;"),
                [text @ .., b'<'] => (text, "&lt;"),
                [text @ .., b'>'] => (text, "&gt;"),
                [text @ .., b'\r'] => (text, "&#13;"),
                [text @ .., 0] => (text, "&#0;"),
                text => return add(out, text),
            };
            add(out, text);
            put!(out; entity);
        }
    }
}

/// A part of a line, and whether no byte of the line has an entity.
#[derive(Clone, Copy)]
pub struct Piece<'t>(pub &'t [u8], pub bool);

impl Put for Piece<'_> {
    #[inline(always)]
    fn put(self, out: &mut Text) {
        if self.1 {
            return add(out, self.0);
        }
        self.0.put(out);
    }
}

/// Markup, and a number in decimal after it.
impl Put for (&str, usize) {
    #[inline(always)]
    fn put(self, out: &mut Text) {
        if let Ok(text) = out
            && let Err(cause) = put_decimal(text, self.0.as_bytes(), self.1)
        {
            *out = Err(cause);
        }
    }
}

/// An address in four hex digits.
#[derive(Clone, Copy)]
pub struct Address(pub usize);

/// Markup, and an address after it.
impl Put for (&str, Address) {
    fn put(self, out: &mut Text) {
        put!(out; self.0);
        add(out, &digits_of(self.1.0));
    }
}

/// The four hex digits of an address.
pub fn digits_of(address: usize) -> [u8; 4] {
    [
        hex_digit((address / 4096 % 16) as u8),
        hex_digit((address / 256 % 16) as u8),
        hex_digit((address / 16 % 16) as u8),
        hex_digit((address % 16) as u8),
    ]
}

/// The number of 256 addresses in two hex digits.
#[derive(Clone, Copy)]
pub struct Page(pub usize);

impl Put for Page {
    fn put(self, out: &mut Text) {
        let [_, _, high, low] = digits_of(self.0);
        add(out, &[high, low]);
    }
}

/// What is a link to the name that the line of a number defines.
#[derive(Clone, Copy)]
pub struct Link<P>(pub usize, pub P);

impl<P: Put + Drop> Put for Link<P> {
    fn put(self, out: &mut Text) {
        put!(out; ("<a href=\"#l", self.0), "\">", self.1, "</a>");
    }
}

/// What is a link to the element whose id is a letter and an address: `a` of a line, `r` of a row.
#[derive(Clone, Copy)]
pub struct LinkTo<P>(pub u8, pub usize, pub P);

impl<P: Put + Drop> Put for LinkTo<P> {
    fn put(self, out: &mut Text) {
        let mut tag = *b"<a href=\"#a0000\">";
        tag[10] = self.0;
        let digits = digits_of(self.1);
        for place in 0..4 {
            tag[11 + place] = digits[place];
        }
        add(out, &tag);
        put!(out; self.2, "</a>");
    }
}

/// A text of the listing within quotes.
#[derive(Clone, Copy)]
pub struct Quoted<'t>(pub &'t [u8]);

impl Put for Quoted<'_> {
    fn put(self, out: &mut Text) {
        for (place, part) in self.0.split(|byte: &u8| *byte == b'"').enumerate() {
            put!(out; if 0 < place { "&quot;" } else { "" }, part);
        }
    }
}
