//! What the bytes of a line are.

use crate::way::Word;

/// What the bytes of a line are, in the order in which a page shows them.
#[derive(Clone, Copy, PartialEq, Eq)]
pub enum Kind {
    Code,
    Text,
    Bytes,
    Words,
    /// Addresses by names, or halves of them.
    Addresses,
    /// Bytes of one value, as many as a line of a table has, or those of `.res` and between segments.
    Filler,
}

/// What a page calls each kind, in their order.
pub const KINDS: [&str; 6] = ["code", "text", "bytes", "words", "addresses", "filler"];

/// From how many bytes of one value on a line is filler.
const FILLER: usize = 8;

impl Kind {
    /// That of a line which gives these bytes, by its mnemonic or directive and what its first operand that is no
    /// number shows: a string that it is text, a name that they are addresses.
    pub fn of(word: Word, shown: Option<Kind>, bytes: &[u8]) -> Kind {
        // All are equal if what is after the first begins as they do.
        let is_same = matches!(bytes, [_, rest @ ..] if bytes.starts_with(rest));
        let of_numbers = match &word {
            b".res" | b".seg" => return Kind::Filler,
            b".byt" if is_same && FILLER <= bytes.len() => Kind::Filler,
            b".byt" => Kind::Bytes,
            b".add" => Kind::Addresses,
            [b'.', ..] => Kind::Words,
            _ => return Kind::Code,
        };
        shown.unwrap_or(of_numbers)
    }
}
