//! Blanks, the form of a name, and the words that no name may be.

ghost use Rattle.std.specs.Prelude.{◌≡◌};
ghost use Rattle.std.specs.List.{list_all, list_any};
ghost use Rattle.std.specs.Str.{str_eq_ignore_ascii_case};
ghost use Rattle.text65.specs.Names.{has_name_form, is_blank, is_reserved_word, is_word_byte, registers};

use isa65::Mnemonic;

// The bytes of the longest mnemonic. A register has one.
const LONGEST_WORD: usize = 4;

/// Whether the byte is a space or a TAB.
#[inline]
pub fn is_blank(byte: u8) -> bool
    /// Returns whether a byte is a space or a TAB.
    ensures { result ≡ is_blank byte }
{
    byte == b' ' || byte == b'\t'
}

/// Whether the byte is a letter, a digit or `_`.
#[inline(always)]
pub fn is_word_byte(byte: u8) -> bool
    /// Returns whether a byte is a letter, a digit or `_`.
    ensures { result ≡ is_word_byte byte }
{
    byte.is_ascii_alphanumeric() || byte == b'_'
}

/// Whether each byte is a letter, a digit or `_`.
#[inline]
pub fn are_word_bytes(bytes: &[u8]) -> bool
    /// Returns whether each byte of a text is a letter, a digit or `_`.
    ensures { result ≡ list_all is_word_byte bytes.now }
{
    bytes.iter().all(|b| is_word_byte(*b))
}

/// Whether the text is a letter or `_`, then letters, digits and `_`, 1 to 80 bytes.
#[tactic(auto, unfolding(crate::specs::Names::has_name_form))]
#[inline]
pub fn has_name_form(text: &[u8]) -> bool
    /// Returns whether a text is a letter or `_`, then letters, digits and `_`, 1 to 80 bytes.
    ensures { result ≡ has_name_form text.now }
{
    match text {
        [] => false,
        [first, rest @ ..] => {
            (first.is_ascii_alphabetic() || *first == b'_')
                && are_word_bytes(rest)
                && rest.len() < 80
        }
    }
}

fn is_register(text: &[u8]) -> bool
    ensures { result ≡ list_any (str_eq_ignore_ascii_case text.now) registers }
{
    text.eq_ignore_ascii_case(b"A")
        || text.eq_ignore_ascii_case(b"F")
        || text.eq_ignore_ascii_case(b"S")
        || text.eq_ignore_ascii_case(b"X")
        || text.eq_ignore_ascii_case(b"Y")
        || text.eq_ignore_ascii_case(b"Z")
}

/// Whether the text is one of the registers A, F, S, X, Y and Z, or a mnemonic of the 6502, the 65SC02 or the 65C02, in
/// any letter case.
// Most names are longer than these, and then the words need not be compared.
#[tactic(auto, unfolding(crate::specs::Names::is_reserved_word))]
#[inline]
pub fn is_reserved_word(text: &[u8]) -> bool
    /// Returns whether a text is one of the registers A, F, S, X, Y and Z or a mnemonic, in any letter case.
    ensures { result ≡ is_reserved_word text.now }
{
    if text.len() > LONGEST_WORD {
        return false;
    }
    is_register(text) || Mnemonic::from_bytes(text).is_some()
}
