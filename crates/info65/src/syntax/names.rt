//! The texts of comments, the default names of addresses, and which names are reserved.

ghost use Rattle.std.specs.Prelude.{◌≡◌};
ghost use Rattle.std.specs.List.{list_all};
ghost use Rattle.info65.specs.Words.{default_name, has_comment_form, is_comment_byte, is_like_default, is_reserved, is_upper_hex};

use text65::{hex_digit, is_reserved_word};

fn are_comment_bytes(bytes: &[u8]) -> bool
    ensures { result ≡ list_all is_comment_byte bytes.now }
{
    bytes
        .iter()
        .all(|b| *b == b'\t' || *b >= 0x20 && *b <= 0x7E || *b >= 0x80)
}

/// The text can be a comment: at most 200 bytes of TAB, $20 to $7E, and $80 to $FF.
#[tactic(auto, unfolding(crate::specs::Names::has_comment_form))]
pub fn has_comment_form(text: &[u8]) -> bool
    ensures { result ≡ has_comment_form text.now }
{
    text.len() <= 200 && are_comment_bytes(text)
}

/// Returns the default name of an address: `L` and its four hex digits, in upper case.
#[tactic(auto, unfolding(crate::specs::Names::default_name))]
#[inline]
pub fn default_name(address: u16) -> [u8; 5]
    /// The default name of an address is `L` and four digits.
    ensures { result ≡ default_name address }
{
    [
        b'L',
        hex_digit((address / 4096 % 16) as u8),
        hex_digit((address / 256 % 16) as u8),
        hex_digit((address / 16 % 16) as u8),
        hex_digit((address % 16) as u8),
    ]
}

fn are_upper_hex(bytes: &[u8]) -> bool
    ensures { result ≡ list_all is_upper_hex bytes.now }
{
    bytes
        .iter()
        .all(|b| *b >= b'0' && *b <= b'9' || *b >= b'A' && *b <= b'F')
}

// `L` and four hex digits in upper case.
#[tactic(auto, unfolding(crate::specs::Names::is_like_default))]
fn is_like_default(text: &[u8]) -> bool
    ensures { result ≡ is_like_default text.now }
{
    text.len() == 5 && text[0] == b'L' && are_upper_hex(&text[1..])
}

/// The address can't have this name: it is a register, a mnemonic, or the default name of another address.
#[tactic(auto, unfolding(crate::specs::Names::is_reserved))]
pub fn is_reserved(address: u16, text: &[u8]) -> bool
    ensures { result ≡ is_reserved address text.now }
{
    is_reserved_word(text) || text != default_name(address).as_slice() && is_like_default(text)
}
