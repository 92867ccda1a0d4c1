//! Words without regard to letter case, and names.

ghost use Rattle.std.specs.Prelude.{◌≡◌};
ghost use Rattle.stmt65.specs.Words.{is_name, same};

use text65::{has_name_form, is_reserved_word};

/// The name of the address of a line in a repair.
pub const HERE: &[u8] = b"*";

/// Whether the word is this text, in any letter case.
pub fn is_word(word: &[u8], text: &[u8]) -> bool
    ensures { result ≡ same word.now text.now }
{
    word.eq_ignore_ascii_case(text)
}

/// Whether the word can stand in the place of a name: it has the form of one and is neither a
/// mnemonic nor one of the letters A, F, S, X, Y and Z, in any letter case.
#[tactic(auto, unfolding(crate::specs::Names::is_name))]
pub fn is_name(word: &[u8]) -> bool
    ensures { result ≡ is_name word.now }
{
    has_name_form(word) && !is_reserved_word(word)
}
