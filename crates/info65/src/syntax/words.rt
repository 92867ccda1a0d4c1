//! Words of the grammar.

ghost use Rattle.std.specs.Prelude.{◌≡◌};
ghost use Rattle.std.specs.Char.{eq_ignore_ascii_case};
ghost use Rattle.std.specs.Str.{str_eq_ignore_ascii_case};

// The byte is this letter, in either case.
#[tactic(auto, using(crate::proofs::WordLemmas::letter_cases))]
fn is_letter(byte: u8, letter: u8) -> bool
    ensures { result ≡ eq_ignore_ascii_case byte letter }
{
    byte == letter.to_ascii_uppercase() || byte == letter.to_ascii_lowercase()
}

/// The text is the word, with letters of any case. Where it is inlined, both cases of the word's letters are known.
#[tactic(auto, using(crate::proofs::WordLemmas::words_told))]
#[inline(always)]
pub fn is_word(text: &[u8], word: &[u8]) -> bool
    ensures { result ≡ str_eq_ignore_ascii_case text.now word.now }
{
    if text.len() != word.len() {
        return false;
    }
    for place in 0..text.len() {
        if !is_letter(text[place], word[place]) {
            return false;
        }
    }
    true
}
