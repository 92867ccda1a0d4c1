//! The lines of a text.

ghost use Rattle.std.specs.Prelude.{◌≡◌, ◌<◌, ◌≤◌, ◌+◌, ◌∷◌, [], length, not, ◌==◌, MatchOption};
ghost use Rattle.std.specs.List.{prefix_len};
ghost use Rattle.text65.specs.Lines.{text_lines};

use memchr::memchr;

/// The first line without its line feed, and the text after it. A last line may lack the line feed.
#[tactic(auto, using(crate::proofs::LineLaws::first_lines))]
pub fn first_line(text: &[u8]) -> Option<(&[u8], &[u8])>
    /// Returns the first line of a text without its line feed, and the text after it; None exactly if the text is
    /// empty.
    ensures { MatchOption result (text_lines text.now ≡ [])
        (λ found. (text_lines text.now ≡ found.0.now ∷ text_lines found.1.now) × (length found.1.now < length text.now)) }
{
    if text.len() == 0 {
        return None;
    }
    let len = line_len(text);
    if len < text.len() {
        return Some((&text[..len], &text[len + 1..]));
    }
    Some((text, &[]))
}

// How many bytes stand before the first line feed.
#[tactic(auto, using(crate::proofs::LineLaws::line_lens))]
fn line_len(text: &[u8]) -> usize
    ensures value { result ≡ prefix_len (λ b. not (b == 10)) text.now }
    ensures fits { result ≤ length text.now }
{
    match memchr(b'\n', text) {
        Some(len) => len,
        None => text.len(),
    }
}
