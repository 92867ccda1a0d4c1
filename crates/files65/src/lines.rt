//! Lines of a text, by their numbers.

ghost use Rattle.std.specs.Prelude.{◌≡◌, [], drop, get_or};
ghost use Rattle.text65.specs.Lines.{text_lines};
ghost use Rattle.files65.specs.Shown.{line_at};

use text65::first_line;

/// The text after this many lines.
pub fn after_lines(text: &[u8], count: usize) -> &[u8]
    ensures { text_lines result.now ≡ drop count (text_lines text.now) }
{
    let mut rest = text;
    let mut left = count;
    'lines: while 0 < left {
        match first_line(rest) {
            Some((_, after)) => rest = after,
            None => return rest,
        }
        left -= 1;
    }
    rest
}

/// The first line of a text; empty if there is none.
pub fn first_of(text: &[u8]) -> &[u8]
    ensures { result.now ≡ get_or (text_lines text.now) 0 [] }
{
    match first_line(text) {
        Some((line, _)) => line,
        None => &[],
    }
}

/// The line of this number, from 1; empty if there is none.
pub fn line_at(text: &[u8], number: usize) -> &[u8]
    /// Returns the line of this number, counted from 1, and nothing if there is none.
    ensures { result.now ≡ line_at number text.now }
{
    first_of(after_lines(text, number.saturating_sub(1)))
}
