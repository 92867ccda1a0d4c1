//! Numbers as other assemblers and C write them.

use crate::guess::{Guess, plain};
use crate::words::Row;

/// A number in another form, without what stands before or after its digits.
fn digits_of(text: &[u8]) -> Option<Guess<'_>> {
    let is_hex = |digits: &[u8]| !digits.is_empty() && digits.iter().all(u8::is_ascii_hexdigit);
    match text {
        [b'0', b'x' | b'X', digits @ ..] if is_hex(digits) => {
            Some(Guess("hexadecimal is $", digits, ", without 0x"))
        }
        [b'0', b'x' | b'X', ..] => plain(true, "hexadecimal is $01, without 0x"),
        [digits @ .., b'b' | b'B'] if 3 < digits.len() && digits.iter().all(is_bit) => {
            Some(Guess("a binary number is %", digits, ""))
        }
        [digits @ .., b'h' | b'H'] if is_hex(digits) => Some(Guess("hexadecimal is $", digits, "")),
        _ if is_hex(text) => Some(Guess("hexadecimal is $", text, "")),
        _ => None,
    }
}

fn is_bit(byte: &u8) -> bool {
    *byte == b'0' || *byte == b'1'
}

/// What a number and a word right after it are.
fn number_and_word<'a>(row: &Row<'a>, at: usize) -> Option<Guess<'a>> {
    let next = at.saturating_add(1);
    if row.number(at).is_empty() || row.word(next).is_empty() || !row.are_close(at) {
        return None;
    }
    if !row.number(at).first()?.is_ascii_digit() {
        return None;
    }
    digits_of(row.text(at, next)).or(plain(true, "a name does not begin with a digit"))
}

/// Whether a minus stands at a place before a number, and after nothing that it could be subtracted from.
fn is_below_zero(row: &Row<'_>, at: usize) -> bool {
    let is_first = at == row.operands && !row.is_define(at.saturating_sub(1));
    let after_mark = matches!(
        row.mark(at.saturating_sub(1)),
        b'#' | b',' | b'(' | b'<' | b'>'
    );
    let next = at.saturating_add(1);
    row.mark(at) == b'-' && !row.number(next).is_empty() && (is_first || after_mark)
}

/// What numbers say.
pub(crate) fn guess_number<'a>(row: &Row<'a>) -> Option<Guess<'a>> {
    for at in 0..row.len() {
        let found = number_and_word(row, at);
        if found.is_some() {
            return found;
        }
        if is_below_zero(row, at) {
            let is_count = row.operation().eq_ignore_ascii_case(b".res");
            return plain(is_count, "a number of bytes is not below 0").or(plain(
                true,
                "numbers are not below 0: for the byte of -1 write $FF",
            ));
        }
    }
    let is_binary = |at: usize| row.mark(at) == b'%' || row.number(at).first() == Some(&b'%');
    let has_binary = (0..row.len()).any(is_binary);
    plain(has_binary, "a binary number is written %1010")
}
