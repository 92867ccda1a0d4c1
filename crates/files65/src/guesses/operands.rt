//! Operands that no form has.

use crate::guess::{Guess, plain};
use crate::words::Row;
use text65::is_reserved_word;

/// Whether a word is one of the letters by which an address is indexed.
fn is_index(word: &[u8]) -> bool {
    word.eq_ignore_ascii_case(b"x") || word.eq_ignore_ascii_case(b"y")
}

/// Whether a word is a letter that no name may be.
fn is_register(word: &[u8]) -> bool {
    matches!(
        word,
        [b'a' | b'A' | b'x' | b'X' | b'y' | b'Y' | b's' | b'S' | b'f' | b'F' | b'z' | b'Z']
    )
}

/// The place after the sum that begins at a place.
fn after_sum(row: &Row<'_>, at: usize) -> usize {
    let mut last = at;
    for _ in 0..row.len() {
        let sign = last.saturating_add(1);
        if !matches!(row.mark(sign), b'+' | b'-') || !row.is_term(sign.saturating_add(1)) {
            break;
        }
        last = sign.saturating_add(1);
    }
    last
}

/// Half of a sum without parentheses.
fn half_of_sum<'a>(row: &Row<'a>, at: usize) -> Option<Guess<'a>> {
    let first = at.saturating_add(1);
    let last = after_sum(row, first);
    if !row.is_term(first) || last == first {
        return None;
    }
    let sum = row.text(first, last);
    match row.mark(at) {
        b'<' => Some(Guess("a half of a sum is <(", sum, ")")),
        b'>' => Some(Guess("a half of a sum is >(", sum, ")")),
        _ => None,
    }
}

/// What a place of the operands says.
fn guess_at<'a>(row: &Row<'a>, at: usize) -> Option<Guess<'a>> {
    let (next, third) = (at.saturating_add(1), at.saturating_add(2));
    let rest = row.text(third, row.len().saturating_sub(1));
    let is_x = row.word(third).eq_ignore_ascii_case(b"x");
    let is_indexed = row.mark(at) == b')' && row.mark(next) == b',' && is_x;
    let is_inner = row.mark(at) == b',' && row.word(next).eq_ignore_ascii_case(b"y");
    let is_number_of_letter = row.mark(at) == b'#' && is_register(row.word(next));
    if is_indexed || is_inner && row.mark(third) == b')' {
        return plain(
            true,
            "an address in the zero page is used as (n,x) or (n),y",
        );
    }
    if at == row.operands && is_index(row.word(at)) && row.mark(next) == b',' {
        return Some(Guess(
            "the index comes last: ",
            rest,
            if row.word(at).eq_ignore_ascii_case(b"x") {
                ",x"
            } else {
                ",y"
            },
        ));
    }
    if is_number_of_letter {
        return Some(Guess(
            "a register is no value; the character is '",
            row.word(next),
            "'",
        ));
    }
    half_of_sum(row, at)
}

/// Whether two values stand side by side from a place on, with a blank between them, after an operation.
fn lacks_comma(row: &Row<'_>, at: usize) -> bool {
    let next = at.saturating_add(1);
    let operation = row.word(row.operands.saturating_sub(1));
    let is_known = is_reserved_word(operation) || operation.first() == Some(&b'.');
    let are_values = row.is_value(at) && row.is_value(next);
    is_known && row.operands <= at && are_values && !row.are_close(at)
}

/// Whether an asterisk stands at a place for the address of the line.
fn is_here(row: &Row<'_>, at: usize) -> bool {
    let before = at.saturating_sub(1);
    let is_factor = row.operands < at && (row.is_value(before) || row.mark(before) == b')');
    row.mark(at) == b'*' && row.operands <= at && !is_factor
}

/// What a line says that gives a value to a name.
fn guess_constant<'a>(row: &Row<'a>) -> Option<Guess<'a>> {
    let at = (0..row.len()).find(|at| row.is_define(*at))?;
    plain(
        row.mark(at.saturating_add(1)) == b'*',
        "NAME: is the address itself, NAME := * + 1 the one after it",
    )
    .or(plain(true, "a constant is NAME := NUMBER"))
}

/// What operands say.
pub(crate) fn guess_operand<'a>(row: &Row<'a>) -> Option<Guess<'a>> {
    let constant = guess_constant(row);
    if constant.is_some() {
        return constant;
    }
    for at in row.operands..row.len() {
        let found = guess_at(row, at);
        if found.is_some() {
            return found;
        }
    }
    let has_here = (0..row.len()).any(|at| is_here(row, at));
    let has_comma_missing = (0..row.len()).any(|at| lacks_comma(row, at));
    plain(has_here, "in place of * give the address a label")
        .or(plain(0 < row.count(b'*'), "* and other expressions (see ca65)"))
        .or(plain(
            row.count(b'(') != row.count(b')'),
            "a parenthesis is missing",
        ))
        .or(plain(has_comma_missing, "a comma or a ; is missing"))
}
