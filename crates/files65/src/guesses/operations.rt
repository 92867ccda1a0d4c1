//! Labels, operations and directives that no listing has.

use crate::guess::{Guess, plain};
use crate::words::{Row, after_blanks, first_word, is_name};
use isa65::Mnemonic;
use stmt65::{Datum, Language, Places, Value};
use text65::is_reserved_word;

/// Directives of other assemblers and of ca65, and what to write.
const DIRECTIVES: [(&[u8], &str); 31] = [
    (b".org", "-S or STARTADDR gives the start: leave .org out"),
    (b".end", "leave .end out"),
    (b".db", "bytes and texts follow .byte"),
    (b".byt", "bytes and texts follow .byte"),
    (b".dc.b", "bytes and texts follow .byte"),
    (b".text", "bytes and texts follow .byte"),
    (b".ascii", "bytes and texts follow .byte"),
    (b".fcb", "bytes and texts follow .byte"),
    (b".fcc", "bytes and texts follow .byte"),
    (b"db", "bytes and texts follow .byte"),
    (b"dc.b", "bytes and texts follow .byte"),
    (b"byte", "bytes and texts follow .byte"),
    (b"fcb", "bytes and texts follow .byte"),
    (b".asciiz", "a text that ends with 0 is .byte \"..\",0"),
    (b".dw", "words follow .word"),
    (b".da", "words follow .word"),
    (b".dc.w", "words follow .word"),
    (b"dw", "words follow .word"),
    (b"dc.w", "words follow .word"),
    (b"word", "words follow .word"),
    (b".ds", ".res reserves bytes"),
    (b".dsb", ".res reserves bytes"),
    (b".blkb", ".res reserves bytes"),
    (b".fill", ".res reserves bytes"),
    (b"ds", ".res reserves bytes"),
    (b"ds.b", ".res reserves bytes"),
    (b".equ", "a constant is NAME := NUMBER"),
    (b".set", "a constant is NAME := NUMBER"),
    (b".define", "a constant is NAME := NUMBER"),
    (b".zeropage", "a segment is .segment \"ZEROPAGE\""),
    (b".bss", "a segment is .segment \"BSS\""),
];

/// What a directive of this name is here.
fn directive<'a>(word: &[u8]) -> Option<Guess<'a>> {
    let mut rows = DIRECTIVES.iter();
    let (_, text) = rows.find(|(name, _)| word.eq_ignore_ascii_case(*name))?;
    plain(true, *text)
}

/// What a line with `.segment` lacks or has too much.
fn segment<'a>(row: &Row<'a>) -> Option<Guess<'a>> {
    let name = row.word(row.operands);
    if !row.operation().eq_ignore_ascii_case(b".segment") {
        return None;
    }
    if !name.is_empty() {
        return Some(Guess("a name of a segment has quotes: .segment \"", name, "\""));
    }
    plain(
        row.is_string(row.operands),
        "leave out what comes after the name of the segment",
    )
}

/// What the marks of a line say of its labels.
fn guess_label<'a>(row: &Row<'a>) -> Option<Guess<'a>> {
    let has = |mark: u8| 0 < row.count(mark);
    let unnamed = |at: usize| {
        row.mark(at) == b':' && matches!(row.mark(at.saturating_add(1)), b'+' | b'-')
    };
    if has(b'@') {
        return plain(
            true,
            "a label without @, with a name of its own, does the same",
        );
    }
    if (1..row.len()).any(unnamed) {
        return plain(true, "an unnamed label: give it a name");
    }
    if row.mark(0) == b':' {
        let is_label = row.len() == 1 || Mnemonic::from_bytes(row.word(1)).is_some();
        return plain(is_label, "an unnamed label: give it a name").or(plain(
            true,
            "a comment begins with ;",
        ));
    }
    if row.mark(0) == b'*' && row.is_define(1) {
        return plain(true, "-S or STARTADDR gives the start: leave *= out");
    }
    None
}

/// What a directive of another assembler, or of ca65, is here.
pub(crate) fn guess_directive<'a>(row: &Row<'a>) -> Option<Guess<'a>> {
    let second = row.word(1);
    let is_equ = second.eq_ignore_ascii_case(b"equ") || second.eq_ignore_ascii_case(b".equ");
    let of_constant = plain(is_equ, "a constant is NAME := NUMBER");
    guess_label(row)
        .or(directive(row.operation()))
        .or(segment(row))
        .or(of_constant)
}

/// The mnemonic whose letters a word has in another order.
fn reordered(word: &[u8]) -> Option<Mnemonic> {
    let [a, b, c] = word else { return None };
    let (a, b, c) = (*a, *b, *c);
    Mnemonic::from_bytes(&[b, a, c])
        .or(Mnemonic::from_bytes(&[a, c, b]))
        .or(Mnemonic::from_bytes(&[c, b, a]))
        .or(Mnemonic::from_bytes(&[b, c, a]))
        .or(Mnemonic::from_bytes(&[c, a, b]))
}

/// Whether a line has a difference of two names as an operand.
fn has_difference(line: &[u8]) -> bool {
    let mut places = Places::new(Language::Repair, line);
    let _ = places.head();
    for _ in 0..=line.len() {
        let Some(operand) = places.operand() else {
            return false;
        };
        if matches!(operand.datum, Datum::Value(Value::Difference(_, _))) {
            return true;
        }
    }
    false
}

/// The word that is no operation where one is wanted: at the beginning of a line, or after a colon.
fn unknown_operation<'a>(row: &Row<'a>) -> Option<&'a [u8]> {
    let (word, rest) = first_word(after_blanks(row.line));
    let word = match rest.split_first() {
        Some((b':', later)) => first_word(after_blanks(later)).0,
        _ => word,
    };
    is_name(word).then_some(word)
}

/// A word before a colon that is no name, or a second operation after a colon.
fn guess_colon<'a>(row: &Row<'a>) -> Option<Guess<'a>> {
    let first = row.word(0);
    let is_first = row.mark(1) == b':';
    if is_first && row.are_close(0) && is_reserved_word(first) {
        return Some(Guess(
            "",
            first,
            " is a register or an operation, so it is no name",
        ));
    }
    let is_second = |at: usize| {
        row.mark(at) == b':' && !row.word(at.saturating_sub(1)).eq_ignore_ascii_case(b"a")
    };
    let has_second = (2..row.len()).any(is_second) || is_first && is_reserved_word(first);
    plain(has_second, "a line has one operation")
}

/// What operations say.
pub(crate) fn guess_operation<'a>(row: &Row<'a>) -> Option<Guess<'a>> {
    let is_at_left = is_name(first_word(row.line).0);
    let lacks_colon = is_at_left && row.count(b':') == 0;
    let unknown = unknown_operation(row);
    let ordered = unknown.and_then(reordered);
    guess_colon(row)
        .or(plain(has_dot(row), "other directives and operands (see ca65)"))
        .or(plain(lacks_colon, "a label needs a colon"))
        .or(ordered.map(|found| Guess("no such operation; is it ", found.text(), "?")))
        .or(plain(unknown.is_some(), "no such operation"))
        .or(plain(
            has_difference(row.line),
            "a difference stands alone, after # or in .word and .byte",
        ))
}

/// Whether a word of a line begins with a dot.
fn has_dot(row: &Row<'_>) -> bool {
    (0..row.len()).any(|at| row.word(at).first() == Some(&b'.') || row.mark(at) == b'.')
}
