//! Public functions that need no memory but what they are given.

use crate::tests::asserts::{assert_equal, assert_equal_at, assert_that, assert_that_at};
use isa65::{Cpu, DecodeTable, EncodeTable, Mnemonic, Mode, Op, OpcodeSet};
use stmt65::{Column, Columns, LabelBreak, Level, LimitError, Line, Remarks, Statement, put_line};
use text65::{
    are_word_bytes, first_line, has_name_form, hex_digit, is_blank, is_reserved_word, is_word_byte,
    put_address, put_decimal,
};

/// `stx` with a zero-page operand that is indexed by Y, and the absolute one that is written like it.
const SHORT: Op = Op {
    mnemonic: Mnemonic::Stx,
    mode: Mode::Zpy,
};

const LONG: Op = Op {
    mnemonic: Mnemonic::Stx,
    mode: Mode::Absy,
};

#[test]
fn opcodes(rt: HostRuntime) {
    let cpu = Cpu::from_bytes(b"65c02").expect(&rt, "a CPU");
    assert_equal(&rt, &cpu.text(), &b"65C02".as_slice());
    let stx = Mnemonic::from_bytes(b"Stx").expect(&rt, "a mnemonic");
    assert_equal(&rt, &stx.text(), &b"stx".as_slice());
    assert_equal(&rt, &Mode::Zprel.len(), &3);
    let table = DecodeTable::new(cpu);
    assert_equal(&rt, &cpu.decode(0x96), &Some(SHORT));
    assert_equal(&rt, &table.decode(0x96), &Some(SHORT));
    assert_equal(&rt, &cpu.encode(stx, Mode::Zpy), &Some(0x96));
    assert_equal(&rt, &table.encode(stx, Mode::Zpy), &Some(0x96));
    let codes = EncodeTable::new(cpu);
    assert_equal(&rt, &codes.encode(stx, Mode::Zpy), &Some(0x96));
    assert_equal(&rt, &LONG.sibling(&cpu), &Some(Mode::Zpy));
    assert_equal(&rt, &LONG.sibling(&table), &Some(Mode::Zpy));
}

#[test]
fn texts(rt: HostRuntime) {
    let found = first_line(b" rts\r\n\nx");
    let want: (&[u8], &[u8]) = (b" rts\r", b"\nx");
    assert_equal(&rt, &found, &Some(want));
    assert_that(&rt, are_word_bytes(b"1aZ_"));
}

/// Texts, their first lines and what follows these.
const FIRST_LINES: &[(&[u8], &[u8], &[u8])] = &[
    (b"a\n\nb", b"a", b"\nb"),
    (b"\nb", b"", b"b"),
    (b"b", b"b", b""),
    (b"a\r\n", b"a\r", b""),
    (b"\n", b"", b""),
];

#[test]
fn first_lines(rt: HostRuntime) {
    assert_that(&rt, first_line(b"").is_none());
    for (text, line, rest) in FIRST_LINES {
        assert_equal(&rt, &first_line(text), &Some((*line, *rest)));
    }
}

const LETTERS: &[u8] = b"ABCDEFGHIJKLMNOPQRSTUVWXYZ_abcdefghijklmnopqrstuvwxyz";

const DIGITS: &[u8] = b"0123456789ABCDEF";

#[test]
fn bytes_of_words(rt: HostRuntime) {
    for byte in 0..=255u8 {
        let word = [byte];
        let is_letter = LETTERS.contains(&byte);
        assert_equal_at(&rt, &has_name_form(&word), &is_letter, &byte);
        let is_digit = b"0123456789".contains(&byte);
        assert_equal_at(&rt, &is_word_byte(byte), &(is_letter || is_digit), &byte);
        assert_equal_at(&rt, &is_blank(byte), &b"\t ".contains(&byte), &byte);
        let is_register = b"AFSXYZafsxyz".contains(&byte);
        assert_equal_at(&rt, &is_reserved_word(&word), &is_register, &byte);
    }
}

#[test]
fn forms_of_words(rt: HostRuntime) {
    let mut name = "abcdefghijklmnopqrst"
        .repeat(rt.alloc(), 4)
        .expect(&rt, "repeat");
    assert_that(&rt, has_name_form(name.as_bytes()));
    name.push('u').expect(&rt, "push");
    assert_that(&rt, !has_name_form(name.as_bytes()));
    for name in ["_1", "lda"] {
        assert_that_at(&rt, has_name_form(name.as_bytes()), &name);
    }
    for name in ["", "1a", "a.b", "a b"] {
        assert_that_at(&rt, !has_name_form(name.as_bytes()), &name);
    }
    for word in ["lda", "Jmp", "SMB7", "bbr0"] {
        assert_that_at(&rt, is_reserved_word(word.as_bytes()), &word);
    }
    for word in ["", "ax", "wai", "stp", "bbr8", "lda_", "bbr00"] {
        assert_that_at(&rt, !is_reserved_word(word.as_bytes()), &word);
    }
}

#[test]
fn digits(rt: HostRuntime) {
    let mut out = Vec::new(rt.alloc());
    put_address(&mut out, b"$", 0x10AF9).expect(&rt, "room");
    put_decimal(&mut out, b", ", 1020).expect(&rt, "room");
    assert_equal(&rt, &out.as_slice(), &b"$0AF9, 1020".as_slice());
    for value in 0..16u8 {
        let want = DIGITS.get(usize::from(value)).copied();
        assert_equal(&rt, &Some(hex_digit(value)), &want);
    }
}

#[test]
fn lines_of_statements(rt: HostRuntime) {
    let mut line = Line::new();
    let remarks = Remarks {
        level: Level::default(),
        hexoffs: false,
        address: 0x1000,
        bytes: b"",
        label: None,
    };
    put_line(
        &mut line,
        &Columns::default(),
        &Statement::Rts(None),
        &remarks,
    );
    let want = b"        .word   $FFFF\n".as_slice();
    assert_equal(&rt, &line.as_slice(), &want);
    assert_that(&rt, Columns::default().fits_label(b"chrout7"));
    assert_that(&rt, !Columns::default().fits_label(b"longname"));
}

#[test]
fn limits_of_columns(rt: HostRuntime) {
    assert_equal(&rt, &Column::try_from(0), &Err(LimitError(0)));
    assert_equal(&rt, &Column::try_from(121), &Err(LimitError(121)));
    assert_equal(&rt, &LabelBreak::try_from(121), &Err(LimitError(121)));
    assert_equal(&rt, &Level::try_from(5), &Err(LimitError(5)));
    let text = format!(in rt.alloc(); "{}", LimitError(121)).expect(&rt, "format");
    assert_equal(&rt, &text.as_str(), &"121 is out of range");
    let numbers = [
        Column::try_from(120).expect(&rt, "try_from").get(),
        LabelBreak::try_from(0).expect(&rt, "try_from").get(),
        Level::try_from(4).expect(&rt, "try_from").get(),
    ];
    assert_equal(&rt, &numbers, &[120, 0, 4]);
}
