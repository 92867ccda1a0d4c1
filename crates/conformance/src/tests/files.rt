//! An information file that gives everything, its tokens, and the lines `#: ..`. `tests/rows/da65.txt` has what small
//! files say.

use crate::tests::asserts::{assert_equal, assert_equal_at};
use crate::tests::include_files::put_names;
use crate::tests::inputs::info_of;
use info65::{Info, InfoFault, InfoFaultKind, Lexer, Settings, Tag, TokenKind, read_tags};
use std::alloc::AllocError;

/// Each attribute of a setting, and each kind of group. The names are not in the order of their addresses.
const EVERYTHING: &[u8] =
    b"GLOBAL { INPUTNAME \"a.bin\"; OUTPUTNAME \"b.s\"; INPUTOFFS 1; INPUTSIZE 2; };
GLOBAL { STARTADDR $1000; CPU \"65C02\"; HEXOFFS on; COMMENTS 4; LABELBREAK 5; };
GLOBAL { MNEMONICCOLUMN 1; ARGUMENTCOLUMN 2; COMMENTCOLUMN 3; TEXTCOLUMN 4; };
GLOBAL { NEWLINEAFTERJMP on; NEWLINEAFTERRTS on; };
RANGE { START $1000; END $1001; TYPE WORDTABLE; NAME \"table\"; COMMENT \"a word\"; };
RANGE { START 6; END 9; TYPE CODE; }; RANGE { START 4; SIZE 2; TYPE CODE; };
LABEL { ADDR $FE; NAME \"buf\"; SIZE 4; };
SEGMENT { START $1000; END $10FF; NAME \"ROM\"; };
SEGMENT { START 1; END 2; NAME \"P_1\"; };
ASMINC { FILE \"k.inc\"; COMMENTSTART '*'; IGNOREUNKNOWN on; };
ASMINC { FILE \"b\"; COMMENTSTART '1'; IGNOREUNKNOWN 0; };";

const SAID: &str = "Some(\"a.bin\") Some(\"b.s\") 1 Some(2) Some(4096) M65C02 true
[4, 1, 2, 3, 4, 5] true true
WordTable 1000-1001
Code 0006-0009
Code 0004-0005
 00FE buf+4 1000 table+1
segment 1000-10FF ROM
segment 0001-0002 P_1
include k.inc 42 true
include b 49 false
";

fn put_settings(out: &mut String, settings: &Settings) -> Result<(), AllocError> {
    let input = settings.input.as_deref();
    let output = settings.output.as_deref();
    let numbers = [
        settings.comments,
        settings.mnemonic_column,
        settings.argument_column,
        settings.comment_column,
        settings.text_column,
        settings.label_break,
    ];
    write!(
        out,
        "{input:?} {output:?} {} {:?} {:?} {:?} {}\n{numbers:?} {} {}\n",
        settings.offset,
        settings.size,
        settings.start,
        settings.cpu,
        settings.hexoffs,
        settings.newline_after_jmp,
        settings.newline_after_rts
    )
}

/// All that an information says but for comments.
fn put_info(out: &mut String, info: &Info) -> Result<(), AllocError> {
    put_settings(out, info.settings())?;
    for range in info.ranges() {
        write!(
            out,
            "{:?} {:04X}-{:04X}\n",
            range.role, range.first, range.last
        )?;
    }
    put_names(out, info)?;
    out.push_str("\n")?;
    for segment in info.segments() {
        let name = segment.name.escape_ascii();
        write!(
            out,
            "segment {:04X}-{:04X} {name}\n",
            segment.first, segment.last
        )?;
    }
    for include in info.includes() {
        let file = include.file.as_str();
        write!(
            out,
            "include {file} {} {}\n",
            include.comment_start, include.ignore_unknown
        )?;
    }
    Ok(())
}

#[test]
fn a_file_with_everything(rt: HostRuntime) {
    let info = info_of(&rt, EVERYTHING);
    let mut out = String::new(rt.alloc());
    put_info(&mut out, &info).expect(&rt, "put_info");
    assert_equal(&rt, &out.as_str(), &SAID);
    let named = info.covering(0x1000).expect(&rt, "a name");
    assert_equal(&rt, &named.comment, &Some(b"a word".as_slice()));
    assert_equal(
        &rt,
        &info.segment_covering(0x10FF),
        &Some(b"ROM".as_slice()),
    );
    assert_equal(&rt, &info.segment_covering(0x1100), &None);
}

/// The groups of lines `#: ..`, each with its kind, its line, and address, size, low, high, first and last.
const READ_TAGS: &[(&str, &str)] = &[
    (
        "#: ENTRY { ADDR $FC71; };\nLABEL { ADDR 1; };\n#: inline { addr 1; size 2; }",
        "Entry 1 [Some(64625), None, None, None, None, None]
Inline 3 [Some(1), Some(2), None, None, None, None]
",
    ),
    (
        "a\n#: HALVES { LOW 3;\n# : c\n #: d\n#:HIGH 4; }; # $FE17 put\n#: HALVES { ADDR 5; LOW 6; };\n#:",
        "Halves 2 [None, None, Some(3), Some(4), None, None]
Halves 6 [Some(5), None, Some(6), None, None, None]
",
    ),
    (
        "#: AFTER { START $120C; END $15FF; };\n#: DIFFERENCE { ADDR 7; FROM 8; TO 9; };\n#: BASE { FROM 11; ADDR 10; };",
        "After 1 [None, None, None, None, Some(4620), Some(5631)]
Difference 2 [Some(7), None, None, None, Some(8), Some(9)]
Base 3 [Some(10), None, None, None, Some(11), None]
",
    ),
    (
        "#: INLINE { ADDR $FFFF; SIZE 256; }; HALVES { LOW 1; HIGH 2; SIZE 1; };\n#: HALVES { HIGH 1; ADDR 0; };",
        "Inline 1 [Some(65535), Some(256), None, None, None, None]
Halves 1 [None, Some(1), Some(1), Some(2), None, None]
Halves 2 [Some(0), None, None, Some(1), None, None]
",
    ),
    (
        "#: AFTER { START 3; END 3; };\n#: DIFFERENCE { ADDR 1; FROM 3; TO 2; };\n#: NUMBER { ADDR 7; };",
        "After 1 [None, None, None, None, Some(3), Some(3)]
Difference 2 [Some(1), None, None, None, Some(3), Some(2)]
Number 3 [Some(7), None, None, None, None, None]
",
    ),
];

fn put_tags(out: &mut String, tags: &[Tag]) -> Result<(), AllocError> {
    for tag in tags {
        let values = [
            tag.address,
            tag.size,
            tag.low,
            tag.high,
            tag.first,
            tag.last,
        ];
        write!(out, "{:?} {} {values:?}\n", tag.kind, tag.line)?;
    }
    Ok(())
}

#[test]
fn groups_of_tags(rt: HostRuntime) {
    for (text, want) in READ_TAGS {
        let tags = read_tags(rt.alloc(), text.as_bytes()).expect(&rt, "read_tags");
        let mut out = String::new(rt.alloc());
        put_tags(&mut out, &tags).expect(&rt, "put_tags");
        assert_equal_at(&rt, &out.as_str(), want, text);
    }
}

/// The groups of the lines `#: ..`, each with the attributes that it has.
const TAGS: &[(&str, &str)] = &[
    ("ENTRY", "ADDR"),
    ("INLINE", "ADDR SIZE"),
    ("HALVES", "LOW HIGH SIZE ADDR"),
    ("AFTER", "START END"),
    ("DIFFERENCE", "ADDR FROM TO"),
    ("BASE", "ADDR FROM"),
    ("NUMBER", "ADDR"),
];

/// What a group may have, and what groups of the file itself have.
const ATTRIBUTES: &[&str] = &[
    "ADDR", "SIZE", "LOW", "HIGH", "START", "END", "FROM", "TO", "NAME", "TYPE", "COMMENT",
];

/// A group refuses each attribute that it does not have, whatever the value, and no other.
#[test]
fn attributes_of_tags(rt: HostRuntime) {
    let unknown = InfoFault {
        line: 2,
        kind: InfoFaultKind::UnknownAttribute,
    };
    for (group, attributes) in TAGS {
        for attribute in ATTRIBUTES {
            let text = format!(in rt.alloc(); "\n#: {group} {{ {attribute} $1000000; }};");
            let text = text.expect(&rt, "format");
            let read = read_tags(rt.alloc(), text.as_bytes());
            let is_known = attributes
                .split_whitespace()
                .any(|known| known == *attribute);
            let is_unknown = read.err() == Some(unknown);
            let row = format_args!("{attribute} of {group}");
            assert_equal_at(&rt, &is_unknown, &!is_known, &row);
        }
    }
}

/// Tokens, each with its kind, its text and its line.
const TOKENS: &str = "Word GLOBAL 1
OpenBrace { 1
Word a_1 2
Number(255) $fF 2
Text([97, 35, 98, 47, 47, 99]) \\\"a#b//c\\\" 4
Character(59) \\';\\' 4
Number(4294967295) 4294967295 4
CloseBrace } 4
Semicolon ; 4
";

#[test]
fn tokens_of_a_text(rt: HostRuntime) {
    let mut lexer = Lexer::new(
        b"GLOBAL{ # \"no\r string\n a_1 $fF // $\n\r\n \"a#b//c\" ';' 4294967295};",
    );
    let mut out = String::new(rt.alloc());
    for _ in 0..10 {
        if let Some(token) = lexer.next_token().expect(&rt, "a token") {
            let text = token.text.escape_ascii();
            write!(out, "{:?} {text} {}\n", token.kind, token.line).expect(&rt, "write");
        }
    }
    assert_equal(&rt, &out.as_str(), &TOKENS);
}

#[test]
fn a_fault_stays(rt: HostRuntime) {
    let mut lexer = Lexer::new(b"GLOBAL @");
    let first = lexer.next_token().expect(&rt, "a token");
    let word = first.expect(&rt, "a word");
    assert_equal(&rt, &word.kind, &TokenKind::Word);
    assert_equal(&rt, &word.text, &b"GLOBAL".as_slice());
    assert_equal(&rt, &word.line, &1);
    let bad = InfoFault {
        line: 1,
        kind: InfoFaultKind::BadByte,
    };
    for _ in 0..3 {
        assert_equal(&rt, &lexer.next_token().err(), &Some(bad));
    }
}
