//! What texts assemble to. Most small texts are rows of `text_rows`.

use crate::tests::asserts::{assert_equal, assert_equal_at};
use std::alloc::{AllocError, AllocGlobal, Global};
use std::process::Abort;
use stmt65::{AsmFault, Language, Layout, Source, assemble, assemble_source, line_addresses};

/// The bytes of an assembly, or its fault.
pub fn shown(rt: &(impl AllocGlobal + Abort), outcome: Result<Vec<u8>, AsmFault>) -> String {
    let mut out = String::new(rt.alloc());
    match outcome {
        Ok(bytes) => {
            for byte in &bytes {
                write!(out, " {byte:02X}").expect(rt, "write");
            }
        }
        Err(fault) => write!(out, " line {fault}").expect(rt, "write"),
    }
    out
}

/// Texts, and their bytes or their fault from $1000 on. `.setcpu` holds from its line on, by its text in any case.
const CPUS: &[(&str, &str)] = &[
    (
        ".setcpu \"65sc02\"\njmp ($2000,x)\nlda ($10)\ninc a\nbit #1\nstz $12\nstz a:$12,x",
        " 7C 00 20 B2 10 1A 89 01 64 12 9E 12 00",
    ),
    (
        "flag := $12\n.setcpu \"65C02\"\nbbr0 flag,$0F83\nSMB7 flag\nbbs7 $FF,$1087",
        " 0F 12 80 F7 12 FF FF 7F",
    ),
    (
        ".setcpu \"65C02\"\nbbr0 $12,$1084",
        " line 2: value out of range",
    ),
    (
        ".setcpu \"65C02\"\nbbr0 $12,$0F82",
        " line 2: value out of range",
    ),
    (
        ".setcpu \"65C02\"\nbbr0 $112,$1000",
        " line 2: value out of range",
    ),
    (
        ".setcpu \"65C02\"\nphx\n.setcpu \"6502\"\nphx",
        " line 4: no such form",
    ),
    // the lowest line, and then the lowest fault
    ("nop\nlda #$100\nfrob", " line 2: value out of range"),
    ("foo:\nfoo: lda bar", " line 2: undefined name"),
    ("foo:\nfoo: lda #$100", " line 2: name defined twice"),
    ("foo:\nfoo: stx bar,x", " line 2: no such form"),
    (
        "jmp foo\n.setcpu \"z80\"\nfoo: stx $12,x",
        " line 2: unknown CPU",
    ),
    // carriage returns
    (".word $1234\nnop\r\n", " line 2: syntax error"),
    ("nop\r", " line 1: syntax error"),
    ("\r", " line 1: syntax error"),
    // strings of other bytes
    (".byte \"a\tb\"", " line 1: syntax error"),
    (".byte \"a\u{80}\"", " line 1: syntax error"),
    // lines without bytes
    ("\n \t \n ; lda $12 \" \r\u{80}\nLoop:\nwai:", ""),
];

#[test]
fn forms_by_cpu_and_first_faults(rt: HostRuntime) {
    for (text, want) in CPUS {
        let found = shown(&rt, assemble(rt.alloc(), text.as_bytes(), 0x1000));
        assert_equal_at(&rt, &found.as_str(), want, text);
    }
}

/// Each byte of the address space by a line of its own, and then one more.
#[test]
fn as_many_lines_as_bytes(rt: HostRuntime) {
    let mut text = ".byte 0\n".repeat(rt.alloc(), 65_536).expect(&rt, "repeat");
    let found = assemble(rt.alloc(), text.as_bytes(), 0).expect(&rt, "assemble");
    assert_equal(&rt, &found.len(), &65_536);
    text.push_str(".byte 0\n").expect(&rt, "push_str");
    let found = shown(&rt, assemble(rt.alloc(), text.as_bytes(), 0));
    assert_equal(
        &rt,
        &found.as_str(),
        &" line 65537: past the end of the address space",
    );
}

const REMARK: &str =
    "; remarks assemble to nothing: blanks, names and numbers such as m1, $1234 or 5\n";

/// 70,000 labels on lines of their own, remarks up to 7 MB, and the first and the last label.
fn labels_and_remarks(alloc: Global) -> Result<String, AllocError> {
    let mut text = String::new(alloc);
    for n in 0..70_000u32 {
        write!(text, "m{n}:\n")?;
    }
    text.push_str(&REMARK.repeat(alloc, 85_000)?)?;
    text.push_str(".addr m0\n.addr m69999")?;
    Ok(text)
}

#[test]
fn seven_megabytes(rt: HostRuntime) {
    let text = labels_and_remarks(rt.alloc()).expect(&rt, "labels_and_remarks");
    let found = shown(&rt, assemble(rt.alloc(), text.as_bytes(), 0x1234));
    assert_equal(&rt, &found.as_str(), &" 34 12 34 12");
}

/// The addresses after the lines of a text, of which one is none and the last has no line feed.
#[test]
fn addresses_after_lines(rt: HostRuntime) {
    let layout = Layout::new(rt.alloc(), 0).expect(&rt, "layout");
    let source = Source {
        language: Language::Listing,
        layout: &layout,
        start: 0x1000,
        text: b"v := $12\nlda v\n?\n\nl: .word 1,2 ; two\nrts",
    };
    let found = line_addresses(rt.alloc(), &source).expect(&rt, "line_addresses");
    let want = [0x1000, 0x1002, 0x1002, 0x1002, 0x1006, 0x1007];
    assert_equal(&rt, &found.as_slice(), &want.as_slice());
}

/// Texts of repairs, and what they give from $1000 on. They are filled up to the starts of segments; of two segments of
/// one name the first counts, and one without a start goes on.
const REPAIRS: &[(&str, &str)] = &[
    (
        "l: lda #<m\n.segment \"A\"\nm: .word m-l",
        " A9 04 EE EE 04 00",
    ),
    (
        ".res 4,1\n.segment \"A\"\n.segment \"C\"\nrts",
        " 01 01 01 01 60",
    ),
    (
        ".segment \"A\"\n.segment \"B\"\nrts",
        " EE EE EE EE EE EE EE EE 60",
    ),
    (".res 5\n.segment \"A\"", " line 2: segment past its start"),
    (".res 65535", " line 1: past the end of the address space"),
];

#[test]
fn texts_of_repairs(rt: HostRuntime) {
    let mut layout = Layout::new(rt.alloc(), 0xEE).expect(&rt, "layout");
    layout.add(b"A", 0x1004).expect(&rt, "add");
    layout.add(b"B", 0x1008).expect(&rt, "add");
    layout.add(b"A", 0x1030).expect(&rt, "add");
    for (text, want) in REPAIRS {
        let source = Source {
            language: Language::Repair,
            layout: &layout,
            start: 0x1000,
            text: text.as_bytes(),
        };
        let found = shown(&rt, assemble_source(rt.alloc(), &source));
        assert_equal_at(&rt, &found.as_str(), want, text);
    }
}
