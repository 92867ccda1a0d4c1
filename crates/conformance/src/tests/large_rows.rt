//! Examples that are many or long, in the form of `worked`, and those without a listing of their own.

use crate::tests::asserts::{assert_equal_at, assert_that_at};
use crate::tests::devices::{Counted, Endless};
use crate::tests::runs::{Given, NAMED};
use da65::Status;
use std::alloc::{AllocError, AllocGlobal};
use std::process::Abort;

fn put_repeated(out: &mut String, count: u32, text: &str) -> Result<(), AllocError> {
    for _ in 0..count {
        out.push_str(text)?;
    }
    Ok(())
}

/// As many bytes as addresses: 00, and calls, of which one is named by another and the last is cut.
fn put_code(out: &mut String) -> Result<(), AllocError> {
    out.push_str("\n= size_limits: a.bin < 00 *65536\n--\n")?;
    put_repeated(out, 65_536, "        brk\n")?;
    out.push_str("= calls_without_end: -S $0000 a.bin < 20 *65536\n--\n")?;
    put_repeated(out, 2_741, "        jsr     L2020\n")?;
    out.push_str("L2020           := * + 1\n")?;
    put_repeated(out, 19_104, "        jsr     L2020\n")?;
    out.push_str("        .byte   $20\n")
}

/// A branch 46 bytes back every two bytes. The first 23 would leave the address space, and to the last 23 none leads.
fn put_branches(out: &mut String) -> Result<(), AllocError> {
    out.push_str("= branches_without_end: -S $0000 a.bin < D0 *65536\n--\n")?;
    for number in 0..32_768u32 {
        let address = 2 * number;
        if number < 32_745 {
            write!(out, "L{address:04X}:  ")?;
        } else {
            out.push_str("        ")?;
        }
        if number < 23 {
            out.push_str(".byte   $D0,$D0\n")?;
        } else {
            write!(out, "bne     L{:04X}\n", address.saturating_sub(46))?;
        }
    }
    Ok(())
}

/// 20,000 groups LABEL, and their constant lines.
fn put_labels(out: &mut String) -> Result<(), AllocError> {
    out.push_str("= twenty_thousand_labels: -S $FFFF a.bin < 60\n")?;
    for number in 0..20_000u16 {
        write!(out, "LABEL {{ ADDR {number}; NAME \"m{number}\"; }};\n")?;
    }
    out.push_str("--\n")?;
    for number in 0..20_000u16 {
        write!(out, "m{number:<15}:= ${number:04X}\n")?;
    }
    out.push_str("\n        rts\n")
}

const LONG_LABEL: &str = " -S $1000 a.bin < 60\nLABEL { ADDR $1000; NAME \"";

/// A name of 80 bytes and one of 81, a comment of 200 bytes and one of 201.
fn put_long_labels(out: &mut String) -> Result<(), AllocError> {
    write!(out, "= longest_name:{LONG_LABEL}{:n<80}\"; }};\n--\n", "")?;
    write!(out, "{:n<80}:\n        rts\n", "")?;
    write!(
        out,
        "= name_that_is_too_long:{LONG_LABEL}{:n<81}\"; }};\n",
        ""
    )?;
    out.push_str("-- refused info:1: bad name\n")?;
    write!(
        out,
        "= longest_comment:{LONG_LABEL}go\"; COMMENT \"{:c<200}\"; }};\n",
        ""
    )?;
    write!(out, "--\n; {:c<200}\ngo:     rts\n", "")?;
    write!(
        out,
        "= comment_that_is_too_long:{LONG_LABEL}go\"; COMMENT \"{:c<201}\"; }};\n",
        ""
    )?;
    out.push_str("-- refused info:1: bad name\n")
}

const INCLUDING: &str = " -S $1000 a.bin < EA\nASMINC { FILE \"k.inc\"; ";

/// Files of the largest size, files that are a byte larger, and an include file more than there may be.
fn put_large_files(out: &mut String) -> Result<(), AllocError> {
    out.push_str("= seventeen_include_files: a.bin < EA\n")?;
    put_repeated(out, 17, "ASMINC { FILE \"k.inc\"; };\n")?;
    out.push_str("-- refused info:17: too large\n= largest_information_file: a.bin < EA\n")?;
    put_repeated(out, 1_048_576, "#")?;
    out.push_str("\n--\n        nop\n= information_file_that_is_too_large: a.bin < EA\n")?;
    put_repeated(out, 1_048_577, "#")?;
    write!(
        out,
        "\n-- refused info:1: too large\n= largest_include_file:{INCLUDING}}};\nk.inc:\n"
    )?;
    put_repeated(out, 1_048_576, ";")?;
    out.push_str("\n--\n        nop\n= include_file_that_is_too_large:")?;
    write!(out, "{INCLUDING}}};\nk.inc:\n")?;
    put_repeated(out, 1_048_577, ";")?;
    out.push_str(
        "\n-- refused include k.inc:1: too large\n= include_file_that_is_too_large_to_ignore:",
    )?;
    write!(out, "{INCLUDING}IGNOREUNKNOWN on; }};\nk.inc:\n")?;
    put_repeated(out, 1_048_577, ";")?;
    out.push_str("\n-- refused include k.inc:1: too large\n")
}

/// The rows of these examples, as a table.
pub fn large_rows(rt: &(impl AllocGlobal + Abort)) -> String {
    let mut out = String::new(rt.alloc());
    put_code(&mut out).expect(rt, "put_code");
    put_branches(&mut out).expect(rt, "put_branches");
    put_labels(&mut out).expect(rt, "put_labels");
    put_long_labels(&mut out).expect(rt, "put_long_labels");
    put_large_files(&mut out).expect(rt, "put_large_files");
    out
}

/// 768 bytes of each value, for each CPU.
#[test]
fn byte_values(rt: HostRuntime) {
    for cpu in ["6502", "65SC02", "65C02"] {
        let words = ["-S", "$1000", "--cpu", cpu, "a.bin"];
        for value in 0..=255u8 {
            let image = vec![in rt.alloc(); value; 768].expect(&rt, "vec");
            let given = Given {
                words: &words,
                info: b"",
                files: &[],
                input: &image,
            };
            given.comes_back(&rt, cpu, 0x1000, &image);
        }
    }
}

/// An information file, whether there is a listing of bytes 00 without end, and how many of them are read.
const ENDLESS: &[(&str, Status, usize)] = &[
    ("", Status::Refused, 65_537),
    ("GLOBAL { INPUTSIZE 1; };", Status::Done, 1),
    (
        "GLOBAL { INPUTOFFS 16777216; INPUTSIZE 1; };",
        Status::Done,
        16_777_217,
    ),
];

#[test]
fn readers_without_end(rt: HostRuntime) {
    for (info, status, count) in ENDLESS {
        let given = Given {
            words: NAMED,
            info: info.as_bytes(),
            files: &[],
            input: &[],
        };
        let mut input = Endless::new();
        let mut messages = Vec::new(rt.alloc());
        let listing = Counted::new(usize::MAX);
        let result = given.run_on(&rt, rt.alloc(), &mut input, listing, &mut messages);
        assert_equal_at(&rt, &result, &Ok(*status), info);
        assert_equal_at(&rt, &input.given(), count, info);
        let message = b"da65: input is too large\n";
        let is_refused = messages.as_slice() == message.as_slice();
        assert_that_at(&rt, is_refused == (*status == Status::Refused), info);
    }
}
