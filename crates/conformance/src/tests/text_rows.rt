//! Examples of calls beside a run: each line has a name, what is given, ` =>` and what is returned.

use crate::tests::assembling::shown;
use crate::tests::asserts::{assert_equal, assert_equal_at, assert_that};
use crate::tests::command_lines::options_on;
use crate::tests::include_files::put_names;
use crate::tests::inputs::info_of;
use crate::tests::needed_files::needed;
use crate::tests::worked::{hex, words_of};
use info65::{Info, InfoFault, Options, read_include, read_info};
use std::alloc::{AllocGlobal, Global};
use std::process::Abort;
use stmt65::assemble;

/// Texts from $1000 on, or from the address after an `@`, with `/` for a line feed. They are followed by their bytes,
/// or by their fault; texts with ` | ` between them have the same.
const ASSEMBLED: &str = r#"
sizes_of_operands: lda $12/lda a:$12/sta $12,y/ => A5 12 AD 12 00 99 12 00
later_name_is_absolute: lda v/v := $12/ => AD 12 00
earlier_name_is_zero_page: v := $12/lda v/ => A5 12
fault_of_the_lowest_line: bne foo/frob $12/foo:/ => line 2: syntax error
faulty_line_defines_no_label: jmp foo/foo: frob/ => line 1: undefined name
unknown_cpu: .setcpu "6809"/ => line 1: unknown CPU
form_of_a_later_cpu: bra $1000/ => line 1: no such form
form_of_the_cpu_that_is_set: .setcpu "65C02"/bra $1000/ => 80 FE
undefined_name: jmp foo/ => line 1: undefined name
name_defined_twice: foo:/foo: nop/ => line 2: name defined twice
branch_too_far: bne $2000/ => line 1: value out of range
byte_past_the_last_address: @FFFF lda #1/ => line 1: past the end of the address space
no_byte:  =>
instruction_of_the_65sc02: .setcpu "65SC02"/phx/ => DA
bit_branch_of_the_65sc02: .setcpu "65SC02"/bbr0 $12,$1003/ => line 2: no such form
double_words: .dword $12345678,1/ => 78 56 34 12 01 00 00 00
nine_digits: .dword $123456789/ => line 1: syntax error
thirty_three_bits: .dword 4294967296/ => line 1: value out of range
mnemonics_in_any_case: .setcpu "65C02"/adc #1/TYA/Rmb7 $12/sMB7 $12 => 69 01 98 77 12 F7 12
words_of_no_mnemonic: ad | adcc | rmb8 $12 | wai | stp => line 1: syntax error
cpus_in_any_case: .setcpu "65sc02"/phx | .setcpu "65Sc02"/phx | .setcpu "65C02"/phx | .setcpu "65c02"/phx => DA
first_cpu_set_again: .setcpu "6502"/phx => line 2: no such form
texts_of_no_cpu: .setcpu "65CE02" | .setcpu "6809" | .setcpu "" | .SetCpu "6809 " => line 1: unknown CPU
each_mode: .setcpu "65C02"/nop/asl a/lda #1/lda 2/lda 3,x/ldx 4,y/lda $1234/lda $1234,x/lda $1234,y/jmp ($1234)/lda (5,x)/lda (6),y/lda (7)/jmp ($1234,x)/bne $1021/bbr0 8,$1021 => EA 0A A9 01 A5 02 B5 03 B6 04 AD 34 12 BD 34 12 B9 34 12 6C 34 12 A1 05 B1 06 B2 07 7C 34 12 D0 00 0F 08 FD
sizes_of_lda: lda $12/lda a:$12/lda $12,x/lda a:$12,x/lda $12,y => A5 12 AD 12 00 B5 12 BD 12 00 B9 12 00
sizes_of_ldx_and_stx: ldx $12/ldx a:$12/ldx $12,y/ldx a:$12,y/stx $12/stx a:$12/stx $12,y => A6 12 AE 12 00 B6 12 BE 12 00 86 12 8E 12 00 96 12
size_of_jmp: jmp $12 => 4C 12 00
sizes_of_stz: .setcpu "65SC02"/stz $12/stz a:$12/stz $12,x/stz a:$12,x => 64 12 9C 12 00 74 12 9E 12 00
size_of_a_bit_instruction: .setcpu "65C02"/rmb7 $112 => line 2: value out of range
labels: Loop : nop ; wait/_1:.CODE/.addr Loop,_1 => EA 00 10 01 10
definitions: v:=$fF/ w := 010/x1 := * + $10/y1:=*+1/.word v,w,x1,y1 => FF 00 0A 00 10 10 01 10
no_operand_and_the_accumulator: RTS/aSl A => 60 0A
forms_that_are_none: asl | bne a:$1000 => line 1: no such form
values_of_bytes: lda # $01/name := $12/lda#name => A9 01 A9 12
values_of_addresses: Name: lda Name/name := $0203/lda name + 2/lda name-1/lda name + $0A - 1/lda A:name,X/lda a : 5 , y => AD 00 10 AD 05 02 AD 02 02 AD 0C 02 BD 03 02 B9 05 00
numbers_out_of_range: lda $12345678 | lda 99999999999999999999 => line 1: value out of range
parentheses_and_two_operands: .setcpu "65C02"/name: jmp (name)/lda ($12,X)/lda ($12),Y/bbr0 $12,name+1 => 6C 00 10 A1 12 B1 12 0F 12 F7
bytes_and_strings: .byte ""/.Byte 1,"aB; ,'" , $FF => 01 61 42 3B 20 2C 27 FF
words: name := $1235/v := 2/.word name-1,$FFFF/.dbyt 1, 2/.dWord $ffffffff, v+1-1/.ADDR name+1 => 34 12 FF FF 00 01 00 02 FF FF FF FF 02 00 00 00 36 12
reserved_name_of_a_segment: .segment "lda"/nop => EA
no_less_than_one: lda name-$1 | lda name-01 | lda name-2 | lda name-1+1 | lda 5-1 | lda 5+1 | lda name+name => line 1: syntax error
no_data: .byte | .word ; | .dbyt | .addr | .byte 1, | .byte ,1 | .byte name | .word "ab" | .dword | .res 1 | .code 1 => line 1: syntax error
no_strings: .byte "ab => line 1: syntax error
no_names_of_segments: .segment "" | .segment "1a" | .segment "a.b" | .segment code | .setcpu 6502 => line 1: syntax error
no_place_of_a_size: bbr0 a:$12,name | lda a:($12),y | lda a: | lda #a:5 | lda ($12),x | lda ($12,y) | lda ($12 | lda $12,z => line 1: syntax error
no_names: A: | z := 1 | lda s | LdA: | rmb7: | Wai2: .dword | .name: => line 1: syntax error
no_place_and_no_constant: bne *+5 | jmp * | .word * | .byte * | lda #* | v := name | v := * | v := * - 1 | v : = 1 | v := 1 2 | label: v := 1 | label: label: nop => line 1: syntax error
no_numbers: lda $ | lda $G | lda $123456789 | lda 12ab | frob | frob $12 | nop nop | 12 | "" => line 1: syntax error
lines_of_repairs: lda #<$1234 | lda #%1 | foo = 1 => line 1: syntax error
label_in_the_zero_page: @0012 foo: lda foo/stx foo,y => line 2: value out of range
label_of_a_faulty_form: jmp foo/foo: asl => line 2: no such form
branches_to_the_limits: bne $0F82/bne $1083/bne $1004 => D0 80 D0 7F D0 FE
label_past_the_last_byte: @FFFF nop/foo: => line 2: value out of range
less_than_nothing: foo := 0/lda foo-1 => line 2: value out of range
one_less: foo := 1/lda foo-1/.word foo+1-1 => A5 00 01 00
size_of_less_than_nothing: @FFFB foo := 0/.addr bar/lda foo-1/bar: => line 3: value out of range
size_below_an_unknown_cpu: @FFFC .addr bar/.setcpu "65C02"/.setcpu "6809"/smb0 $12/bar: => line 1: value out of range
first_of_two_definitions: lda #foo/foo := $100/foo := 1 => line 1: value out of range
data_and_lines_without_bytes: .byte 1,"AB",""/.code/.segment "foo"/.dbyt $1234/.addr $1234/foo := * + 2/.word foo,$FFFF => 01 41 42 12 34 34 12 09 10 FF FF
words_of_seventeen_bits: .word $FFFF/.word $10000 | .dbyt $FFFF/.dbyt $10000 | .addr $FFFF/.addr $10000 => line 2: value out of range
byte_of_nine_bits: .byte $100 => line 1: value out of range
numbers_in_each_order: .byte $01,"AB"/.word $1234/.ADDR 4660/.dbyt $1234/.dword $12345678 => 01 41 42 34 12 34 12 12 34 78 56 34 12
"#;

#[test]
fn texts_assemble_as_rows_say(rt: HostRuntime) {
    for row in ASSEMBLED.lines().skip(1) {
        let (name, row) = row.split_once(": ").expect(&rt, "name");
        let (texts, want) = row.split_once(" =>").expect(&rt, "answer");
        let (start, texts) = match texts.strip_prefix("@") {
            Some(texts) => texts.split_once(" ").expect(&rt, "start"),
            None => ("1000", texts),
        };
        for text in texts.split(" | ") {
            let text = text.replace(rt.alloc(), "/", "\n").expect(&rt, "replace");
            let found = shown(&rt, assemble(rt.alloc(), text.as_bytes(), hex(&rt, start)));
            assert_equal_at(&rt, &found.as_str(), &want, &name);
        }
    }
}

/// A call with what it is given, and what it returns. `options_of` is given words. Of its options the start, the CPU,
/// the comment level, whether offsets are hexadecimal, and the input stand here. `needs` is given words and, after `<`,
/// an information file.
const CALLED: &str = r#"
start_after_0x: options_of -S 0x1000 a.bin => Some(4096) None None false Some("a.bin")
start_after_dollar: options_of -S $1000 a.bin => Some(4096) None None false Some("a.bin")
start_in_decimal: options_of -S 4096 a.bin => Some(4096) None None false Some("a.bin")
start_in_octal: options_of -S 010 => Some(8) None None false None
start_of_zero: options_of -S 0 => Some(0) None None false None
eight_in_octal: options_of -S 08 => bad number
start_without_a_digit: options_of -S 0x => bad number
number_before_cpu: options_of --cpu 6809 -S 08 => bad number
start_of_65536: options_of -S 65536 => argument out of range
start_of_twenty_digits: options_of -S 99999999999999999999 => argument out of range
unknown_cpu_option: options_of --cpu 6809 => argument out of range
cpu_65ce02: options_of --cpu 65CE02 => argument out of range
two_inputs: options_of a.bin b.bin => bad arguments
two_outputs: options_of -o x -o y => bad arguments
unknown_option: options_of --frob => bad arguments
options of target_inside_a_word: options_of -S $1FFF --hexoffs a.bin => Some(8191) None None true Some("a.bin")
options of bit_branch_by_cpu: options_of -S $1000 --cpu 65C02 a.bin => Some(4096) Some(M65C02) None false Some("a.bin")
options of full_remarks: options_of -S $1000 --comments 4 a.bin => Some(4096) None Some(4) false Some("a.bin")
needs_of_both_names: needs < GLOBAL { INPUTNAME "a.bin"; OUTPUTNAME "b.s"; }; => input a.bin output b.s
needs_of_a_refused_file: needs < FOO { }; =>
needs of include_names: needs a.bin < ASMINC { FILE "k.inc"; IGNOREUNKNOWN on; }; => input a.bin include k.inc
needs of input_names, none: needs < =>
needs of input_names, two: needs a.bin < GLOBAL { INPUTNAME "b.bin"; }; =>
"#;

/// The options of these words, as in the table.
fn options_said(rt: &(impl AllocGlobal + Abort), words: &[&str]) -> String {
    let mut out = String::new(rt.alloc());
    let put = match options_on(rt, words) {
        Ok(options) => write!(
            out,
            " {:?} {:?} {:?} {} {:?}",
            options.start,
            options.cpu,
            options.comments,
            options.hexoffs,
            options.input.as_deref()
        ),
        Err(fault) => write!(out, " {fault}"),
    };
    put.expect(rt, "write");
    out
}

#[test]
fn calls_return_what_rows_say(rt: HostRuntime) {
    for row in CALLED.lines().skip(1) {
        let (name, row) = row.split_once(": ").expect(&rt, "name");
        let (call, want) = row.split_once(" =>").expect(&rt, "answer");
        let (words, info) = call.split_once(" <").unwrap_or((call, ""));
        let words = words_of(rt.alloc(), words).expect(&rt, "words_of");
        let (call, words) = words.split_first().expect(&rt, "call");
        let found = if *call == "needs" {
            needed(&rt, words, info)
        } else {
            options_said(&rt, words)
        };
        assert_equal_at(&rt, &found.as_str(), &want, &name);
    }
}

const GROUP: &[u8] = b"LABEL { ADDR $20; NAME \"ab\"; };";

const INCLUDE_LINE: &[u8] = b"CHROUT = $FFD2 ; x";

const SOURCE_LINE: &[u8] = b"lda #$01";

/// One of these texts cut after each of some numbers of bytes, and what is read: names with their sizes, bytes, or a
/// fault.
const CUT: &str = r#"
cut_group: 0 =>
cut_group: 1 2 3 4 => 1: unknown group
cut_group: 5 6 7 8 12 13 15 16 17 18 22 23 27 28 29 => 1: something else expected
cut_group: 9 10 11 19 20 21 => 1: unknown attribute
cut_group: 14 => 1: bad number
cut_group: 24 25 26 => 1: string not closed
cut_group: 30 31 => 0020 ab+1
cut_include_line: 0 =>
cut_include_line: 1 2 3 4 5 6 7 8 9 10 => 1: bad include line
cut_include_line: 11 => 000F CHROUT+1
cut_include_line: 12 => 00FF CHROUT+1
cut_include_line: 13 => 0FFD CHROUT+1
cut_include_line: 14 15 16 17 18 => FFD2 CHROUT+1
cut_source_line: 1 2 => line 1: syntax error
cut_source_line: 3 4 => line 1: no such form
cut_source_line: 5 6 => line 1: syntax error
cut_source_line: 7 => A9 00
cut_source_line: 8 => A9 01
"#;

/// The names of an information, or its fault.
fn names_said(rt: &(impl AllocGlobal + Abort), read: Result<Info, InfoFault>) -> String {
    let mut out = String::new(rt.alloc());
    let put = match read {
        Ok(info) => put_names(&mut out, &info),
        Err(fault) => write!(out, " {fault}"),
    };
    put.expect(rt, "write");
    out
}

/// The information with an include file of this text.
fn with_include(rt: &(impl AllocGlobal + Abort), text: &[u8]) -> Result<Info, InfoFault> {
    let mut info = info_of(rt, b"ASMINC { FILE \"k.inc\"; };");
    assert_that(rt, info.includes().len() == 1);
    match read_include(rt.alloc(), &mut info, 0, text) {
        Ok(()) => Ok(info),
        Err(fault) => Err(fault),
    }
}

/// What is read of the first bytes of the text of a row.
fn read_cut(rt: &(impl AllocGlobal + Abort), name: &str, count: usize) -> String {
    let text = match name {
        "cut_group" => GROUP,
        "cut_include_line" => INCLUDE_LINE,
        _ => SOURCE_LINE,
    };
    let (cut, _) = text.split_at(count.min(text.len()));
    match name {
        "cut_group" => names_said(rt, read_info(rt.alloc(), &Options::<Global>::none(), cut)),
        "cut_include_line" => names_said(rt, with_include(rt, cut)),
        _ => shown(rt, assemble(rt.alloc(), cut, 0x1000)),
    }
}

#[test]
fn texts_that_are_cut(rt: HostRuntime) {
    let mut cuts = 0u32;
    for row in CUT.lines().skip(1) {
        let (name, row) = row.split_once(": ").expect(&rt, "name");
        let (counts, want) = row.split_once(" =>").expect(&rt, "answer");
        for count in counts.split_whitespace() {
            let found = read_cut(&rt, name, count.parse().expect(&rt, "parse"));
            let row = format_args!("{name} after {count}");
            assert_equal_at(&rt, &found.as_str(), &want, &row);
            cuts = cuts.saturating_add(1);
        }
    }
    assert_equal(&rt, &cuts, &(32 + 19 + 8));
}
