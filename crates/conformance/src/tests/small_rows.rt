//! Small examples, in the form of `worked`: settings, ranges, names, segments, include files, CPUs and double words.

pub const SMALL: &str = r#"
= undefined_opcode: -S $1000 a.bin < 02 EA
--
        .byte   $02
        nop
= start_of_the_information_file: a.bin < D0 FE @ 1000 D0 FE
GLOBAL { STARTADDR $1000; }
--
L1000:  bne     L1000
= offset_and_size: a.bin < 00 A9 01 60 @ FFFE A9 01
GLOBAL { INPUTOFFS 1; INPUTSIZE 2; };
--
        lda     #$01
= input_shorter_than_its_size: a.bin < A9 01 60
GLOBAL { INPUTSIZE 4; };
-- refused input is too short
= offset_past_the_input: a.bin < A9 01 60
GLOBAL { INPUTOFFS 4; };
-- refused input is empty
= image_past_the_last_address: a.bin < A9 01
GLOBAL { STARTADDR $FFFF; };
-- refused input is too large
= byte_of_no_token: a.bin < EA
GLOBAL @
-- refused info:1: bad byte
= digit_of_no_number: a.bin < EA
GLOBAL { STARTADDR $G; };
-- refused info:1: bad number
= group_without_an_end: a.bin < EA
GLOBAL {

-- refused info:2: something else expected
= number_for_a_cpu: a.bin < EA
GLOBAL { CPU 6502; };
-- refused info:1: something else expected
= group_of_no_name: a.bin < EA
FOO { };
-- refused info:1: unknown group
= attribute_of_no_name: a.bin < EA
GLOBAL { FOO 1; };
-- refused info:1: unknown attribute
= start_given_twice: a.bin < EA
GLOBAL { STARTADDR 1; };
Global { startaddr 2; };
-- refused info:2: attribute given twice
= start_past_the_last_address: a.bin < EA
GLOBAL { STARTADDR 65536; };
-- refused info:1: value out of range
= pages: a.bin < EA
GLOBAL { PAGELENGTH 1; };
-- refused info:1: value out of range
= cpu_of_no_name: a.bin < EA
GLOBAL { CPU "6809"; };
-- refused info:1: value out of range
= empty_input_name: -S $1000 < EA
GLOBAL { INPUTNAME ""; };
-- refused info:1: bad name
= two_output_names: -o c.s a.bin < EA
GLOBAL { OUTPUTNAME "b.s"; };
-- refused info:1: name given in both places
= word_table_with_a_leftover_byte: -S $1000 a.bin < 01 02 03
RANGE { START $1000; SIZE 3; TYPE WORDTABLE; };
--
        .word   $0201
        .byte   $03
= dbyte_table: -S $1000 a.bin < 01 02
RANGE { START $1000; SIZE 2; TYPE DBYTETABLE; };
--
        .dbyt   $0102
= neighbouring_byte_tables: -S $1000 a.bin < 01 02
RANGE { START $1000; SIZE 1; TYPE BYTETABLE; }; RANGE { START $1001; SIZE 1; TYPE BYTETABLE; };
--
        .byte   $01,$02
= nine_bytes: -S $1000 a.bin < 00 *9
RANGE { START $1000; SIZE 9; TYPE BYTETABLE; };
--
        .byte   $00,$00,$00,$00,$00,$00,$00,$00
        .byte   $00
= nothing_but_a_skipped_byte: -S $1000 a.bin < EA
RANGE { START $1000; SIZE 1; TYPE SKIP; };
--
da65: warning: skipped bytes, the listing does not assemble to the image
= range_without_a_start: -S $1000 a.bin < EA
RANGE { END 1; TYPE CODE; };
-- refused info:1: attribute missing
= range_that_ends_before_its_start: -S $1000 a.bin < EA
RANGE { START 1; END 0; TYPE CODE; };
-- refused info:1: value out of range
= range_with_an_end_and_a_size: -S $1000 a.bin < EA
RANGE { START 1; END 1; SIZE 1; TYPE CODE; };
-- refused info:1: attribute given twice
= range_of_no_type: -S $1000 a.bin < EA
RANGE { START 1; END 1; TYPE FOO; };
-- refused info:1: something else expected
= address_table: -S $1000 a.bin < 00 10 00 20
RANGE { START $1000; SIZE 4; TYPE ADDRTABLE; };
--
L2000           := $2000

L1000:  .addr   L1000
        .addr   L2000
= name_inside_an_instruction: -S $1000 a.bin < A9 01
LABEL { ADDR $1001; NAME "mid"; };
--
mid             := * + 1
        lda     #$01
= jump_into_instruction_by_a_hexadecimal_offset: -S $1000 --hexoffs a.bin < 4C 01 10
--
L1001           := * + $0001
        jmp     L1001
= default_name_of_its_own_address: -S $2000 a.bin < 60
LABEL { ADDR $2000; NAME "L2000"; };
--
L2000:  rts
= name_of_two_addresses: -S $1000 a.bin < EA
LABEL { ADDR 1; NAME "ab"; };
LABEL { ADDR 2; NAME "ab"; };
-- refused info:2: name given twice
= address_of_two_names: -S $1000 a.bin < EA
LABEL { ADDR 1; NAME "ab"; };
LABEL { ADDR 1; NAME "cd"; };
-- refused info:2: address named twice
= name_that_begins_with_a_digit: -S $1000 a.bin < EA
LABEL { ADDR 1; NAME "1a"; };
-- refused info:1: bad name
= name_of_a_mnemonic: -S $1000 a.bin < EA
LABEL { ADDR 1; NAME "BNE"; };
-- refused info:1: reserved name
= sized_name_past_the_last_address: -S $1000 a.bin < EA
LABEL { ADDR $FFFF; NAME "ab"; SIZE 2; };
-- refused info:1: value out of range
= segment_inside_an_instruction: -S $1000 a.bin < A9 01
SEGMENT { START $1001; END $1001; NAME "DATA"; };
--
        .byte   $A9
        .segment "DATA"
        .byte   $01
= comment_of_a_label: -S $1000 a.bin < 60
LABEL { ADDR $1000; NAME "go"; COMMENT "entry"; };
--
; entry
go:     rts
= empty_line_after_rts: a.bin < A9 01 60
GLOBAL { NEWLINEAFTERRTS on; };
--
        lda     #$01
        rts

= all_at_column_1: --mnemonic-column 1 --argument-column 1 a.bin < A9 01
-- whole
; da65 listing

.setcpu "6502"

lda #$01
= comment_without_a_name: -S $1000 a.bin < EA
RANGE { START 1; END 1; TYPE CODE; COMMENT "x"; };
-- refused info:1: attribute missing
= segment_of_two_places: -S $1000 a.bin < EA EA EA
SEGMENT { START $1000; END $1000; NAME "P"; };
SEGMENT { START $1001; END $1001; NAME "Q"; };
SEGMENT { START $1002; END $1002; NAME "P"; };
--
da65: warning: a segment is entered again
        .segment "P"
        nop
        .segment "Q"
        nop
        .segment "P"
        nop
= segments_that_overlap: -S $1000 a.bin < EA
SEGMENT { START 1; END 2; NAME "P"; };
SEGMENT { START 2; END 3; NAME "Q"; };
-- refused info:2: segments overlap
= comment_sign_of_an_include_file: -S $1000 a.bin < 4C 10 00
ASMINC { FILE "k.inc"; COMMENTSTART '*'; };
k.inc:
* names
K = %10000 * ten
--
K               := $0010

        jmp     K
= digit_that_begins_a_comment: -S $1000 a.bin < 4C 10 00
ASMINC { FILE "k.inc"; COMMENTSTART '1'; };
k.inc:
K = 11
-- refused include k.inc:1: bad include line
= second_name_of_an_address: -S $1000 a.bin < 4C 01 00
ASMINC { FILE "k.inc"; };
k.inc:
K = 1
J = 1
--
K               := $0001

        jmp     K
= include_file_of_two_groups: -S $1000 a.bin < 4C 10 00
ASMINC { FILE "k.inc"; }; ASMINC { FILE "k.inc"; };
k.inc:
K = 16
--
K               := $0010

        jmp     K
= include_name_of_two_addresses: -S $1000 a.bin < 4C 10 00
ASMINC { FILE "k.inc"; };
k.inc:
K = 1
K = 2
-- refused include k.inc:2: name given twice
= reserved_include_name: -S $1000 a.bin < 4C 10 00
ASMINC { FILE "k.inc"; };
k.inc:
a = 1
-- refused include k.inc:1: reserved name
= digit_of_no_binary_number: -S $1000 a.bin < 4C 10 00
ASMINC { FILE "k.inc"; };
k.inc:
K = %102
-- refused include k.inc:1: bad include line
= include_value_past_the_last_address: -S $1000 a.bin < 4C 10 00
ASMINC { FILE "k.inc"; };
k.inc:
K = 65536
-- refused include k.inc:1: bad include line
= include_file_that_is_missing: -S $1000 a.bin < 4C 10 00
ASMINC { FILE "k.inc"; };
-- refused cannot read include k.inc
= jump_through_a_table: -S $1000 --cpu 65C02 a.bin < 7C 00 20
-- 65C02
        jmp     ($2000,x)
= zero_page_pointer: -S $1000 --cpu 65C02 a.bin < B2 10
-- 65C02
        lda     ($10)
= increment_of_the_accumulator: -S $1000 --cpu 65C02 a.bin < 1A
-- 65C02
        inc     a
= bit_test_of_a_number: -S $1000 --cpu 65C02 a.bin < 89 01
-- 65C02
        bit     #$01
= bit_instruction: -S $1000 --cpu 65C02 a.bin < 07 12
-- 65C02
        rmb0    $12
= opcode_of_the_w65c02: -S $1000 --cpu 65C02 a.bin < CB
-- 65C02
        .byte   $CB
= bit_branch_out_of_the_address_space: -S $FFFD --cpu 65C02 a.bin < 0F 12 7F
-- 65C02
        .byte   $0F,$12,$7F
= bit_branch_far_back: -S $FFFD --cpu 65C02 a.bin < 0F 12 80
-- 65C02
LFF80           := $FF80

        bbr0    $12,LFF80
= flag_of_a_bit_branch: -S $1000 --cpu 65C02 a.bin < 0F 12 FD
LABEL { ADDR $12; NAME "flag"; };
-- 65C02
flag            := $0012

L1000:  bbr0    flag,L1000
= branch_always: -S $1000 --cpu 65sc02 a.bin < 80 FE
-- 65SC02
L1000:  bra     L1000
= bit_instruction_of_the_65sc02: -S $1000 --cpu 65SC02 a.bin < 07 12 34
-- 65SC02
        .byte   $07
        ora     ($34)
= bit_instruction_of_the_65c02: -S $1000 --cpu 65C02 a.bin < 07 12 34
-- 65C02
        rmb0    $12
        .byte   $34
= bit_instruction_of_the_6502: -S $1000 a.bin < 07 12 34
--
        .byte   $07
        .byte   $12
        .byte   $34
= double_word_with_leftover_bytes: -S $1000 a.bin < 01 02 03 04 05 06 07
RANGE { START $1000; SIZE 7; TYPE DWORDTABLE; };
--
        .dword  $04030201
        .byte   $05
        .byte   $06
        .byte   $07
= three_double_words: -S $1000 a.bin < 00 *12
RANGE { START $1000; SIZE 12; TYPE DWORDTABLE; };
--
        .dword  $00000000,$00000000
        .dword  $00000000
= target_inside_a_double_word: -S $1000 a.bin < AD 06 10 78 56 34 12
RANGE { START $1003; END $1006; TYPE DWORDTABLE; };
--
        lda     L1003+3
L1003:  .dword  $12345678
= target_inside_a_double_word_by_a_hexadecimal_offset: -S $1000 --hexoffs a.bin < AD 06 10 78 56 34 12
RANGE { START $1003; END $1006; TYPE DWORDTABLE; };
--
        lda     L1003+$03
L1003:  .dword  $12345678
= double_words_cut_at_a_name: -S $1000 a.bin < 01 02 03 04 05 06 07 08
RANGE { START $1000; SIZE 8; TYPE DWORDTABLE; }; LABEL { ADDR $1002; NAME "mid"; };
--
        .byte   $01
        .byte   $02
mid:    .dword  $06050403
        .byte   $07
        .byte   $08
"#;
