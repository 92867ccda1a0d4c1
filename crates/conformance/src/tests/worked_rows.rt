//! Worked examples, in the form of `worked`. `large_rows` has the image of as many bytes as addresses.

pub const WORKED: &str = r#"
= three_bytes: a.bin < A9 01 60
-- whole
; da65 listing

        .setcpu "6502"

        lda     #$01
        rts
= forced_absolute: -S $1000 a.bin < AD 12 00 99 12 00 4C 14 00
--
L0014           := $0014

        lda     a:$0012
        sta     $0012,y
        jmp     L0014
= forced_absolute, of a named address: -S $1000 a.bin < AD 12 00 99 12 00 4C 12 00
--
L0012           := $0012

        lda     a:L0012
        sta     L0012,y
        jmp     L0012
= branch_to_itself: -S $1000 a.bin < D0 FE
--
L1000:  bne     L1000
= jump_into_instruction: -S $1000 a.bin < 4C 01 10
--
L1001           := * + 1
        jmp     L1001
= branch_out_of_the_address_space: -S $FFFC a.bin < D0 7F EA EA
--
        .byte   $D0,$7F
        nop
        nop
= cut_instruction: -S $1000 a.bin < 20
--
        .byte   $20
= cut_instruction, before a table: -S $1000 a.bin < EA 20 01 02
RANGE { START $1002; END $1003; TYPE BYTETABLE; };
--
        nop
        .byte   $20
        .byte   $01,$02
= return_table: -S $1000 a.bin < FF FF FF 0F
RANGE { START $1000; END $1003; TYPE RTSTABLE; };
--
L1000:  .word   $FFFF
        .word   L1000-1
= zero_page_operand_is_a_number: -S $0000 a.bin < A5 04 AD 04 00
--
        lda     $04
L0004           := * + 2
        lda     a:L0004
= word_table_cut_at_a_name: -S $2000 a.bin < 01 02 03 04 05
RANGE { START $2000; SIZE 5; TYPE WORDTABLE; }; LABEL { ADDR $2002; NAME "mid"; };
--
        .word   $0201
mid:    .word   $0403
        .byte   $05
= word_table_cut_at_a_name, inside a word: -S $2000 a.bin < 01 02 03 04 05
RANGE { START $2000; SIZE 5; TYPE WORDTABLE; }; LABEL { ADDR $2001; NAME "mid"; };
--
        .byte   $01
mid:    .word   $0302,$0504
= target_inside_a_word: -S $1FFF a.bin < AD 03 20 34 12
RANGE { START $2002; END $2003; TYPE WORDTABLE; };
--
        lda     L2002+1
L2002:  .word   $1234
= target_inside_a_word, by a hexadecimal offset: -S $1FFF --hexoffs a.bin < AD 03 20 34 12
RANGE { START $2002; END $2003; TYPE WORDTABLE; };
--
        lda     L2002+$01
L2002:  .word   $1234
= text_table: -S $1000 a.bin < 48 22 5C 49 0D
RANGE { START $1000; SIZE 5; TYPE TEXTTABLE; };
--
        .byte   "H",$22,$5C,"I",$0D
= bit_branch_by_cpu, 65C02: -S $1000 --cpu 65C02 a.bin < 0F 12 FD
-- 65C02
L1000:  bbr0    $12,L1000
= bit_branch_by_cpu, 6502: -S $1000 --cpu 6502 a.bin < 0F 12 FD
--
        .byte   $0F
        .byte   $12
        .byte   $FD
= size_limits, one byte more: a.bin < 00 *65537
-- refused input is too large
= size_limits, no byte: a.bin <
-- refused input is empty
= sized_name_across_the_zero_page: a.bin < A5 FF AD 00 01
LABEL { ADDR $FE; NAME "buf"; SIZE 4; };
--
buf             := $00FE

        lda     buf+1
        lda     buf+2
= refused_information_files, ranges that overlap: -S $1000 a.bin < EA
RANGE { START $1000; END $10FF; TYPE CODE; };
RANGE { START $10FF; SIZE 2; TYPE SKIP; };
-- refused info:2: ranges overlap
= refused_information_files, a reserved letter: -S $1000 a.bin < EA
LABEL { ADDR $20; NAME "z"; };
-- refused info:1: reserved name
= refused_information_files, the name of another address: -S $1000 a.bin < EA
LABEL { ADDR $3000; NAME "L2000"; };
-- refused info:1: reserved name
= refused_information_files, a string to the end of the line: -S $1000 a.bin < EA
LABEL { ADDR $20; NAME "ab

-- refused info:1: string not closed
= include_names: -S $1000 a.bin < 20 D2 FF
ASMINC { FILE "k.inc"; IGNOREUNKNOWN on; };
k.inc:
CHROUT = $FFD2
BSOUT := $FFD2 ; same
.macro x

--
CHROUT          := $FFD2

        jsr     CHROUT
= include_names, with IGNOREUNKNOWN off: -S $1000 a.bin < 20 D2 FF
ASMINC { FILE "k.inc"; IGNOREUNKNOWN off; };
k.inc:
CHROUT = $FFD2
BSOUT := $FFD2 ; same
.macro x

-- refused include k.inc:3: bad include line
= segment_entered_again: -S $1000 a.bin < EA EA EA
SEGMENT { START $1001; END $1001; NAME "DATA"; };
--
da65: warning: a segment is entered again
        nop
        .segment "DATA"
        nop
        .code
        nop
= skipped_bytes: -S $1000 a.bin < EA 20 30 EA
RANGE { START $1001; END $1002; TYPE SKIP; };
--
da65: warning: skipped bytes, the listing does not assemble to the image
        nop
        nop
= full_remarks: -S $1000 --comments 4 a.bin < A9 41
--
; ----------------------------------------------------------------------------
        lda     #$41                            ; 1000 A9 41                    .A
= long_labels, on a line of its own: -S $1000 a.bin < A9 01
LABEL { ADDR $1000; NAME "longname"; };
--
longname:
        lda     #$01
= long_labels, on the line of the statement: -S $1000 a.bin < A9 01
LABEL { ADDR $1000; NAME "chrout7"; };
--
chrout7: lda    #$01
= standard_input: /dev/stdin < 48 49 0A
--
        pha
        eor     #$0A
= input_names, none: -S $1000 < EA
-- refused no input file
= input_names, two: -S $1000 a.bin < EA
GLOBAL { INPUTNAME "b.bin"; };
-- refused info:1: name given in both places
"#;
