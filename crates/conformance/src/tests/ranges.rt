// Listings with ranges and names.
use crate::tests::worked::show;

const ROWS: &str = r#"
= undefined opcodes stand alone, and so does each instruction: -S $1000 a.bin < 02 02 EA EA
range { start 4096; size 4; type code; }
--
        .byte   $02
        .byte   $02
        nop
        nop
= ranges that are skipped, of which no byte lies in the image: -S $1000 a.bin < EA
RANGE { START $0FFF; SIZE 1; TYPE SKIP; };
RANGE { START $1001; END $FFFF; TYPE SKIP; };
--
        nop
= a skipped byte between bytes of one type: -S $1000 a.bin < 01 02 03 04 05
RANGE { START $1000; SIZE 2; TYPE BYTETABLE; };
RANGE { START $1002; SIZE 1; TYPE SKIP; };
RANGE { START $1003; SIZE 2; TYPE BYTETABLE; };
--
da65: warning: skipped bytes, the listing does not assemble to the image
        .byte   $01,$02
        .byte   $04,$05
= a line ends with its type: -S $1000 a.bin < 41 42 43 44 45 46 47 48
RANGE { START $1000; SIZE 2; TYPE BYTETABLE; };
RANGE { START $1002; SIZE 2; TYPE TEXTTABLE; };
RANGE { START $1004; SIZE 2; TYPE WORDTABLE; };
RANGE { START $1006; SIZE 2; TYPE DBYTETABLE; };
--
        .byte   $41,$42
        .byte   "CD"
        .word   $4645
        .dbyt   $4748
= a table of addresses that are names, and a leftover byte: -S $1000 a.bin < 00 10 00 20 01
RANGE { START $1000; SIZE 5; TYPE ADDRTABLE; };
--
L2000           := $2000

L1000:  .addr   L1000
        .addr   L2000
        .byte   $01
= names outside the image have a constant line each, used or not, in address order: -S $1000 a.bin < 60
LABEL { ADDR $FFD2; NAME "chrout"; };
LABEL { ADDR 1; NAME "port"; };
LABEL { ADDR $80; NAME "area"; SIZE 9; };
--
port            := $0001
area            := $0080
chrout          := $FFD2

        rts
= four names in one double word, by offset: -S $1000 --hexoffs a.bin < AD 0C 10 AD 0D 10 AD 0E 10 AD 0F 10 01 02 03 04
RANGE { START $100C; END $100F; TYPE DWORDTABLE; };
--
        lda     L100C
        lda     L100C+$01
        lda     L100C+$02
        lda     L100C+$03
L100C:  .dword  $04030201
= names at the bytes of one double word cut the table: -S $1000 a.bin < 01 02 03 04 05 06 07 08
RANGE { START $1000; SIZE 8; TYPE DWORDTABLE; };
LABEL { ADDR $1000; NAME "n0"; };
LABEL { ADDR $1001; NAME "n1"; };
LABEL { ADDR $1002; NAME "n2"; };
LABEL { ADDR $1003; NAME "n3"; };
--
n0:     .byte   $01
n1:     .byte   $02
n2:     .byte   $03
n3:     .dword  $07060504
        .byte   $08
= a name that covers a double word cuts the table before it alone: -S $1000 a.bin < AD 0A 10 01 02 03 04 05 06 07 08
RANGE { START $1003; SIZE 8; TYPE DWORDTABLE; };
LABEL { ADDR $1003; NAME "two"; SIZE 8; };
--
        lda     two+7
two:    .dword  $04030201,$08070605
= a line ends before a named double word: -S $1000 a.bin < AD 07 10 01 00 00 00 02 00 00 00 03 00 00 00 04 00 00 00
RANGE { START $1003; SIZE 16; TYPE DWORDTABLE; };
--
        lda     L1007
        .dword  $00000001
L1007:  .dword  $00000002,$00000003
        .dword  $00000004
= the name of a leftover byte: -S $1000 a.bin < AD 09 10 01 02 03 04 05 06 07
RANGE { START $1003; SIZE 7; TYPE DWORDTABLE; };
--
        lda     L1009
        .dword  $04030201
        .byte   $05
        .byte   $06
L1009:  .byte   $07
= neighbouring ranges are one table, and words after them another: -S $1000 a.bin < 01 02 03 04 05 06 07 08
RANGE { START $1000; SIZE 2; TYPE DWORDTABLE; };
RANGE { START $1002; SIZE 4; TYPE DWORDTABLE; };
RANGE { START $1006; SIZE 2; TYPE WORDTABLE; };
--
        .dword  $04030201
        .byte   $05
        .byte   $06
        .word   $0807
= a segment border cuts the table: -S $1000 a.bin < 01 02 03 04 05 06 07 08
RANGE { START $1000; SIZE 8; TYPE DWORDTABLE; };
SEGMENT { START $1005; END $1007; NAME "DATA"; };
--
        .dword  $04030201
        .byte   $05
        .segment "DATA"
        .byte   $06
        .byte   $07
        .byte   $08
= a branch back out of the address space: -S $0000 a.bin < D0 80 20 EA
--
        .byte   $D0,$80
        .byte   $20
        nop
= a table with its own inner address: -S $1000 a.bin < 12 00 03 10
RANGE { START $1000; END $1003; TYPE ADDRTABLE; };
--
L0012           := $0012

        .addr   L0012
L1002:  .addr   L1002+1
= names that nothing uses, one in skipped bytes: -S $0080 a.bin < EA 00 00 EA
RANGE { START $81; END $82; TYPE SKIP; };
LABEL { ADDR $10; NAME "unused"; };
LABEL { ADDR $81; NAME "skipped"; };
--
da65: warning: skipped bytes, the listing does not assemble to the image
unused          := $0010
skipped         := $0081

        nop
        nop
= the bytes of a line are counted again from a name: -S $2000 a.bin < 00 01 02 03 04 05 06 07 08 09
RANGE { START $2000; END $2009; TYPE BYTETABLE; };
LABEL { ADDR $2001; NAME "name"; };
--
        .byte   $00
name:   .byte   $01,$02,$03,$04,$05,$06,$07,$08
        .byte   $09
= eight bytes and one more: -S $1000 a.bin < 00 00 00 00 00 00 00 00 01
RANGE { START $1000; END $1008; TYPE BYTETABLE; };
--
        .byte   $00,$00,$00,$00,$00,$00,$00,$00
        .byte   $01
= four words, one more, and a byte: -S $1000 a.bin < 01 02 03 04 05 06 07 08 09 0A 0B
RANGE { START $1000; END $100A; TYPE WORDTABLE; };
--
        .word   $0201,$0403,$0605,$0807
        .word   $0A09
        .byte   $0B
= the same with the high bytes first: -S $1000 a.bin < 01 02 03 04 05 06 07 08 09 0A 0B
RANGE { START $1000; END $100A; TYPE DBYTETABLE; };
--
        .dbyt   $0102,$0304,$0506,$0708
        .dbyt   $090A
        .byte   $0B
= two double words, one more, and a byte: -S $1000 a.bin < 01 02 03 04 05 06 07 08 09 0A 0B 0C 0D
RANGE { START $1000; END $100C; TYPE DWORDTABLE; };
--
        .dword  $04030201,$08070605
        .dword  $0C0B0A09
        .byte   $0D
= sixteen characters and one more: -S $1000 a.bin < 41 42 43 44 45 46 47 48 49 4A 4B 4C 4D 4E 4F 50 51
RANGE { START $1000; END $1010; TYPE TEXTTABLE; };
--
        .byte   "ABCDEFGHIJKLMNOP"
        .byte   "Q"
"#;

#[test]
fn lines_and_warnings(rt: HostRuntime) {
    show(&rt, ROWS);
}
