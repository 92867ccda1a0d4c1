// Listings with segments, comments and columns.
use crate::tests::worked::show;

const ROWS: &str = r#"
= two neighbours of one name are one segment, but their bytes are two runs: -S $1000 --comments 1 a.bin < EA EA
SEGMENT { START $1000; END $1000; NAME "P"; };
SEGMENT { START $1001; END $1001; NAME "P"; };
--
; ----------------------------------------------------------------------------
        .segment "P"
        nop
; ----------------------------------------------------------------------------
        nop
= names are compared with case: -S $1000 a.bin < EA EA EA
SEGMENT { START $1000; END $1000; NAME "P"; };
SEGMENT { START $1001; END $1001; NAME "Q"; };
SEGMENT { START $1002; END $1002; NAME "p"; };
--
        .segment "P"
        nop
        .segment "Q"
        nop
        .segment "p"
        nop
= the default is not entered again if no earlier group is in it: -S $1000 a.bin < EA EA
SEGMENT { START $1000; END $1000; NAME "P"; };
--
        .segment "P"
        nop
        .code
        nop
= a segment that is named CODE is not the default, but the warning takes it for that: -S $1000 a.bin < EA EA
SEGMENT { START $1001; END $1001; NAME "CODE"; };
--
da65: warning: a segment is entered again
        nop
        .segment "CODE"
        nop
= comments of a range, of names inside an instruction, of constants; an empty one: -S $1000 a.bin < 4C D2 FF
RANGE { START $1000; END $1002; TYPE CODE; NAME "op"; COMMENT "jump"; };
LABEL { ADDR $1002; NAME "high"; COMMENT "H"; };
LABEL { ADDR $1001; NAME "low"; COMMENT "L"; };
LABEL { ADDR $FFD2; NAME "chrout"; COMMENT "out"; };
LABEL { ADDR 2; NAME "bare"; COMMENT ""; };
--
bare            := $0002
; out
chrout          := $FFD2

; jump
; L
; H
low             := * + 1
high            := * + 2
op:     jmp     chrout
= empty lines after instructions, which jsr is not: -S $1000 a.bin < 20 D2 FF 4C D2 FF 60 6C 10 00
GLOBAL { NEWLINEAFTERJMP on; NEWLINEAFTERRTS on; };
LABEL { ADDR $FFD2; NAME "chrout"; };
--
chrout          := $FFD2

        jsr     chrout
        jmp     chrout

        rts

        jmp     ($0010)

= a label that does not fit before the mnemonic column: -S $1000 --label-break 120 --mnemonic-column 12 a.bin < EA EA
LABEL { ADDR $1000; NAME "elevenbytes"; };
LABEL { ADDR $1001; NAME "ten_bytes_"; };
-- whole
; da65 listing

           .setcpu "6502"

elevenbytes:
           nop
ten_bytes_: nop
= a segment whose bytes are all skipped is not entered: -S $1000 a.bin < EA EA EA
SEGMENT { START $1001; END $1001; NAME "DATA"; };
RANGE { START $1001; SIZE 1; TYPE SKIP; };
--
da65: warning: skipped bytes, the listing does not assemble to the image
        nop
        nop
= both warnings: -S $1000 a.bin < EA EA EA EA EA
SEGMENT { START $1001; END $1001; NAME "DATA"; };
RANGE { START $1001; SIZE 1; TYPE SKIP; };
SEGMENT { START $1003; END $1003; NAME "DATA"; };
--
da65: warning: skipped bytes, the listing does not assemble to the image
da65: warning: a segment is entered again
        nop
        nop
        .segment "DATA"
        nop
        .code
        nop
= an empty line after rts alone: -S $1000 a.bin < 40 4C 01 10 60
GLOBAL { NEWLINEAFTERRTS on; };
--
        rti
L1001:  jmp     L1001
        rts

= an empty line after jmp alone: -S $1000 a.bin < 40 4C 01 10 60
GLOBAL { NEWLINEAFTERJMP on; };
--
        rti
L1001:  jmp     L1001

        rts
"#;

#[test]
fn worked_listings(rt: HostRuntime) {
    show(&rt, ROWS);
}
