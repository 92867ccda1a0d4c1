// Listings for each CPU, and their assembly.
use crate::tests::worked::show;

const ROWS: &str = r#"
= forms of the 65SC02: -S $1000 --cpu 65sc02 a.bin < 7C 00 20 B2 10 1A 89 01 80 FE
-- 65SC02
        jmp     ($2000,x)
        lda     ($10)
        inc     a
        bit     #$01
L1008:  bra     L1008
= the operand of a jump through a table is a target in the image alone: -S $1000 --cpu 65SC02 a.bin < 7C 03 10 60
-- 65SC02
        jmp     (L1003,x)
L1003:  rts
= forced absolute: -S $1000 --cpu 65SC02 a.bin < 9C 12 00 3C 12 00 B9 12 00
-- 65SC02
        stz     a:$0012
        bit     a:$0012,x
        lda     $0012,y
= both operands by name, and the CPU of the command line wins: -S $1000 --cpu 65C02 a.bin < 1F 13 00 EA
GLOBAL { CPU "6502"; };
LABEL { ADDR $10; NAME "bits"; SIZE 4; };
LABEL { ADDR $1003; NAME "next"; };
-- 65C02
bits            := $0010

        bbr1    bits+3,next
next:   nop
"#;

#[test]
fn lines_by_cpu(rt: HostRuntime) {
    show(&rt, ROWS);
}
