// Runs with options and an information file. `tests/rows/da65.txt` has further refusals.
use crate::tests::worked::show;

const ROWS: &str = r#"
= groups and attributes in any case: a.bin < 00 A9 01 60 @ 0008 01 60
GLOBAL { INPUTOFFS 2; CPU "6502"; PAGELENGTH 0; }
global { StartAddr 8; }
--
        ora     ($60,x)
= names of files:  < 00 A9 01 60 @ FFFE A9 01
GLOBAL { INPUTNAME "a.bin"; OUTPUTNAME "b.s"; INPUTOFFS 1; INPUTSIZE 2; } // and no more
--
        lda     #$01
= the command line wins, and help plays no part: -h -V -S $2000 a.bin < 00 A9 01 60
GLOBAL { STARTADDR $1000; }; RANGE { START $2000; SIZE 4; TYPE DBYTETABLE; };
--
        .dbyt   $00A9,$0160
= the information file is refused before the input name is missed:  < A9 01 60
GLOBAL {








@
-- refused info:10: bad byte
= the input name is missed before the input is looked at:  < A9 01 60
GLOBAL { INPUTSIZE 9; };
-- refused no input file
= no warning without a listing: -S $1000 a.bin <
RANGE { START 0; END $FFFF; TYPE SKIP; };
-- refused input is empty
"#;

#[test]
fn runs_with_settings(rt: HostRuntime) {
    show(&rt, ROWS);
}
