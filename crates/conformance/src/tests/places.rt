//! Where the parts of a line stand.

use crate::tests::asserts::{assert_equal_at, assert_that_at};
use std::alloc::{AllocError, Global};
use stmt65::{Datum, Half, Language, PlacedPart, Places, Span};

fn put(out: &mut String, before: &str, line: &str, span: Span) -> Result<(), AllocError> {
    let there = line.get(span.from..span.to).unwrap_or("?");
    write!(out, "{before}[{there}]")
}

fn put_place(
    out: &mut String,
    line: &str,
    place: Option<PlacedPart<'_>>,
) -> Result<(), AllocError> {
    match place {
        Some(place) => put(out, "", line, place.span),
        None => write!(out, "-"),
    }
}

/// What stands in a line: its name, its operation, its operands and its remark, each as it is written.
fn places_of(alloc: Global, line: &str) -> Result<String, AllocError> {
    let mut out = String::new(alloc);
    let mut places = Places::new(Language::Repair, line.as_bytes());
    let head = places.head();
    put_place(&mut out, line, head.name)?;
    put_place(&mut out, line, head.operation)?;
    for _ in 0..9 {
        let Some(operand) = places.operand() else {
            break;
        };
        let before = match operand.datum {
            Datum::Half(Half::Low, _) => " <",
            Datum::Half(Half::High, _) => " >",
            Datum::String(_) => " string ",
            _ => " ",
        };
        put(&mut out, before, line, operand.span)?;
    }
    match places.remark() {
        Some(span) => put(&mut out, " ", line, span)?,
        None => {}
    }
    Ok(out)
}

/// A line, and what stands in it.
const LINES: &str = r#"
 => --
; lda #5 => -- [; lda #5]
  far:  => [far]-
far: lda  #<far  ; x => [far][lda] <[far] [; x]
  lda #>(far + 1) => -[lda] >[far + 1]
  .byte <a1,5,"a;b", >(b1-1) ,'"',%101;"x" => -[.byte] <[a1] [5] string ["a;b"] >[b1-1] ['"'] [%101] [;"x"]
  .word far - near,$1000 , x1+2-1 => -[.word] [far - near] [$1000] [x1+2-1]
  jmp (far,x) => -[jmp] [far]
  lda (zp),y => -[lda] [zp]
l1:STA a:far-2 , Y => [l1][STA] [far-2]
  bbr0 $12, l1 => -[bbr0] [$12] [l1]
  asl a => -[asl]
v := $1234 ; = 5 => [v]- [$1234] [; = 5]
v=5 => [v]- [5]
v := * + 5 => [v]- [* + 5]
  bne *-5 ; * => -[bne] [*-5] [; *]
  .byte <*,>(* + 1) => -[.byte] <[*] >[* + 1]
  .res 3,'A' => -[.res] [3] ['A']
"#;

#[test]
fn places_in_lines(rt: HostRuntime) {
    for row in LINES.lines() {
        match row.split_once(" => ") {
            Some((line, want)) => {
                let found = places_of(rt.alloc(), line).expect(&rt, "places_of");
                assert_equal_at(&rt, &found.as_str(), &want, &line);
            }
            None => assert_that_at(&rt, row.is_empty(), &row),
        }
    }
}
