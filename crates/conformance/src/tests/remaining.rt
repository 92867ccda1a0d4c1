// The lines of a listing one by one, and those that are left written together.
ghost use Rattle.std.specs.Prelude.{◌≡◌};

use crate::tests::asserts::{assert_equal_at, assert_that};
use crate::tests::command_lines::options_on;
use crate::tests::devices::{Fault, Short};
use crate::tests::runs::AT_1000;
use da65::{DeviceFault, Lines, Told, write_lines};
use info65::{Info, read_info};
use map65::{Image, Map, read_image};
use std::alloc::AllocGlobal;
use std::io::ErrorKind;
use std::process::Abort;
use stmt65::Line;

/// Lines of every kind.
const INFO: &[u8] =
    b"GLOBAL { COMMENTS 1; NEWLINEAFTERRTS on; }; LABEL { ADDR $FFD2; NAME \"out\"; COMMENT \"a call\"; };\n\
    LABEL { ADDR $1002; NAME \"high\"; }; LABEL { ADDR $1003; NAME \"longname\"; COMMENT \"the end\"; };\n\
    RANGE { START $1004; SIZE 2; TYPE WORDTABLE; }; SEGMENT { START $1004; END $1005; NAME \"DATA\"; };";

const IMAGE: &[u8] = &[0x20, 0xD2, 0xFF, 0x60, 0x34, 0x12];

const RULE: &str =
    "; ----------------------------------------------------------------------------\n";

const LINES: &[&str] = &[
    "; da65 listing\n",
    "\n",
    "        .setcpu \"6502\"\n",
    "\n",
    "; a call\n",
    "out             := $FFD2\n",
    "\n",
    RULE,
    "high            := * + 2\n",
    "        jsr     out\n",
    "; the end\n",
    "longname:\n",
    "        rts\n",
    "\n",
    RULE,
    "        .segment \"DATA\"\n",
    "        .word   $1234\n",
];

/// The lines from this one on, as one text.
fn text_from(rt: &(impl AllocGlobal + Abort), from: usize) -> String {
    let mut text = String::new(rt.alloc());
    for line in LINES.iter().skip(from) {
        text.push_str(line).expect(rt, "push_str");
    }
    text
}

/// The lines that are left once this many were taken off.
fn lines_from<'a>(
    rt: &impl Abort,
    info: &'a Info,
    image: &'a Image,
    map: &'a Map<'a>,
    taken: usize,
) -> Lines<'a>
    requires { map.now ≡ record { info = info.now; image = image.now } }
{
    let mut lines = Lines::new(info, image, map);
    let mut line = Line::new();
    for want in LINES.iter().take(taken) {
        assert_that(rt, lines.next_line(&mut line));
        assert_equal_at(rt, &line.as_slice(), &want.as_bytes(), want);
    }
    lines
}

/// These lines are written as this text.
fn assert_written(rt: &(impl AllocGlobal + Abort), lines: Lines<'_>, want: &str) {
    let mut listing = Vec::new(rt.alloc());
    let written = write_lines(lines, &mut Told::new(&mut listing));
    assert_equal_at(rt, &written, &Ok(()), &want);
    assert_equal_at(rt, &listing.as_slice(), &want.as_bytes(), &want);
}

/// A writer that fails once after half of this text gets no more of it.
fn assert_cut(rt: &(impl AllocGlobal + Abort), lines: Lines<'_>, want: &str) {
    let room = want.len() / 2;
    let mut out = Short::new(rt.alloc(), room, Fault::Fails(ErrorKind::Other));
    let written = write_lines(lines, &mut Told::new(&mut out));
    assert_equal_at(rt, &written, &Err(DeviceFault), &want);
    assert_equal_at(rt, &out.bytes.as_slice(), &&want.as_bytes()[..room], &want);
    assert_equal_at(rt, &out.later(), &0, &want);
}

/// No line is left, and the buffer is empty then.
fn assert_ended(rt: &impl Abort, mut lines: Lines<'_>) {
    let mut line = Line::new();
    for _ in 0..2 {
        assert_that(rt, !lines.next_line(&mut line));
        assert_that(rt, line.is_empty());
    }
}

#[test]
fn lines_that_are_left(rt: HostRuntime) {
    let options = options_on(&rt, AT_1000).expect(&rt, "options_on");
    let info = read_info(rt.alloc(), &options, INFO).expect(&rt, "read_info");
    let image = read_image(rt.alloc(), &info, &mut Told::new(IMAGE)).expect(&rt, "read_image");
    let map = Map::build(rt.alloc(), &info, &image).expect(&rt, "build");
    for taken in 0..=LINES.len() {
        let want = text_from(&rt, taken);
        let left = lines_from(&rt, &info, &image, &map, taken);
        assert_written(&rt, left, &want);
        let left = lines_from(&rt, &info, &image, &map, taken);
        if taken < LINES.len() {
            assert_cut(&rt, left, &want);
        } else {
            assert_ended(&rt, left);
        }
    }
}
