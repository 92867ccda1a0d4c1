//! The calls that docs/LIBRARY.md shows: the lines of a listing one by one, and what a map says of an address.

use crate::tests::asserts::assert_equal;
use crate::tests::command_lines::options_on;
use crate::tests::runs::AT_1000;
use da65::{Lines, Told};
use info65::read_info;
use map65::{Map, NameBuf, read_image};
use std::alloc::{AllocError, AllocGlobal};
use stmt65::Line;

/// The length of the longest line, with its line feed.
fn longest_line(mut lines: Lines<'_>) -> usize {
    let mut line = Line::new();
    let mut longest = 0;
    'lines: while lines.next_line(&mut line) {
        longest = longest.max(line.len());
    }
    longest
}

/// Puts what the byte of an address is, the length of the item that begins there, its segment and its name.
fn put_facts(out: &mut String, map: &Map<'_>, address: u16) -> Result<(), AllocError> {
    let role = map.role(address);
    let len = map.item_len(address);
    let segment = map.segment_at(address);
    write!(out, "{role:?} {len} {segment:?}")?;
    let mut name = NameBuf::new();
    if let Some(kind) = map.name(address, &mut name) {
        let text = name.as_slice().escape_ascii();
        write!(out, " {text}+{}", kind.offset)?;
    }
    Ok(())
}

/// A call at $1000 of an address that has a name of two bytes.
const INFO: &[u8] = b"LABEL { ADDR $FFD1; NAME \"CHROUT\"; SIZE 2; };";

const IMAGE: &[u8] = &[0x20, 0xD2, 0xFF];

#[test]
fn a_caller_of_the_library(rt: HostRuntime) {
    let options = options_on(&rt, AT_1000).expect(&rt, "options_on");
    let info = read_info(rt.alloc(), &options, INFO).expect(&rt, "read_info");
    let image = read_image(rt.alloc(), &info, &mut Told::new(IMAGE)).expect(&rt, "read_image");
    let map = Map::build(rt.alloc(), &info, &image).expect(&rt, "build");
    let longest = longest_line(Lines::new(&info, &image, &map));
    assert_equal(&rt, &longest, &"CHROUT          := $FFD1\n".len());
    let mut facts = String::new(rt.alloc());
    for address in [0x1000, 0xFFD2] {
        put_facts(&mut facts, &map, address).expect(&rt, "put_facts");
        facts.push_str("\n").expect(&rt, "push_str");
    }
    assert_equal(
        &rt,
        &facts.as_str(),
        &"Some(Code) 3 None\nNone 0 None CHROUT+1\n",
    );
}
