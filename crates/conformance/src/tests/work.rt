// How often a run reads and writes.
use crate::tests::asserts::assert_equal_at;
use crate::tests::devices::{Counted, Tape};
use crate::tests::memory::ROWS;
use crate::tests::runs::{Given, NAMED};
use crate::tests::worked::{Row, rows_of};
use std::alloc::AllocGlobal;
use std::process::Abort;

/// The most that one read asks for, and more than any write is handed.
const CHUNK: usize = 4_096;

/// How many calls it takes to move this many bytes, so many at once.
fn calls(count: usize, at_once: usize) -> usize {
    count.div_ceil(at_once.clamp(1, CHUNK))
}

/// The messages and the listing of the text of a row.
fn written(text: &str) -> (&str, &str) {
    let (_, written) = text.split_once("\n").unwrap_or(("", text));
    match written.find("; da65 listing\n") {
        Some(at) => written.split_at(at),
        None => (written, ""),
    }
}

/// How many writes a listing takes: each line is a write, or as many as it takes to move it.
fn writes_of(listing: &str, at_once: usize) -> usize {
    let mut writes = 0usize;
    for line in listing.lines() {
        writes = writes.saturating_add(calls(line.len().saturating_add(1), at_once));
    }
    writes
}

/// A run over a row reads its input up to the first empty read, or not at all if it is refused before, and
/// writes each line and the messages once.
fn assert_calls(rt: &(impl AllocGlobal + Abort), row: &Row<'_>, at_once: usize) {
    let mut input = Tape::new(&row.input, at_once);
    let mut listing = Counted::new(at_once);
    let mut messages = Counted::new(at_once);
    let given = row.given();
    let _ = given.run_on(rt, rt.alloc(), &mut input, &mut listing, &mut messages);
    let text = row.text(rt);
    let (want_messages, want_listing) = written(&text);
    let reads = if want_listing.is_empty() {
        0
    } else {
        calls(row.input.len(), at_once).saturating_add(1)
    };
    let found = [
        input.reads(),
        listing.bytes,
        listing.writes,
        messages.bytes,
        messages.writes,
    ];
    let want = [
        reads,
        want_listing.len(),
        writes_of(want_listing, at_once),
        want_messages.len(),
        calls(want_messages.len(), at_once),
    ];
    assert_equal_at(rt, &found, &want, &row.name);
}

#[test]
fn reads_and_writes(rt: HostRuntime) {
    for row in &rows_of(&rt, ROWS) {
        for at_once in [1, 3, CHUNK] {
            assert_calls(&rt, row, at_once);
        }
    }
}

/// Settings, how many bytes the input has, how many it gives at each read, and how many reads there
/// are: up to the first that is empty, or until there is nothing more to ask for. What comes before the
/// image is passed over by reads of its own.
const READS: &[(&str, usize, usize, usize)] = &[
    ("", 0, CHUNK, 1),
    ("", 3, CHUNK, 2),
    ("", 3, 2, 3),
    ("", 3, 1, 4),
    ("", 4_096, CHUNK, 2),
    ("", 4_097, CHUNK, 3),
    ("", 65_536, CHUNK, 17),
    ("", 65_537, CHUNK, 17),
    ("", 70_000, CHUNK, 17),
    ("GLOBAL { INPUTSIZE 3; };", 3, CHUNK, 1),
    ("GLOBAL { INPUTSIZE 3; };", 5, CHUNK, 1),
    ("GLOBAL { INPUTSIZE 3; };", 3, 1, 3),
    ("GLOBAL { INPUTSIZE 3; };", 2, CHUNK, 2),
    ("GLOBAL { INPUTOFFS 1; };", 3, CHUNK, 3),
    ("GLOBAL { INPUTOFFS 3; };", 3, CHUNK, 2),
    ("GLOBAL { INPUTOFFS 4; };", 3, CHUNK, 2),
    ("GLOBAL { INPUTOFFS 4097; INPUTSIZE 2; };", 5_000, CHUNK, 3),
];

#[test]
fn reads_of_each_size(rt: HostRuntime) {
    for (info, count, at_once, reads) in READS {
        let input = vec![in rt.alloc(); 0u8; *count].expect(&rt, "vec");
        let given = Given {
            words: NAMED,
            info: info.as_bytes(),
            files: &[],
            input: &input,
        };
        let mut tape = Tape::new(&input, *at_once);
        let listing = Counted::new(CHUNK);
        let _ = given.run_on(&rt, rt.alloc(), &mut tape, listing, Counted::new(CHUNK));
        assert_equal_at(&rt, &tape.reads(), reads, info);
    }
}
