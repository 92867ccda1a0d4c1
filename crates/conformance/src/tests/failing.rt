// Runs over devices that fail.
use crate::tests::asserts::{assert_equal, assert_equal_at, assert_that};
use crate::tests::devices::{FAULTS, Fault, Short, Tape};
use crate::tests::runs::{AT_1000, Given, NAMED, SKIPPED, THREE, THREE_LISTING};
use da65::{RunFault, Status};
use std::alloc::AllocGlobal;
use std::io::{ErrorKind, Read};
use std::process::Abort;

/// A reader that fails is not asked again, although it would go on.
#[test]
fn a_reader_that_fails(rt: HostRuntime) {
    for kind in [ErrorKind::Other, ErrorKind::Interrupted] {
        for given in 0..4 {
            let mut listing = Vec::new(rt.alloc());
            let mut messages = Vec::new(rt.alloc());
            let mut reader = Tape::failing(THREE, given, kind);
            let three = Given::named(THREE);
            let result = three.run_on(&rt, rt.alloc(), &mut reader, &mut listing, &mut messages);
            assert_equal_at(&rt, &result, &Ok(Status::Refused), &given);
            assert_equal(&rt, &reader.given(), &given);
            assert_equal_at(&rt, &reader.later(), &0, &given);
            assert_that(&rt, listing.is_empty());
            let message = b"da65: cannot read the input\n".as_slice();
            assert_equal(&rt, &messages.as_slice(), &message);
        }
    }
}

/// The three bytes are listed without a message, which would fail.
fn assert_listed<R: Read + Drop>(
    rt: &(impl AllocGlobal + Abort),
    info: &[u8],
    reader: R,
    fault: Fault,
) {
    let given = Given {
        words: NAMED,
        info,
        files: &[],
        input: &[],
    };
    let mut listing = Vec::new(rt.alloc());
    let messages = Short::new(rt.alloc(), 0, fault);
    let result = given.run_on(rt, rt.alloc(), reader, &mut listing, messages);
    assert_equal(rt, &result, &Ok(Status::Done));
    assert_equal(rt, &listing.as_slice(), &THREE_LISTING);
}

/// A reader that fails after the bytes that are asked of it is not asked again. A run without a message
/// writes none, not even one without a byte.
#[test]
fn no_call_too_many(rt: HostRuntime) {
    for fault in FAULTS {
        let size = b"GLOBAL { INPUTSIZE 3; };";
        assert_listed(&rt, size, Tape::failing(THREE, 3, ErrorKind::Other), fault);
        assert_listed(&rt, b"", Tape::new(THREE, 1), fault);
    }
}

/// The writer has got its room of these bytes, and nothing after it met its fault.
fn assert_cut(rt: &impl Abort, out: &Short, whole: &[u8], room: usize) {
    let (front, _) = whole.split_at(room.min(whole.len()));
    assert_equal_at(rt, &out.bytes.as_slice(), &front, &room);
    assert_equal_at(rt, &out.later(), &0, &room);
}

#[test]
fn a_writer_that_fails_or_takes_none(rt: HostRuntime) {
    for fault in FAULTS {
        for room in 0..THREE_LISTING.len() {
            let mut out = Short::new(rt.alloc(), room, fault);
            let mut messages = Vec::new(rt.alloc());
            let three = Given::named(THREE);
            let result = three.run_on(&rt, rt.alloc(), THREE, &mut out, &mut messages);
            assert_equal_at(&rt, &result, &Err(RunFault::Write), &room);
            assert_cut(&rt, &out, THREE_LISTING, room);
            assert_that(&rt, messages.is_empty());
        }
    }
}

/// A refusal writes nothing on the output, not even no byte: its writer would fail.
#[test]
fn messages_that_fail_or_take_none(rt: HostRuntime) {
    let message = b"da65: input is empty\n";
    for fault in FAULTS {
        for room in 0..message.len() {
            let mut messages = Short::new(rt.alloc(), room, fault);
            let out = Short::new(rt.alloc(), 0, fault);
            let empty = Given::named(&[]);
            let result = empty.run_on(&rt, rt.alloc(), [].as_slice(), out, &mut messages);
            assert_equal_at(&rt, &result, &Err(RunFault::Messages), &room);
            assert_cut(&rt, &messages, message, room);
        }
    }
}

/// Two of these bytes are skipped.
const SKIPPING: Given<'static> = Given {
    words: AT_1000,
    info: b"RANGE { START $1001; END $1002; TYPE SKIP; };",
    files: &[],
    input: &[0xEA, 0x20, 0x30, 0xEA],
};

const SKIPPED_LISTING: &[u8] =
    b"; da65 listing\n\n        .setcpu \"6502\"\n\n        nop\n        nop\n";

/// The listing is whole before the warning is written.
#[test]
fn a_warning_that_fails_or_takes_none(rt: HostRuntime) {
    for fault in FAULTS {
        for room in 0..SKIPPED.len() {
            let mut listing = Vec::new(rt.alloc());
            let mut messages = Short::new(rt.alloc(), room, fault);
            let input = SKIPPING.input;
            let result = SKIPPING.run_on(&rt, rt.alloc(), input, &mut listing, &mut messages);
            assert_equal_at(&rt, &result, &Err(RunFault::Messages), &room);
            assert_cut(&rt, &messages, SKIPPED.as_bytes(), room);
            assert_equal(&rt, &listing.as_slice(), &SKIPPED_LISTING);
        }
    }
}

/// If the listing fails, no warning is written.
#[test]
fn a_listing_that_fails_has_no_warning(rt: HostRuntime) {
    for room in 0..SKIPPED_LISTING.len() {
        let mut out = Short::new(rt.alloc(), room, Fault::MovesNone);
        let mut messages = Vec::new(rt.alloc());
        let input = SKIPPING.input;
        let result = SKIPPING.run_on(&rt, rt.alloc(), input, &mut out, &mut messages);
        assert_equal_at(&rt, &result, &Err(RunFault::Write), &room);
        assert_cut(&rt, &out, SKIPPED_LISTING, room);
        assert_that(&rt, messages.is_empty());
    }
}
