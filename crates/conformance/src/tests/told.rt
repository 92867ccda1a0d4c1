// What is read of devices and written on them. After a failure none is used again, even if it would go on.
use crate::tests::asserts::{assert_equal, assert_equal_at};
use crate::tests::devices::{FAULTS, Short, Tape};
use crate::tests::inputs::info_of;
use map65::{DeviceFault, ImageFault, Sink, Source, TakeFault, Told, read_image, take_up_to};
use std::io::ErrorKind;

const KINDS: [ErrorKind; 3] = [
    ErrorKind::Interrupted,
    ErrorKind::WouldBlock,
    ErrorKind::Other,
];

/// Bytes on a tape, of which these settings pass over two and read two.
const BYTES: &[u8] = &[1, 2, 3, 4, 5, 6];

const TWO_AFTER_TWO: &[u8] = b"GLOBAL { INPUTOFFS 2; INPUTSIZE 2; }";

#[test]
fn a_failed_read_is_one_call(rt: HostRuntime) {
    for kind in KINDS {
        let mut tape = Tape::failing(BYTES, 0, kind);
        let mut buf = [0u8; 4];
        assert_equal(
            &rt,
            &Told::new(&mut tape).read_some(&mut buf),
            &Err(DeviceFault),
        );
        assert_equal(&rt, &tape.reads(), &1);
        assert_equal(&rt, &Told::new(&mut tape).read_some(&mut buf), &Ok(1));
    }
}

#[test]
fn a_failed_write_is_one_call(rt: HostRuntime) {
    for fault in FAULTS {
        let mut out = Short::new(rt.alloc(), 3, fault);
        assert_equal(&rt, &Told::new(&mut out).write_some(b"ab"), &Ok(2));
        assert_equal(&rt, &Told::new(&mut out).write_some(b"cd"), &Ok(1));
        assert_equal(
            &rt,
            &Told::new(&mut out).write_some(b"d"),
            &Err(DeviceFault),
        );
        assert_equal(&rt, &out.later(), &0);
        assert_equal(&rt, &Told::new(&mut out).write_some(b"d"), &Ok(1));
    }
}

#[test]
fn nothing_is_read_after_a_failed_read(rt: HostRuntime) {
    let info = info_of(&rt, TWO_AFTER_TWO);
    for kind in KINDS {
        for room in 0..4 {
            let mut tape = Tape::failing(BYTES, room, kind);
            let read = read_image(rt.alloc(), &info, &mut Told::new(&mut tape));
            assert_equal_at(&rt, &read.err(), &Some(ImageFault::Read), &room);
            assert_equal_at(&rt, &tape.later(), &0, &room);
        }
        let mut tape = Tape::failing(BYTES, 2, kind);
        let taken = take_up_to(rt.alloc(), &mut Told::new(&mut tape), 9);
        assert_equal(&rt, &taken.err(), &Some(TakeFault::Read));
        assert_equal(&rt, &tape.later(), &0);
    }
}

#[test]
fn no_call_follows_the_last_byte(rt: HostRuntime) {
    let info = info_of(&rt, TWO_AFTER_TWO);
    let mut tape = Tape::failing(BYTES, 4, ErrorKind::Other);
    let image = read_image(rt.alloc(), &info, &mut Told::new(&mut tape)).expect(&rt, "read_image");
    assert_equal(&rt, &image.bytes(), &[3, 4].as_slice());
    assert_equal(&rt, &image.start(), &0xFFFE);
    assert_equal(&rt, &tape.reads(), &4);
}

#[test]
fn nothing_is_read_after_the_end(rt: HostRuntime) {
    let info = info_of(&rt, b"GLOBAL { INPUTOFFS 2; }");
    for left in 0..4 {
        let (bytes, _) = BYTES.split_at(left);
        let mut tape = Tape::new(bytes, 1);
        let read = read_image(rt.alloc(), &info, &mut Told::new(&mut tape));
        assert_equal_at(&rt, &read.is_ok(), &(2 < left), &left);
        assert_equal_at(&rt, &tape.reads(), &left.saturating_add(1), &left);
    }
}

/// Settings, the start and the size of the image of 70,000 bytes, and how many of them are read.
const LARGE: &[(&str, Result<(u16, usize), ImageFault>, usize)] = &[
    ("", Err(ImageFault::TooLarge), 65_537),
    ("GLOBAL { INPUTOFFS 5; }", Err(ImageFault::TooLarge), 65_542),
    ("GLOBAL { INPUTOFFS 10000; }", Ok((0x15A0, 60_000)), 70_000),
    ("GLOBAL { INPUTSIZE $10000; }", Ok((0, 65_536)), 65_536),
    ("GLOBAL { INPUTSIZE 3; STARTADDR 0; }", Ok((0, 3)), 3),
    (
        "GLOBAL { INPUTSIZE 2; STARTADDR $FFFF; }",
        Err(ImageFault::TooLarge),
        2,
    ),
    (
        "GLOBAL { INPUTOFFS 16777216; }",
        Err(ImageFault::Empty),
        70_000,
    ),
    (
        "GLOBAL { INPUTOFFS 5000; INPUTSIZE $10000; }",
        Err(ImageFault::Short),
        70_000,
    ),
];

/// Each read gives a number of bytes that is no divisor of what is asked for.
#[test]
fn bytes_that_the_settings_ask_for(rt: HostRuntime) {
    let bytes = vec![in rt.alloc(); 7u8; 70_000].expect(&rt, "vec");
    for (text, want, given) in LARGE {
        let info = info_of(&rt, text.as_bytes());
        let mut tape = Tape::new(&bytes, 1009);
        let found = match read_image(rt.alloc(), &info, &mut Told::new(&mut tape)) {
            Ok(image) => Ok((image.start(), image.bytes().len())),
            Err(fault) => Err(fault),
        };
        assert_equal_at(&rt, &found, want, text);
        assert_equal_at(&rt, &tape.given(), given, text);
    }
}
