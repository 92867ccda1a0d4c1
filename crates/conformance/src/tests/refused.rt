// Calls that allocate, by themselves, each allocation refused in turn.
use crate::heap::Refusing;
use crate::tests::asserts::{assert_equal, assert_equal_at, assert_that, assert_that_at};
use crate::tests::refusals::{MANY, Refusals};
use da65::{Told, needs};
use info65::{InfoFault, InfoFaultKind, Options, read_include, read_info};
use map65::{ImageFault, Map, read_image};
use std::alloc::Global;
use stmt65::{AsmFault, AsmFaultKind, Language, assemble, read_line};

#[test]
fn information_file(rt: HostRuntime) {
    let text =
        b"GLOBAL { INPUTNAME \"a.bin\"; CPU \"6502\"; }; GLOBAL { }; GLOBAL { OUTPUTNAME \"b.s\"; };";
    let options = Options::<Global>::none();
    let mut refusals = Refusals::none();
    for granted in 0..MANY {
        let heap = Refusing::after(rt.alloc(), granted);
        let read = read_info(&heap, &options, text);
        refusals.count(&rt, &heap, granted, read.is_err());
        match read {
            Ok(info) => {
                assert_equal(&rt, &info.settings().input.as_deref(), &Some("a.bin"));
                assert_equal(&rt, &info.settings().output.as_deref(), &Some("b.s"));
            }
            Err(fault) => {
                let memory = InfoFault {
                    line: 0,
                    kind: InfoFaultKind::Memory,
                };
                assert_equal_at(&rt, &fault, &memory, &granted);
            }
        }
    }
    refusals.at_least(&rt, 1, MANY);
}

/// An allocation that fails leaves the information as before, and the file can be read again.
#[test]
fn include_file(rt: HostRuntime) {
    let text = b"LABEL { ADDR 3; NAME \"go\"; }; ASMINC { FILE \"k.inc\"; };";
    let lines = b"K = 1\nJ = 2";
    let options = Options::<Global>::none();
    let mut refusals = Refusals::none();
    for granted in 0..MANY {
        let ample = Refusing::after(rt.alloc(), u64::MAX);
        let heap = Refusing::after(rt.alloc(), granted);
        let mut info = read_info(&ample, &options, text).expect(&rt, "read_info");
        assert_that_at(&rt, info.includes().len() == 1, &granted);
        let read = read_include(&heap, &mut info, 0, lines);
        refusals.count(&rt, &heap, granted, read.is_err());
        if let Err(fault) = read {
            let memory = InfoFault {
                line: 0,
                kind: InfoFaultKind::Memory,
            };
            assert_equal_at(&rt, &fault, &memory, &granted);
            assert_that_at(&rt, info.given_count() == 1, &granted);
            assert_equal_at(&rt, &info.given(0).text, &b"go".as_slice(), &granted);
            assert_that_at(&rt, info.includes().len() == 1, &granted);
            read_include(&ample, &mut info, 0, lines).expect(&rt, "read_include");
        }
        assert_that_at(&rt, info.given_count() == 3, &granted);
        assert_equal_at(&rt, &info.given(0).text, &b"K".as_slice(), &granted);
        assert_equal_at(&rt, &info.given(1).text, &b"J".as_slice(), &granted);
        assert_equal_at(&rt, &info.given(2).text, &b"go".as_slice(), &granted);
    }
    refusals.at_least(&rt, 5, MANY);
}

#[test]
fn assembler(rt: HostRuntime) {
    let text = b"v := $12\nfoo: lda v\n.byte 1,\"A\"\n.word foo,foo+1\nbar: jmp foo\n";
    let bytes = [0xA5, 0x12, 1, 65, 0, 0x10, 1, 0x10, 0x4C, 0, 0x10];
    let mut refusals = Refusals::none();
    for granted in 0..MANY {
        let heap = Refusing::after(rt.alloc(), granted);
        let assembled = assemble(&heap, text, 0x1000);
        refusals.count(&rt, &heap, granted, assembled.is_err());
        match assembled {
            Ok(found) => assert_equal_at(&rt, &found.as_slice(), &bytes.as_slice(), &granted),
            Err(fault) => {
                let memory = AsmFault {
                    line: 0,
                    kind: AsmFaultKind::Memory,
                };
                assert_equal_at(&rt, &fault, &memory, &granted);
            }
        }
    }
    refusals.at_least(&rt, 1, MANY);
}

#[test]
fn line_of_source(rt: HostRuntime) {
    let mut refusals = Refusals::none();
    for granted in 0..MANY {
        let heap = Refusing::after(rt.alloc(), granted);
        let read = read_line(
            &heap,
            Language::Listing,
            b"foo: .byte 1,\"A\",2,3,4,5,6,7,8,9",
        );
        refusals.count(&rt, &heap, granted, read.is_err());
        if let Ok(found) = read {
            assert_that_at(&rt, found.is_some(), &granted);
        }
    }
    refusals.at_least(&rt, 1, MANY);
}

const NEEDED: &[u8] =
    b"GLOBAL { INPUTNAME \"a.bin\"; OUTPUTNAME \"b.s\"; }; ASMINC { FILE \"k.inc\"; }; ASMINC { FILE \"k.inc\"; };";

#[test]
fn names_of_needed_files(rt: HostRuntime) {
    let mut refusals = Refusals::none();
    for granted in 0..MANY {
        let heap = Refusing::after(rt.alloc(), granted);
        let found = needs(&heap, &Options::<Global>::none(), NEEDED);
        refusals.count(&rt, &heap, granted, found.is_err());
        if let Ok(names) = found {
            assert_equal_at(&rt, &names.input.as_deref(), &Some("a.bin"), &granted);
            assert_equal_at(&rt, &names.output.as_deref(), &Some("b.s"), &granted);
            assert_equal_at(&rt, &names.includes.len(), &2, &granted);
        }
    }
    refusals.at_least(&rt, 4, MANY);
}

/// An information file with ranges, and an image at the start that it gives.
const RANGES: &[u8] = b"GLOBAL { STARTADDR $1000; INPUTNAME \"a.bin\"; }\n\
    RANGE { START $1001; SIZE 3; TYPE WORDTABLE; }\n\
    RANGE { START $1004; SIZE 1; TYPE SKIP; }\n\
    RANGE { START $1005; END $1006; TYPE TEXTTABLE; }\n";

const IMAGE: &[u8] = &[0xEA, 1, 2, 3, 0xFF, 0x41, 0x42];

#[test]
fn image(rt: HostRuntime) {
    let options = Options::<Global>::none();
    let mut refusals = Refusals::none();
    for granted in 0..MANY {
        let ample = Refusing::after(rt.alloc(), u64::MAX);
        let heap = Refusing::after(rt.alloc(), granted);
        let info = read_info(&ample, &options, RANGES).expect(&rt, "read_info");
        let read = read_image(&heap, &info, &mut Told::new(IMAGE));
        refusals.count(&rt, &heap, granted, read.is_err());
        match read {
            Ok(image) => {
                assert_equal_at(&rt, &image.start(), &0x1000, &granted);
                assert_equal_at(&rt, &image.bytes(), &IMAGE, &granted);
            }
            Err(fault) => assert_equal_at(&rt, &fault, &ImageFault::Memory, &granted),
        }
    }
    refusals.at_least(&rt, 1, MANY);
}

#[test]
fn map(rt: HostRuntime) {
    let options = Options::<Global>::none();
    let ample = Refusing::after(rt.alloc(), u64::MAX);
    let heap = Refusing::after(rt.alloc(), 0);
    let info = read_info(&ample, &options, RANGES).expect(&rt, "read_info");
    let image = read_image(&ample, &info, &mut Told::new(IMAGE)).expect(&rt, "read_image");
    assert_that(&rt, Map::build(&heap, &info, &image).is_err());
    assert_that(&rt, Map::build(&heap, &info, &image).is_ok());
}
