// The texts of the faults.
use crate::tests::asserts::assert_equal;
use da65::{RunFault, UsageFault};
use info65::{InfoFault, InfoFaultKind};
use map65::{DeviceFault, ImageFault, TakeFault};
use std::alloc::AllocGlobal;
use std::fmt::Display;
use std::process::Abort;
use stmt65::{AsmFault, AsmFaultKind};

const USAGE_FAULTS: &[(UsageFault, &str)] = &[
    (UsageFault::Words, "bad arguments"),
    (UsageFault::BadNumber, "bad number"),
    (UsageFault::OutOfRange, "argument out of range"),
    (UsageFault::Memory, "out of memory"),
];

const RUN_FAULTS: &[(RunFault, &str)] = &[
    (RunFault::Memory, "out of memory"),
    (RunFault::Write, "cannot write the listing"),
    (RunFault::Messages, "cannot write the messages"),
];

const IMAGE_FAULTS: &[(ImageFault, &str)] = &[
    (ImageFault::Empty, "input is empty"),
    (ImageFault::TooLarge, "input is too large"),
    (ImageFault::Short, "input is too short"),
    (ImageFault::Read, "cannot read the input"),
    (ImageFault::Memory, "out of memory"),
];

const TAKE_FAULTS: &[(TakeFault, &str)] = &[
    (TakeFault::Read, "a read failed"),
    (TakeFault::Memory, "out of memory"),
];

/// In the order of their numbers, from 1 on.
const KINDS: &[(AsmFaultKind, &str)] = &[
    (AsmFaultKind::Syntax, "7: syntax error"),
    (AsmFaultKind::UnknownCpu, "7: unknown CPU"),
    (AsmFaultKind::NoSuchForm, "7: no such form"),
    (AsmFaultKind::Undefined, "7: undefined name"),
    (AsmFaultKind::DefinedTwice, "7: name defined twice"),
    (AsmFaultKind::OutOfRange, "7: value out of range"),
    (
        AsmFaultKind::PastEnd,
        "7: past the end of the address space",
    ),
    (AsmFaultKind::Memory, "7: out of memory"),
    (AsmFaultKind::PastStart, "7: segment past its start"),
];

fn assert_text<F: Display>(rt: &(impl AllocGlobal + Abort), fault: &F, text: &str) {
    let found = format!(in rt.alloc(); "{fault}").expect(rt, "format");
    assert_equal(rt, &found.as_str(), &text);
}

fn assert_texts<F: Display>(rt: &(impl AllocGlobal + Abort), faults: &[(F, &str)]) {
    for (fault, text) in faults {
        assert_text(rt, fault, text);
    }
}

#[test]
fn texts_of_faults(rt: HostRuntime) {
    assert_texts(&rt, USAGE_FAULTS);
    assert_texts(&rt, RUN_FAULTS);
    assert_texts(&rt, IMAGE_FAULTS);
    assert_texts(&rt, TAKE_FAULTS);
    assert_text(&rt, &DeviceFault, "a read or a write failed");
    let fault = InfoFault {
        line: 3,
        kind: InfoFaultKind::TooLarge,
    };
    assert_text(&rt, &fault, "3: too large");
    for (place, (kind, text)) in KINDS.iter().enumerate() {
        let fault = AsmFault {
            line: 7,
            kind: *kind,
        };
        assert_text(&rt, &fault, text);
        assert_equal(&rt, &(*kind as usize), &place.saturating_add(1));
    }
}
