//! The options that several programs have.

use crate::choice::Choice;

pub const INFO: Choice<'static> = Choice {
    id: "info",
    short: Some(b'i'),
    long: Some("info"),
    value: Some("name"),
    purpose: "information file",
};

pub const OUTPUT: Choice<'static> = Choice {
    id: "output",
    short: Some(b'o'),
    long: None,
    value: Some("name"),
    purpose: "output file",
};

pub const START: Choice<'static> = Choice {
    id: "start",
    short: Some(b'S'),
    long: Some("start-addr"),
    value: Some("addr"),
    purpose: "start address",
};

pub const CPU: Choice<'static> = Choice {
    id: "cpu",
    short: None,
    long: Some("cpu"),
    value: Some("type"),
    purpose: "6502, 65SC02 or 65C02",
};

pub const FILL: Choice<'static> = Choice {
    id: "fill",
    short: None,
    long: Some("fill"),
    value: Some("byte"),
    purpose: "begin segments at their START, with this byte between",
};

pub const ENTRY: Choice<'static> = Choice {
    id: "entry",
    short: None,
    long: Some("entry"),
    value: Some("addr[,addr..]"),
    purpose: "further entries of code",
};

/// An output that is not written over.
pub const NEW_OUTPUT: Choice<'static> = Choice {
    purpose: "output file, which must not be there yet",
    ..OUTPUT
};

pub const HELP: Choice<'static> = Choice {
    id: "help",
    short: Some(b'h'),
    long: Some("help"),
    value: None,
    purpose: "this text",
};

pub const VERSION: Choice<'static> = Choice {
    id: "version",
    short: Some(b'V'),
    long: Some("version"),
    value: None,
    purpose: "version",
};
