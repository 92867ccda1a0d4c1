//! What an information file can be refused for.

ghost use Rattle.std.specs.Prelude.{◌≡◌};
ghost use Rattle.info65.specs.Words.{fault, fault_text};

use std::alloc::{AllocError, AllocFailed};
use std::fmt;
use thiserror::Error;

/// Why an information file is refused. The texts are those of da65's messages.
#[derive(Clone, Copy, Debug, PartialEq, Eq, Error)]
pub enum InfoFaultKind {
    /// A byte that begins no token, or that a string or a character constant can't hold.
    BadByte,
    /// A string that meets the end of its line or of the file.
    OpenString,
    /// A number without a digit, above 2^32 - 1, or with a letter or `_` directly after it.
    BadNumber,
    /// Another token, or the end of the file, where something else had to stand.
    Expected,
    /// An unknown group name.
    UnknownGroup,
    /// An attribute that the group does not have.
    UnknownAttribute,
    /// An attribute that the group has been given before.
    GivenTwice,
    /// A closing brace before everything that the group needs was given.
    Missing,
    /// A value outside the limits of its attribute.
    OutOfRange,
    /// A range that shares an address with an earlier one.
    RangesOverlap,
    /// A segment that shares an address with an earlier one.
    SegmentsOverlap,
    /// A name or a text without the form or the length of its attribute.
    BadName,
    /// A name that is a mnemonic, a register or the default name of another address.
    ReservedName,
    /// A name that stands at another address.
    NameTwice,
    /// An address that has a name.
    AddressTwice,
    /// A line of an include file that does not define a name.
    BadInclude,
    /// A file name that the command line gives too.
    NameConflict,
    /// A file of more than 1,048,576 bytes, or one include file too many.
    TooLarge,
    /// An allocation failed.
    Memory,
}

impl InfoFaultKind {
    /// The text of the fault in a message.
    pub fn text(self) -> &'static str
        ensures { result.now ≡ fault_text self }
    {
        match self {
            InfoFaultKind::BadByte => "bad byte",
            InfoFaultKind::OpenString => "string not closed",
            InfoFaultKind::BadNumber => "bad number",
            InfoFaultKind::Expected => "something else expected",
            InfoFaultKind::UnknownGroup => "unknown group",
            InfoFaultKind::UnknownAttribute => "unknown attribute",
            InfoFaultKind::GivenTwice => "attribute given twice",
            InfoFaultKind::Missing => "attribute missing",
            InfoFaultKind::OutOfRange => "value out of range",
            InfoFaultKind::RangesOverlap => "ranges overlap",
            InfoFaultKind::SegmentsOverlap => "segments overlap",
            InfoFaultKind::BadName => "bad name",
            InfoFaultKind::ReservedName => "reserved name",
            InfoFaultKind::NameTwice => "name given twice",
            InfoFaultKind::AddressTwice => "address named twice",
            InfoFaultKind::BadInclude => "bad include line",
            InfoFaultKind::NameConflict => "name given in both places",
            InfoFaultKind::TooLarge => "too large",
            InfoFaultKind::Memory => "out of memory",
        }
    }
}

impl fmt::Display for InfoFaultKind {
    fn fmt<W: fmt::Write>(&self, f: &mut fmt::Formatter<W>) -> fmt::Result {
        f.write_str(self.text())
    }
}

/// A fault and the line where it stands, counted from 1 by line feeds. Out of memory has line 0.
#[derive(Clone, Copy, Debug, PartialEq, Eq, Error)]
#[error("{line}: {kind}")]
pub struct InfoFault {
    pub line: u32,
    pub kind: InfoFaultKind,
}

impl InfoFault {
    /// The fault of this kind at a line.
    pub(crate) fn new(line: u32, kind: InfoFaultKind) -> Self
        ensures { result ≡ fault line kind }
    {
        InfoFault { line, kind }
    }

    /// Out of memory.
    pub(crate) const MEMORY: InfoFault = InfoFault {
        line: 0,
        kind: InfoFaultKind::Memory,
    };
}

impl From<AllocError> for InfoFault {
    ghost use Rattle.std.specs.Prelude.{◌≡◌};
    ghost use Rattle.info65.specs.Faults.{out_of_memory};

    ghost from_gives = { λ _ e. e ≡ out_of_memory };

    fn from(_: AllocError) -> Self {
        InfoFault::MEMORY
    }
}

impl<T: Drop> From<AllocFailed<T>> for InfoFault {
    ghost use Rattle.std.specs.Prelude.{◌≡◌};
    ghost use Rattle.info65.specs.Faults.{out_of_memory};

    ghost from_gives = { λ _ e. e ≡ out_of_memory };

    fn from(failed: AllocFailed<T>) -> Self {
        let _ = failed;
        InfoFault::MEMORY
    }
}
