//! Why a text has no bytes.

ghost use Rattle.std.specs.Prelude.{◌≡◌};

use std::alloc::AllocError;
use thiserror::Error;

/// What is wrong with a line of a text. Of several kinds on a line the first of this order counts: the kinds up to
/// `OutOfRange` as they stand here, then `PastStart`, then `PastEnd`.
#[derive(Clone, Copy, Debug, PartialEq, Eq, Error)]
pub enum AsmFaultKind {
    /// The line is none that the assembler knows.
    #[error("syntax error")]
    Syntax = 1,
    /// `.setcpu` with a text that is no CPU's.
    #[error("unknown CPU")]
    UnknownCpu = 2,
    /// The CPU has no such form of the mnemonic.
    #[error("no such form")]
    NoSuchForm = 3,
    /// A name that no line of the text defines.
    #[error("undefined name")]
    Undefined = 4,
    /// A name that a line above defines.
    #[error("name defined twice")]
    DefinedTwice = 5,
    /// A value that has no room.
    #[error("value out of range")]
    OutOfRange = 6,
    /// A byte past $FFFF.
    #[error("past the end of the address space")]
    PastEnd = 7,
    /// Memory was refused.
    #[error("out of memory")]
    Memory = 8,
    /// A segment that is entered past its start.
    #[error("segment past its start")]
    PastStart = 9,
}

/// A fault of a text: the line from 1, or 0 if memory was refused, and what is wrong with it.
#[derive(Clone, Copy, Debug, PartialEq, Eq, Error)]
#[error("{line}: {kind}")]
pub struct AsmFault {
    pub line: usize,
    pub kind: AsmFaultKind,
}

impl From<AllocError> for AsmFault {
    ghost use Rattle.stmt65.specs.Answer.{out_of_memory};

    ghost from_gives = { λ _ e. e ≡ out_of_memory };

    fn from(_: AllocError) -> Self {
        AsmFault {
            line: 0,
            kind: AsmFaultKind::Memory,
        }
    }
}
