//! Why a program gives up.

ghost use Rattle.std.specs.Prelude.{◌≡◌};
ghost use Rattle.files65.specs.Faults.{failure_for};
ghost use Rattle.files65.specs.FaultyLine.{said_after};
ghost use Rattle.usage65.specs.Words.{fault_for};
ghost use Rattle.files65.specs.declared.failure.Failure.TheVariants.{File, Memory, Request};

use crate::fault::FileFault;
use info65::{InfoFault, InfoFaultKind};
use std::alloc::AllocError;
use std::fmt::Display;
use stmt65::AsmFault;
use thiserror::Error;
use usage65::{RequestFault, UsageFault};

/// What ends a program early. The texts are those of its messages, and `R` has what ends this program alone.
#[derive(Debug, Drop, Error)]
#[error_bound(R: Display)]
pub enum Failure<R> {
    /// The command line is refused.
    #[error("{0}")]
    Request(RequestFault),
    /// The information file is refused.
    #[error("info:{0}")]
    Info(InfoFault),
    /// The information file names an address twice: first on this line, by this name.
    #[error("info:{0}: line {1} names it {2}")]
    NamedTwice(InfoFault, usize, String),
    /// Memory ran out.
    #[error("out of memory")]
    Memory,
    /// A file can't be used.
    #[error("{0}")]
    File(FileFault),
    /// A line of the listing of this name has a fault; and what is said after its text.
    #[error("{0}:{1}")]
    Line(String, AsmFault, Vec<u8>),
    /// What the program alone refuses.
    #[error("{0}")]
    Own(R),
}

impl<R> From<AllocError> for Failure<R> {
    /// A refused allocation ends a program as out of memory.
    ghost from_gives = { λ _ f. f ≡ Memory };

    fn from(_: AllocError) -> Failure<R> {
        Failure::Memory
    }
}

impl<R> From<RequestFault> for Failure<R> {
    /// A fault of the command line ends a program as that fault.
    ghost from_gives = { λ e f. f ≡ Request e };

    fn from(fault: RequestFault) -> Failure<R> {
        Failure::Request(fault)
    }
}

impl<R> From<UsageFault> for Failure<R> {
    ghost from_gives = { λ e f. f ≡ Request (fault_for e) };

    fn from(fault: UsageFault) -> Failure<R> {
        Failure::Request(RequestFault::from(fault))
    }
}

impl<R> From<FileFault> for Failure<R> {
    /// A fault of a file ends a program as that fault.
    ghost from_gives = { λ e f. f ≡ File e };

    fn from(fault: FileFault) -> Failure<R> {
        Failure::File(fault)
    }
}

impl<R> From<InfoFault> for Failure<R> {
    /// A fault of the information file ends a program as that fault, or as out of memory if it is that.
    ghost from_gives = { λ e f. f ≡ failure_for e };

    fn from(fault: InfoFault) -> Failure<R> {
        match fault.kind {
            InfoFaultKind::Memory => Failure::Memory,
            _ => Failure::Info(fault),
        }
    }
}

/// What is said after the text of a failure. It need not be valid UTF-8.
pub fn said_after<R>(failure: &Failure<R>) -> &[u8]
    /// Returns what is said after the text of a failure.
    ensures { result.now ≡ said_after failure.now }
{
    match failure {
        Failure::Line(_, _, said) => said.as_slice(),
        _ => &[],
    }
}
