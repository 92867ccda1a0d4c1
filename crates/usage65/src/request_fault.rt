//! Why a command line that names files is refused.

ghost use Rattle.std.specs.Prelude.{◌≡◌};
ghost use Rattle.usage65.specs.Words.{fault_for};
ghost use Rattle.usage65.specs.declared.request_fault.RequestFault.TheVariants.{Memory};

use crate::fault::UsageFault;
use std::alloc::AllocError;
use thiserror::Error;

/// Why a command line that names files is refused. The texts are those of the programs' messages.
#[derive(Debug, Drop, Error)]
pub enum RequestFault {
    /// Memory ran out.
    #[error("out of memory")]
    Memory,
    /// The words are no options, or have bad values.
    #[error("{0}")]
    Usage(UsageFault),
    /// Neither a start address nor an image is given.
    #[error("no start address: give -S, or --compare an image that ends at $FFFF")]
    NoStart,
    /// The output has this name, and so has an input.
    #[error("the output is an input: {0}")]
    OutputIsInput(String),
    /// Standard input would have to be two of the inputs.
    #[error("standard input can be only one of the inputs")]
    StandardTwice,
}

impl From<AllocError> for RequestFault {
    /// A refused allocation becomes out of memory.
    ghost from_gives = { λ _ f. f ≡ Memory };

    fn from(_: AllocError) -> RequestFault {
        RequestFault::Memory
    }
}

impl From<UsageFault> for RequestFault {
    /// A fault of the words or their values stays that fault.
    ghost from_gives = { λ e f. f ≡ fault_for e };

    fn from(fault: UsageFault) -> RequestFault {
        match fault {
            UsageFault::Memory => RequestFault::Memory,
            _ => RequestFault::Usage(fault),
        }
    }
}
