//! Why a command line is refused.

ghost use Rattle.std.specs.IoError.{error_kind};
ghost use Rattle.std.specs.Prelude.{◌≡◌, ◌≢◌};
ghost use Rattle.usage65.specs.declared.fault.UsageFault.TheVariants.{Memory};

use std::alloc::{AllocError, AllocFailed};
use std::io::{Error as IoError, ErrorKind};
use thiserror::Error;

/// Why a command line has no options. The texts are those of the program's messages, after its name.
#[derive(Clone, Copy, Debug, PartialEq, Eq, Error)]
pub enum UsageFault {
    /// An unknown option, one word too many, an option given twice, or a value that is missing.
    #[error("bad arguments")]
    Words,
    /// Text that is not a number.
    #[error("bad number")]
    BadNumber,
    /// A number outside its limits, or an unknown CPU.
    #[error("argument out of range")]
    OutOfRange,
    /// Memory ran out.
    #[error("out of memory")]
    Memory,
}

impl UsageFault {
    /// The fault of words that can't be had: they are not valid UTF-8, or there is no memory for them.
    pub fn of_words(error: &IoError) -> UsageFault
        /// Words that can't be read are reported as Words, unless the system is out of memory.
        ensures memory { error_kind error.now ≡ ErrorKind.OutOfMemory → result ≡ UsageFault.Memory }
        ensures words { error_kind error.now ≢ ErrorKind.OutOfMemory → result ≡ UsageFault.Words }
    {
        match error.kind() {
            ErrorKind::OutOfMemory => UsageFault::Memory,
            _ => UsageFault::Words,
        }
    }
}

impl From<AllocError> for UsageFault {
    /// A refused allocation becomes out of memory.
    ghost from_gives = { λ _ e. e ≡ Memory };

    fn from(_: AllocError) -> Self {
        UsageFault::Memory
    }
}

impl<T: Drop> From<AllocFailed<T>> for UsageFault {
    /// A refused allocation becomes out of memory.
    ghost from_gives = { λ _ e. e ≡ Memory };

    fn from(failed: AllocFailed<T>) -> Self {
        let _ = failed;
        UsageFault::Memory
    }
}
