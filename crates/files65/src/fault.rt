//! Why a file can't be used.

ghost use Rattle.std.specs.Prelude.{◌≡◌, ◌≢◌};
ghost use Rattle.std.specs.IoError.{error_kind};
ghost use Rattle.files65.specs.Faults.{IsUnread};
ghost use Rattle.files65.specs.declared.fault.FileFault.TheVariants.{Memory};

use std::alloc::{AllocError, Global};
use std::io::{Error as IoError, ErrorKind};
use thiserror::Error;

/// Why a file can't be used. The texts are those of the programs' messages.
#[derive(Debug, Drop, Error)]
pub enum FileFault {
    /// Memory ran out.
    #[error("out of memory")]
    Memory,
    /// The file of this name can't be opened or read.
    #[error("cannot read {0}")]
    Reading(String),
    /// The stream of this name would have to be two of the inputs.
    #[error("{0} can be only one of the inputs")]
    StreamTwice(String),
    /// The listing of this name has no byte, or gives none.
    #[error("{0}: no bytes")]
    Empty(String),
    /// The listing has more than 64 MiB.
    #[error("input is too large")]
    TooLarge,
    /// The output of this name is one of the inputs.
    #[error("the output is an input: {0}")]
    OutputIsInput(String),
    /// The output of this name is there already, and may not be.
    #[error("{0} exists")]
    Exists(String),
    /// The output of this name is there, and is no plain file.
    #[error("the output is no plain file: {0}")]
    Special(String),
    /// The file of this name can't be created.
    #[error("cannot create {0}")]
    Creating(String),
    /// A write failed.
    #[error("cannot write the output")]
    Writing,
}

impl FileFault {
    /// The fault of a file that can't be opened or created: this one, which has its name, unless memory ran out.
    pub fn of_error(error: &IoError, named: FileFault) -> FileFault
        /// A file that can't be opened or created is reported by its name, unless the system is out of memory.
        ensures memory { error_kind error.now ≡ ErrorKind.OutOfMemory → result ≡ FileFault.Memory }
        ensures name { error_kind error.now ≢ ErrorKind.OutOfMemory → result ≡ named }
    {
        match error.kind() {
            ErrorKind::OutOfMemory => FileFault::Memory,
            _ => named,
        }
    }

    /// The fault of a file of this name that can't be opened for reading.
    pub fn of_opening(alloc: Global, error: &IoError, name: &str) -> FileFault
        /// The fault of opening a file has its name, or is out of memory, as it is if the system is.
        ensures memory { error_kind error.now ≡ ErrorKind.OutOfMemory → result ≡ FileFault.Memory }
        ensures name { IsUnread name.now result }
    {
        match String::from_str(alloc, name) {
            Ok(name) => FileFault::of_error(error, FileFault::Reading(name)),
            Err(_) => FileFault::Memory,
        }
    }

    /// The fault of an output of this name that could not be created as a new file.
    pub fn of_new(error: &IoError, name: String) -> FileFault
        /// The fault of an output that must not exist yet says that it exists, is out of memory, or has its name.
        ensures exists { error_kind error.now ≡ ErrorKind.AlreadyExists → result ≡ FileFault.Exists name }
        ensures memory { error_kind error.now ≡ ErrorKind.OutOfMemory → result ≡ FileFault.Memory }
        ensures other { error_kind error.now ≢ ErrorKind.AlreadyExists → error_kind error.now ≢ ErrorKind.OutOfMemory →
            result ≡ FileFault.Creating name }
    {
        match error.kind() {
            ErrorKind::AlreadyExists => FileFault::Exists(name),
            _ => FileFault::of_error(error, FileFault::Creating(name)),
        }
    }
}

impl From<AllocError> for FileFault {
    /// A refused allocation is out of memory.
    ghost from_gives = { λ _ f. f ≡ Memory };

    fn from(_: AllocError) -> FileFault {
        FileFault::Memory
    }
}
