//! What is read.

ghost use Rattle.std.specs.Prelude.{IfErr};
ghost use Rattle.files65.specs.Devices.{input_failed, input_faults, input_left};
ghost use Rattle.files65.specs.Faults.{IsUnread};

use crate::fault::FileFault;
use map65::{DeviceFault, Source, Told};
use std::fs::File;
use std::io::Stdin;

/// What is read. A read that fails is not tried again.
#[derive(Drop)]
pub enum Input {
    /// Standard input.
    Standard(Told<Stdin>),
    /// A file that is open.
    File(Told<File>),
    /// No bytes.
    Nothing,
}

/// The file of this name, open for reading.
pub(crate) fn opened(rt: &HostRuntime, name: &str) -> Result<File, FileFault>
    ensures { IfErr result (IsUnread name.now) }
{
    match File::open(rt, name) {
        Ok(file) => Ok(file),
        Err(error) => Err(FileFault::of_opening(rt.alloc(), &error, name)),
    }
}

impl Input {
    /// Opens the file of this name. `/dev/stdin` is standard input. Fails with `Reading`.
    pub fn open(rt: &HostRuntime, name: &str) -> Result<Input, FileFault>
        /// The fault of opening an input has its name, or is out of memory.
        ensures { IfErr result (IsUnread name.now) }
    {
        // A pipe that another user made can be read, but not opened by its name.
        if name == "/dev/stdin" {
            return Ok(Input::Standard(Told::new(rt.stdin())));
        }
        Ok(Input::File(Told::new(opened(rt, name)?)))
    }
}

impl Source for Input {
    /// Nothing is said of the bytes of a file or of standard input, and `Nothing` has none.
    ghost left = { input_left };

    /// An input counts each failure of the reader below it.
    ghost faults = { input_faults };

    /// An input tells whether its last read failed.
    ghost failed = { input_failed };

    fn read_some(&mut self, buf: &mut [u8]) -> Result<usize, DeviceFault> {
        match self {
            Input::Standard(input) => input.read_some(buf),
            Input::File(input) => input.read_some(buf),
            Input::Nothing => Ok(0),
        }
    }
}
