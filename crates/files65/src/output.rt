//! What is written.

ghost use Rattle.std.specs.Prelude.{◌≡◌, IfErr, OnErr, OnOk};
ghost use Rattle.std.specs.Io.KnownBytes.{Appends};
ghost use Rattle.map65.specs.Words.{AppendsFront, Counts};
ghost use Rattle.files65.specs.Devices.{output_faults, output_taken};

use crate::fault::FileFault;
use crate::same::STANDARD_OUTPUT;
use map65::{DeviceFault, Sink, Told, write_whole};
use std::fs::File;
use std::io::Stdout;

/// What is written. A write that fails is not tried again.
#[derive(Drop)]
pub enum Output {
    /// Standard output.
    Standard(Told<Stdout>),
    /// A file that was created.
    File(Told<File>),
}

impl Output {
    /// Standard output.
    pub fn standard(rt: &HostRuntime) -> Output {
        Output::Standard(Told::new(rt.stdout()))
    }

    /// Creates the file of this name, empty. Without a name it is standard output, and so is `/dev/stdout`, which would
    /// be emptied otherwise where it is appended to.
    pub fn create(rt: &HostRuntime, name: Option<String>) -> Result<Output, FileFault> {
        match name {
            Some(name) if name.as_str() != STANDARD_OUTPUT => {
                match File::create(rt, name.as_str()) {
                    Ok(file) => Ok(Output::File(Told::new(file))),
                    Err(error) => Err(FileFault::of_error(&error, FileFault::Creating(name))),
                }
            }
            _ => Ok(Output::standard(rt)),
        }
    }

    /// Creates the file of this name, which must not be there yet, so that no file is written over, whatever its name.
    /// Without a name it is standard output.
    pub fn create_new(rt: &HostRuntime, name: Option<String>) -> Result<Output, FileFault> {
        let Some(name) = name else {
            return Ok(Output::standard(rt));
        };
        match File::create_new(rt, name.as_str()) {
            Ok(file) => Ok(Output::File(Told::new(file))),
            Err(error) => Err(FileFault::of_new(&error, name)),
        }
    }
}

impl Sink for Output {
    /// Nothing is said of the bytes that an output has taken.
    ghost taken = { output_taken };

    /// An output counts each failure of the writer below it.
    ghost faults = { output_faults };

    fn write_some(&mut self, bytes: &[u8]) -> Result<usize, DeviceFault> {
        match self {
            Output::Standard(output) => output.write_some(bytes),
            Output::File(output) => output.write_some(bytes),
        }
    }
}

/// Writes a text. Fails with `Writing`.
pub fn write_text<W: Sink>(out: &mut W, text: &[u8]) -> Result<(), FileFault>
    /// Writes the whole text. If a write fails, a prefix of it has been written, and the count of failed writes
    /// rises by one. What was written is said of every output that reports its bytes.
    ensures whole { OnOk result (Appends (W.taken out.old) (W.taken out.new) text.now) }
    ensures front { OnErr result (AppendsFront (W.taken out.old) (W.taken out.new) text.now) }
    ensures count { Counts (W.faults out.old) (W.faults out.new) result }
    ensures failure { IfErr result (λ e. e ≡ FileFault.Writing) }
{
    match write_whole(out, text) {
        Ok(()) => Ok(()),
        Err(_) => Err(FileFault::Writing),
    }
}
