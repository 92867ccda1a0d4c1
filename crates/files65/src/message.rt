//! Messages on standard error.

ghost use Rattle.std.specs.Prelude.{◌≡◌, ◌++◌, IfOk, OnOk};
ghost use Rattle.files65.specs.Message.{in_line, is_control, message, shown};

use crate::failure::{Failure, said_after};
use crate::fault::FileFault;
use crate::output::write_text;
use arrayvec::ArrayVec;
use map65::{Sink, Told};
use std::alloc::{AllocError, Global};
use std::fmt::Display;
use std::process::ExitCode;

/// Whether a terminal may take a byte for a command: those from $80 to $9F do that after
/// $C2, as controls of 8 bits in UTF-8.
fn is_control(after_c2: bool, byte: u8) -> bool
    ensures { result ≡ is_control after_c2 byte }
{
    byte.is_ascii_control() || after_c2 && 128 <= byte && byte <= 159
}

fn put_byte(out: &mut Vec<u8>, after_c2: bool, byte: u8) -> Result<(), AllocError>
    ensures { OnOk result (out.new.items ≡ out.old.items ++ in_line after_c2 byte) }
{
    if byte == b'\n' {
        return out.extend_from_slice(b"\\n");
    }
    out.extend_from_slice(&[if is_control(after_c2, byte) {
        b'?'
    } else {
        byte
    }])
}

/// Appends bytes, with `\n` for each line feed and `?` for each other control byte.
#[tactic(auto, unfolding(crate::specs::Message::shown_from))]
fn put_in_line(out: &mut Vec<u8>, bytes: &[u8]) -> Result<(), AllocError>
    ensures { OnOk result (out.new.items ≡ out.old.items ++ shown bytes.now) }
{
    let mut after_c2 = false;
    let mut rest = bytes;
    'bytes: while let Some((byte, later)) = rest.split_first() {
        put_byte(out, after_c2, *byte)?;
        after_c2 = *byte == 0xC2;
        rest = later;
    }
    Ok(())
}

/// A message of a program, as one line: a text, and what is said after it, which need not be valid UTF-8.
#[tactic(auto, unfolding(crate::specs::Message::message))]
pub fn message(
    alloc: Global,
    program: &str,
    text: &str,
    about: &[u8],
) -> Result<Vec<u8>, AllocError>
    /// A message is one line: the program's name, a text and what follows it, with `\n` for each line feed in them,
    /// and `?` for each other control byte, and for each byte from $80 to $9F after $C2; or out of memory.
    ensures { IfOk result (λ line. line.items ≡ message program.now text.now about.now) }
{
    let mut line = Vec::new(alloc);
    line.extend_from_slice(program.as_bytes())?;
    line.extend_from_slice(b": ")?;
    put_in_line(&mut line, text.as_bytes())?;
    put_in_line(&mut line, about)?;
    line.extend_from_slice(b"\n")?;
    Ok(line)
}

/// Says that memory ran out, which takes none.
fn say_out_of_memory<W: Sink>(out: &mut W, program: &str) -> Result<(), FileFault> {
    let mut line: ArrayVec<u8, 64> = ArrayVec::new();
    let _ = line.try_extend_from_slice(program.as_bytes());
    let _ = line.try_extend_from_slice(b": out of memory\n");
    write_text(out, line.as_slice())
}

/// Says a text on standard error, by one write; if memory runs out for it, that alone is said, and the call fails with
/// `Memory`. After a failure nothing more is to be written.
pub fn say(
    rt: &HostRuntime,
    program: &str,
    text: Result<String, AllocError>,
    about: &[u8],
) -> Result<(), FileFault> {
    let mut out = Told::new(rt.stderr());
    let line = match text {
        Ok(text) => message(rt.alloc(), program, text.as_str(), about),
        Err(fault) => Err(fault),
    };
    match line {
        Ok(line) => write_text(&mut out, &line),
        Err(_) => {
            say_out_of_memory(&mut out, program)?;
            Err(FileFault::Memory)
        }
    }
}

/// Ends a program with status 0 if it did what it was asked for, and else with a message and status 1.
pub fn end<R: Display + Drop>(
    rt: &HostRuntime,
    program: &str,
    outcome: Result<(), Failure<R>>,
) -> ExitCode {
    match outcome {
        Ok(()) => ExitCode::SUCCESS,
        Err(failure) => {
            let text = format!(in rt.alloc(); "{failure}");
            let _ = say(rt, program, text, said_after(&failure));
            ExitCode::FAILURE
        }
    }
}
