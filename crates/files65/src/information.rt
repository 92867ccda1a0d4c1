//! What an information file says.

ghost use Rattle.std.specs.Prelude.{◌≡◌, IfErr, IfOk, Ok};
ghost use Rattle.info65.specs.Words.{information};
ghost use Rattle.files65.specs.Faults.{IsRefused, options_at};

use crate::failure::Failure;
use crate::named_twice::named_twice;
use info65::{Info, InfoFaultKind, Options, Tag, read_info, read_tags};
use std::alloc::Global;

/// What these bytes say under the options, without include files. Refuses a file that da65 refuses.
pub fn information_of<R>(alloc: Global, options: &Options, bytes: &[u8]) -> Result<Info, Failure<R>>
    /// Reads an information file as da65 does before its include files, and refuses it for the same fault; or out of
    /// memory.
    ensures value { IfOk result (λ info. information options.now bytes.now ≡ Ok info) }
    ensures refused { IfErr result (IsRefused (information options.now bytes.now)) }
{
    let fault = match read_info(alloc, options, bytes) {
        Ok(info) => return Ok(info),
        Err(fault) => fault,
    };
    if fault.kind == InfoFaultKind::AddressTwice
        && let Some((line, name)) = named_twice(alloc, options, bytes, fault.line as usize)?
    {
        return Err(Failure::NamedTwice(fault, line, name));
    }
    Err(Failure::from(fault))
}

/// What these bytes say, or the start of the command line in the place of its own.
pub fn information_at<R>(
    alloc: Global,
    start: Option<u16>,
    bytes: &[u8],
) -> Result<Info, Failure<R>>
    /// Reads an information file as da65 does, with the start of the command line as the only option, and refuses
    /// it for the same fault; or out of memory.
    ensures value { IfOk result (λ info. information (options_at start) bytes.now ≡ Ok info) }
    ensures refused { IfErr result (IsRefused (information (options_at start) bytes.now)) }
{
    let mut options: Options = Options::none();
    options.start = start;
    information_of(alloc, &options, bytes)
}

/// The groups of the lines `#: ..` of an information file.
pub fn tags_of<R>(alloc: Global, bytes: &[u8]) -> Result<Vec<Tag>, Failure<R>> {
    Ok(read_tags(alloc, bytes)?)
}
