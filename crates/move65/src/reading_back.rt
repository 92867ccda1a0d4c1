//! What is written is read back behind the information file.

ghost use Rattle.std.specs.Prelude.{◌≡◌, IfOk, Ok, OnOk};
ghost use Rattle.info65.specs.Words.{information};
ghost use Rattle.move65.specs.Accepted.{IsAccepted};

use crate::failure::{Failure, Refused};
use info65::{Info, InfoFault, InfoFaultKind, Options, read_info, read_tags};
use std::alloc::Global;

/// The failure for a fault of the file with what is found.
fn refused(fault: InfoFault) -> Failure {
    match fault.kind {
        InfoFaultKind::Memory => Failure::Memory,
        _ => Failure::Own(Refused::Text(fault)),
    }
}

/// What an information file says.
fn info_in(alloc: Global, options: &Options, bytes: &[u8]) -> Result<Info, Failure>
    ensures { IfOk result (λ info. information options.now bytes.now ≡ Ok info) }
{
    match read_info(alloc, options, bytes) {
        Ok(info) => Ok(info),
        Err(fault) => Err(refused(fault)),
    }
}

/// Reads an information file with a line feed and a text behind it, and its groups in lines `#: ..`. Fails with the
/// fault that it would be refused for.
pub fn read_back(alloc: Global, options: &Options, bytes: &[u8], text: &[u8]) -> Result<(), Failure>
    ensures accepted { OnOk result (IsAccepted options.now bytes.now text.now) }
{
    let mut whole = Vec::from_slice(alloc, bytes)?;
    whole.extend_from_slice(b"\n")?;
    whole.extend_from_slice(text)?;
    let _info = info_in(alloc, options, &whole)?;
    match read_tags(alloc, &whole) {
        Ok(_tags) => Ok(()),
        Err(fault) => Err(refused(fault)),
    }
}
