//! Whether a listing gives as many bytes as the information file says.

ghost use Rattle.std.specs.Prelude.{◌≡◌, IfErr, IfSome, OnOk, length};
ghost use Rattle.as65.specs.Words.{HasOther};

use crate::assembled::Assembled;
use crate::failure::{Failure, Refused};
use std::alloc::Global;

/// Refuses a listing of this name that gives more or fewer bytes than are wanted, if that is known.
pub fn need_size(
    alloc: Global,
    assembled: &Assembled<'_, '_, '_, '_>,
    name: &str,
    wanted: Option<usize>,
) -> Result<(), Failure>
    /// Passes a listing only if it gives as many bytes as are wanted, if that is known. Otherwise it fails with both
    /// numbers and its name, or memory ran out.
    ensures same { OnOk result (IfSome wanted (λ n. length assembled.now.bytes ≡ n)) }
    ensures failure { IfErr result (HasOther name.now assembled.now.bytes wanted) }
{
    let len = assembled.bytes().len();
    match wanted {
        Some(wanted) if wanted != len => {
            let name = String::from_str(alloc, name)?;
            Err(Failure::Own(Refused::OtherSize(name, len, wanted)))
        }
        _ => Ok(()),
    }
}
