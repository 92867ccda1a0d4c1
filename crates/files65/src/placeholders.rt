//! Standard streams that are closed.

ghost use Rattle.std.specs.Prelude.{codes, IfErr};
ghost use Rattle.files65.specs.Faults.{IsUnread};

use crate::fault::FileFault;
use crate::input::opened;
use std::fs::File;

/// What takes the numbers of the standard streams that are closed, as long as it lives. Else a file that is
/// opened later would get such a number, and messages could end up in it.
#[derive(Drop)]
pub struct Placeholders {
    input: File,
    output: File,
    errors: File,
}

impl Placeholders {
    /// Takes the numbers. To be called before any file is opened. Fails with `Reading` if `/dev/null` can't be opened:
    /// whether a stream is closed is not known then, so nothing may be opened.
    pub fn take(rt: &HostRuntime) -> Result<Placeholders, FileFault>
        /// Taking the place of closed streams fails only for `/dev/null`, or out of memory. That nothing is created
        /// then is tested.
        ensures { IfErr result (IsUnread (codes "/dev/null")) }
    {
        Ok(Placeholders {
            input: opened(rt, "/dev/null")?,
            output: opened(rt, "/dev/null")?,
            errors: opened(rt, "/dev/null")?,
        })
    }
}
