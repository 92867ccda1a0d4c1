//! Writing all of some bytes.

ghost use Rattle.std.specs.Prelude.{◌<◌, length, OnOk, OnErr};
ghost use Rattle.std.specs.Io.KnownBytes.{Appends};
ghost use Rattle.map65.specs.Words.{AppendsFront, Counts};

use crate::devices::device::{DeviceFault, Sink};

/// Writes all bytes, or fails at the first write that fails, with a prefix of them written. No write is
/// tried again, and without a byte there is none.
pub fn write_whole<W: Sink>(out: &mut W, bytes: &[u8]) -> Result<(), DeviceFault>
    /// Writes all bytes. Fails at the first write that fails, and then a prefix of them has been written. Without
    /// bytes it does not fail.
    ensures whole { OnOk result (Appends (W.taken out.old) (W.taken out.new) bytes.now) }
    ensures front { OnErr result (AppendsFront (W.taken out.old) (W.taken out.new) bytes.now) }
    ensures some { OnErr result (0 < length bytes.now) }
    ensures count { Counts (W.faults out.old) (W.faults out.new) result }
{
    let mut rest = bytes;
    'writes: while !rest.is_empty() {
        let n = out.write_some(rest)?;
        rest = &rest[n..];
    }
    Ok(())
}
