//! Reading some bytes of a source, whatever they are.

ghost use Rattle.std.specs.Prelude.{◌≡◌, OnErr, OnOk, true, take, IfSome, IfOk};
ghost use Rattle.map65.specs.declared.devices.taking.TakeFault.TheVariants.{Read, Memory};
ghost use Rattle.map65.specs.Words.{Counts, IsReadTo, Passes, TakeCount, TakesNoMore, TakesUpTo};

use crate::devices::device::{DeviceFault, Source};
use std::alloc::{AllocError, Allocator};
use thiserror::Error;

/// The most that one read takes.
const CHUNK: usize = 4096;

/// Why some bytes were not read.
#[derive(Clone, Copy, Debug, PartialEq, Eq, Error)]
pub enum TakeFault {
    /// The reader failed.
    #[error("a read failed")]
    Read,
    /// An allocation was refused.
    #[error("out of memory")]
    Memory,
}

impl From<AllocError> for TakeFault {
    ghost from_gives = { λ _ e. e ≡ Memory };

    fn from(_: AllocError) -> TakeFault {
        TakeFault::Memory
    }
}

impl From<DeviceFault> for TakeFault {
    ghost from_gives = { λ _ e. e ≡ Read };

    fn from(_: DeviceFault) -> TakeFault {
        TakeFault::Read
    }
}

/// Passes over this many bytes without storing them. Returns false if the input ends before.
pub fn pass_over<R: Source>(input: &mut R, count: usize) -> Result<bool, DeviceFault>
    /// Returns whether the input had that many bytes. Then exactly these have been read, otherwise all that there
    /// were.
    ensures passed { Passes result count (R.left input.old) (R.left input.new) }
    /// At most that many bytes have been read. After a failed read nothing more is read. This holds for every
    /// device.
    ensures bound { TakesUpTo count (R.left input.old) (R.left input.new) }
    ensures count { Counts (R.faults input.old) (R.faults input.new) result }
    ensures last { OnErr result (R.failed input.new ≡ true) }
{
    let mut chunk = [0u8; CHUNK];
    let mut left = count;
    'passes: while 0 < left {
        let room = CHUNK.min(left);
        let n = input.read_some(&mut chunk[..room])?;
        if n == 0 {
            return Ok(false);
        }
        left -= n;
    }
    Ok(true)
}

/// Reads up to the end of the input, or up to `limit` bytes. A read that fails is not tried again.
pub fn take_up_to<A: Allocator, R: Source>(
    alloc: A,
    input: &mut R,
    limit: usize,
) -> Result<Vec<u8, A>, TakeFault>
    /// Returns the bytes of an input up to its end or a limit, and reads no more; or out of memory.
    ensures bytes { IfOk result (λ v. IfSome (R.left input.old) (λ xs. v.items ≡ take limit xs)) }
    ensures rest { OnOk result (IsReadTo limit (R.left input.old) (R.left input.new)) }
    /// At most that many bytes have been read. Fails with Read exactly if a read failed, and after that nothing
    /// more is read. This holds for every device.
    ensures bound { TakesUpTo limit (R.left input.old) (R.left input.new) }
    ensures count { TakeCount result (R.faults input.old) (R.faults input.new) }
    ensures last { TakesNoMore result (R.failed input.new) }
{
    let mut bytes = Vec::new(alloc);
    let mut chunk = [0u8; CHUNK];
    'reads: while bytes.len() < limit {
        let room = CHUNK.min(limit - bytes.len());
        let n = input.read_some(&mut chunk[..room])?;
        if n == 0 {
            return Ok(bytes);
        }
        bytes.extend_from_slice(&chunk[..n])?;
    }
    Ok(bytes)
}
