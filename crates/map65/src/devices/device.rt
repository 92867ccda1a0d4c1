//! Where bytes are read from and written to.

ghost use Rattle.std.specs.Prelude.{ℕ, Bool, ◌<◌, ◌≤◌, List, length, IfOk, Option};
ghost use Rattle.std.specs.Io.KnownBytes.{ReadConsumes, WriteAppends};
ghost use Rattle.map65.specs.Words.{Counts, IsFailure};

use thiserror::Error;

/// A read or a write failed.
#[derive(Clone, Copy, Debug, PartialEq, Eq, Error)]
#[error("a read or a write failed")]
pub struct DeviceFault;

/// Where bytes are read from.
pub trait Source {
    /// The bytes that are left, if the device reports them.
    ghost left: { Self → Option (List ℕ) };

    /// How many reads have failed. The count stays at 2^64 - 1.
    ghost faults: { Self → ℕ };

    /// Whether the last read failed.
    ghost failed: { Self → Bool };

    /// Reads once into the beginning of `buf`, and returns the number of bytes. That is 0 at the end, and
    /// for an empty buffer.
    fn read_some(&mut self, buf: &mut [u8]) -> Result<usize, DeviceFault>
        ensures bound { IfOk result (λ n. n ≤ length buf.new) }
        ensures bytes { ReadConsumes (left self.old) (left self.new) result buf.new }
        ensures count { Counts (faults self.old) (faults self.new) result }
        ensures last { IsFailure (failed self.new) result };
}

/// Where bytes are written to.
pub trait Sink {
    /// The bytes that were written, if the device reports them.
    ghost taken: { Self → Option (List ℕ) };

    /// How many writes have failed. The count stays at 2^64 - 1.
    ghost faults: { Self → ℕ };

    /// Writes once, from the beginning of `bytes`, and returns how many bytes the device took. A write of
    /// at least one byte fails if the device takes none.
    fn write_some(&mut self, bytes: &[u8]) -> Result<usize, DeviceFault>
        ensures bound { IfOk result (λ n. n ≤ length bytes.now) }
        ensures progress { IfOk result (λ n. 0 < length bytes.now → 0 < n) }
        ensures bytes { WriteAppends (taken self.old) (taken self.new) result bytes.now }
        ensures count { Counts (faults self.old) (faults self.new) result };
}
