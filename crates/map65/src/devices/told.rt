//! Any `std::io::Read` or `Write` as a device.

ghost use Rattle.std.specs.Prelude.{◌≡◌, ◌<◌, ◌⊎◌, IfErr, IfOk, IsErr, MatchResult, Ok, length};
ghost use Rattle.map65.specs.Words.{Counts, told_of};

use crate::devices::device::{DeviceFault, Sink, Source};
use std::io::{Read, Write};

/// A `std::io::Read` or `Write`, with a count of its calls that failed. No call is tried again.
#[derive(Debug, Drop)]
pub struct Told<T> {
    inner: T,
    faults: u64,
    /// Whether the last read failed.
    failed: bool,
}

impl<T> Told<T> {
    /// Wraps a reader or a writer. The count begins at 0.
    pub fn new(inner: T) -> Told<T>
        /// Starts with the given reader or writer, and no failure.
        ensures { result ≡ told_of inner }
    {
        Told {
            inner,
            faults: 0,
            failed: false,
        }
    }
}

/// Passes on what a call came to, and counts it if it failed.
fn counted<E: Drop>(faults: &mut u64, call: Result<usize, E>) -> Result<usize, DeviceFault>
    ensures same { MatchResult call (λ n. result ≡ Ok n) (λ _. IsErr result) }
    ensures count { Counts faults.old faults.new result }
{
    match call {
        Ok(n) => Ok(n),
        Err(_) => {
            *faults = faults.saturating_add(1);
            Err(DeviceFault)
        }
    }
}

/// What a write of these bytes came to. It failed, too, if it took none of them.
fn progress<E: Drop>(call: Result<usize, E>, bytes: &[u8]) -> Result<usize, DeviceFault>
    ensures some { IfOk call (λ n. (length bytes.now ≡ 0) ⊎ (0 < n) → result ≡ Ok n) }
    ensures none { IfOk call (λ n. n ≡ 0 → 0 < length bytes.now → IsErr result) }
    ensures failed { IfErr call (λ _. IsErr result) }
{
    match call {
        Ok(n) if 0 < n || bytes.is_empty() => Ok(n),
        _ => Err(DeviceFault),
    }
}

impl<T: Read> Source for Told<T> {
    /// If the contract of the reader says which bytes are left, the device has the same. A device that always fails
    /// meets the contract too, so it is partly tested that bytes are passed on.
    ghost left = { λ t. T.remaining t.inner };

    /// A device over a reader counts each failure.
    ghost faults = { λ t. t.faults };

    /// The device tells whether its last read failed.
    ghost failed = { λ t. t.failed };

    fn read_some(&mut self, buf: &mut [u8]) -> Result<usize, DeviceFault> {
        let call = self.inner.read(buf);
        self.failed = call.is_err();
        counted(&mut self.faults, call)
    }
}

impl<T: Write> Sink for Told<T> {
    /// If the contract of the writer says which bytes it has taken, the device has the same.
    ghost taken = { λ t. T.contents t.inner };

    /// A device over a writer counts each failure. A write that takes no byte is one.
    ghost faults = { λ t. t.faults };

    fn write_some(&mut self, bytes: &[u8]) -> Result<usize, DeviceFault> {
        let call = progress(self.inner.write(bytes), bytes);
        counted(&mut self.faults, call)
    }
}
