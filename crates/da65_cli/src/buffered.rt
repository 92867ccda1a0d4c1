//! A buffer in front of a sink.

ghost use Rattle.std.specs.Prelude.{◌≡◌, [], OnOk};
ghost use Rattle.std.specs.Io.KnownBytes.{Keeps};
ghost use Rattle.map65.specs.Words.{Counts};
ghost use Rattle.da65_cli.specs.Code.Buffered.{buffered_bytes, buffered_out, buffered_taken};

use crate::block::Block;
use da65::{DeviceFault, Sink};

/// Collects bytes and passes them on to a sink, a block at a time.
#[derive(Drop)]
pub struct Buffered<W> {
    out: W,
    block: Block,
}

impl<W: Sink> Buffered<W> {
    pub fn new(out: W) -> Buffered<W>
        /// Starts empty, in front of this sink.
        ensures out { buffered_out result ≡ out }
        ensures bytes { buffered_bytes result ≡ [] }
    {
        Buffered {
            out,
            block: Block::new(),
        }
    }

    /// Passes on everything that was collected. A write that fails is not tried again, and what it left
    /// stays in the buffer.
    pub fn flush(&mut self) -> Result<(), DeviceFault>
        /// Passes on everything in order, or fails at the first write that fails and keeps what is left.
        ensures taken { Keeps (buffered_taken W.taken self.old) (buffered_taken W.taken self.new) }
        ensures empty { OnOk result (buffered_bytes self.new ≡ []) }
        ensures count { Counts
            (W.faults (buffered_out self.old)) (W.faults (buffered_out self.new)) result }
    {
        'writes: while !self.block.as_slice().is_empty() {
            let n = self.out.write_some(self.block.as_slice())?;
            self.block.take(n);
        }
        Ok(())
    }

    /// The sink. What was not passed on is given up.
    pub fn into_out(self) -> W
        ensures { result ≡ buffered_out self }
    {
        let Buffered { out, block: _ } = self;
        out
    }
}

impl<W: Sink> Sink for Buffered<W> {
    /// A buffer has taken what its sink took and then what waits.
    ghost taken = { buffered_taken W.taken };

    /// A buffer counts the failures of its sink.
    ghost faults = { λ b. W.faults (buffered_out b) };

    #[tactic(auto, using(crate::proofs::BufferLemmas::appends_after, crate::proofs::BufferLemmas::appends_more))]
    fn write_some(&mut self, bytes: &[u8]) -> Result<usize, DeviceFault> {
        if self.block.room() == 0 {
            self.flush()?;
        }
        let n = bytes.len().min(self.block.room());
        let (front, _) = bytes.split_at(n);
        self.block.put(front);
        Ok(n)
    }
}
