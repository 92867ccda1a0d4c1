//! Messages that wait for the end of the listing.

ghost use Rattle.std.specs.Prelude.{◌≡◌, ◌+◌, ◌<◌, ◌≤◌, [], ◌++◌, Some, length};
ghost use Rattle.arrayvec.specs.ArrayVec.{array_vec_len};
ghost use Rattle.da65_cli.specs.Code.MessageBuffer.{MessageBufferView};

use arrayvec::ArrayVec;
use da65::{DeviceFault, Sink};
use std::marker::Model;

/// Room for one byte more than the messages of a run have at most, so that it is never full.
type Messages = ArrayVec<u8, 321>;

/// Keeps messages until they are passed on.
#[derive(Drop)]
pub struct MessageBuffer {
    messages: Messages,
    faults: u64,
}

impl Model for MessageBuffer {
    ghost Value = { MessageBufferView };

    ghost view = { λ h. record { bytes = h.messages.items; faults = h.faults } };

    ghost invariant = { λ h. 0 < h.faults → length h.messages.items ≡ 321 };
}

impl MessageBuffer {
    pub fn new() -> MessageBuffer
        /// Starts empty, and without a failure.
        ensures bytes { result.bytes ≡ [] }
        ensures faults { result.faults ≡ 0 }
    {
        MessageBuffer {
            messages: Messages::new(),
            faults: 0,
        }
    }

    /// The messages. A write failed only if there was no room left.
    pub fn as_slice(&self) -> &[u8]
        /// Returns the messages. After a failed write there are 321 bytes, one more than a run writes at most.
        ensures bytes { result.now ≡ self.now.bytes }
        ensures full { 0 < self.now.faults → length self.now.bytes ≡ 321 }
    {
        self.messages.as_slice()
    }
}

fn put(messages: &mut Messages, bytes: &[u8])
    requires { array_vec_len messages.old + length bytes.now ≤ 321 }
    ensures { messages.new.items ≡ messages.old.items ++ bytes.now }
{
    let taken = messages.try_extend_from_slice(bytes);
    prove!(taken.is_ok());
}

/// A write fails if there is no room left.
impl Sink for MessageBuffer {
    /// The buffer of messages keeps messages whole and in order.
    ghost taken = { λ h. Some h.bytes };

    /// The buffer of messages counts its failures.
    ghost faults = { λ h. h.faults };

    fn write_some(&mut self, bytes: &[u8]) -> Result<usize, DeviceFault> {
        let n = bytes.len().min(self.messages.remaining_capacity());
        if n == 0 && !bytes.is_empty() {
            self.faults = self.faults.saturating_add(1);
            return Err(DeviceFault);
        }
        let (front, _) = bytes.split_at(n);
        put(&mut self.messages, front);
        Ok(n)
    }
}
