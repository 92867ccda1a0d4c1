//! What a run returns.

use thiserror::Error;

/// How a run ended, if no fault stopped it.
#[derive(Clone, Copy, Debug, PartialEq, Eq)]
pub enum Status {
    /// The listing was written.
    Done,
    /// The information file, an include file or the input was refused. Only one message was written.
    Refused,
}

/// Why a run gave up.
#[derive(Clone, Copy, Debug, PartialEq, Eq, Error)]
pub enum RunFault {
    /// Memory ran out. Nothing was written.
    #[error("out of memory")]
    Memory,
    /// A write of the listing failed. A prefix of the listing was written, and no message.
    #[error("cannot write the listing")]
    Write,
    /// A write of a message failed. The whole listing was written, and a prefix of the messages.
    #[error("cannot write the messages")]
    Messages,
}
