//! Why the program gives up.

ghost use Rattle.std.specs.Prelude.{◌≡◌};
ghost use Rattle.as65.specs.Words.{said_after};

use thiserror::Error;

/// What ends the program early.
pub type Failure = files65::Failure<Refused>;

/// What only this program gives up for.
#[derive(Debug, Drop, Error)]
pub enum Refused {
    /// The image to compare with has fewer bytes than INPUTSIZE asks for.
    #[error("the image is too short")]
    ShortImage,
    /// The image to compare with has no byte.
    #[error("the image is empty")]
    EmptyImage,
    /// The image to compare with has more than 65,536 bytes, or extends past $FFFF.
    #[error("the image is too large")]
    LargeImage,
    /// Neither the command line nor the information file of this name gives a start address.
    #[error("no start address: give -S, or STARTADDR in {0}")]
    NoStart(String),
    /// A label of the listing of this name is not at the address in its name: the number of
    /// its line, and what is said of it.
    #[error("{0}:{1}: ")]
    Moved(String, usize, Vec<u8>),
    /// A segment of the listing of this name is not one that has a place: the number of the line, and what is said of
    /// it.
    #[error("{0}:{1}: segment ")]
    Segment(String, usize, Vec<u8>),
    /// The listing of this name gives this many bytes, and the image has as many as the last number says.
    #[error("{0}: the image has {2} bytes, the listing {1}")]
    OtherSize(String, usize, usize),
    /// A write of a message failed, so nothing more is said.
    #[error("cannot write a message")]
    Silent,
}

/// What is said after the text of a failure. It need not be valid UTF-8.
pub fn said_after(failure: &Failure) -> &[u8]
    /// Returns what is said after the text of a failure.
    ensures { result.now ≡ said_after failure.now }
{
    match failure {
        Failure::Own(Refused::Moved(_, _, said) | Refused::Segment(_, _, said)) => said.as_slice(),
        _ => files65::said_after(failure),
    }
}
