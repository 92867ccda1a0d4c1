//! Why the program gives up.

ghost use Rattle.std.specs.Prelude.{◌≡◌};
ghost use Rattle.name65.specs.NamedText.{failure_of};

use crate::complaint::{Complaint, Refusal};
use thiserror::Error;

/// What ends the program early.
pub type Failure = files65::Failure<Refused>;

/// What only this program gives up for.
#[derive(Debug, Drop, Error)]
pub enum Refused {
    /// A group that begins on this line of the information file can't be followed.
    #[error("info:{0}: {1}")]
    Group(u32, Complaint),
    /// By names the listing would have a fault on a line, or other bytes.
    #[error("by names the listing would not have the same bytes")]
    Changed,
}

impl From<Refusal> for Failure {
    /// A group that cannot be followed ends the program as that fault.
    ghost from_gives = { λ e f. f ≡ failure_of e };

    fn from(refusal: Refusal) -> Failure {
        match refusal {
            Refusal::Memory => Failure::Memory,
            Refusal::Group(line, complaint) => Failure::Own(Refused::Group(line, complaint)),
            Refusal::Changed => Failure::Own(Refused::Changed),
        }
    }
}
