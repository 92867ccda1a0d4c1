//! Why the program gives up.

use info65::InfoFault;
use stmt65::AsmFault;
use thiserror::Error;

/// What ends the program early.
pub type Failure = files65::Failure<Refused>;

/// What only this program gives up for.
#[derive(Debug, Drop, Error)]
pub enum Refused {
    #[error("from ${0:04X} on the listing has a fault: {1}")]
    Later(u16, AsmFault),
    #[error("from ${0:04X} on the listing has another length")]
    Length(u16),
    #[error("the image fits nowhere else")]
    NoRoom,
    #[error("the information file with what is found would be refused: {0}")]
    Text(InfoFault),
}
