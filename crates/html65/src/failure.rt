//! Why the program gives up.

use thiserror::Error;

/// What ends the program early.
pub type Failure = files65::Failure<Refused>;

/// What only this program gives up for.
#[derive(Debug, Drop, Error)]
pub enum Refused {
    /// The page of the listing of this name has another text.
    #[error("{0}: the page would not have its text")]
    Text(String),
    /// A link of the page of the listing of this name leads to no element, or to several.
    #[error("{0}: a link of the page would not lead to one line")]
    Links(String),
}
