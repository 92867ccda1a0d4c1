//! Why the program gives up.

use thiserror::Error;

/// What ends the program early.
pub type Failure = files65::Failure<Refused>;

/// What only this program gives up for.
#[derive(Debug, Drop, Error)]
pub enum Refused {
    /// The command line names no file.
    #[error("no input file")]
    NoInput,
    /// Nothing of the kind is found in the file of this name.
    #[error("{0}: no part is found in it")]
    Nothing(String),
    /// A disk or tape has no file of this name.
    #[error("there is no file {0} in it")]
    NoFile(String),
    /// No information file can name an image of this name, as it has quotes or control characters.
    #[error("an information file cannot name {0}")]
    Name(String),
    /// What has this name is to be put back, and there is no part of it.
    #[error("there is no part {0}")]
    NoPart(String),
    /// Without an output and without an image nothing can be put back.
    #[error("--back takes a file, -o and images as PART=IMAGE")]
    NoImages,
    /// In the file of this name there is no room for an image of the first length, in the place of one of the second.
    #[error("{0}: an image of {1} bytes has no room where it has {2}")]
    Length(String, usize, usize),
    /// With the images the file of this name would not be read back as its other parts and them.
    #[error("{0}: with these images it would have other parts")]
    Other(String),
}
