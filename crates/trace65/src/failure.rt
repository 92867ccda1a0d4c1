//! Why the program gives up.

ghost use Rattle.std.specs.Prelude.{◌≡◌, ◌≢◌};
ghost use Rattle.files65.specs.declared.failure.Failure.TheVariants.{Memory, Own};

use info65::{InfoFault, InfoFaultKind};
use map65::ImageFault;
use thiserror::Error;

/// What ends the program early.
pub type Failure = files65::Failure<Refused>;

/// What only this program gives up for.
#[derive(Debug, Drop, Error)]
pub enum Refused {
    /// The include file of this name is refused.
    #[error("include {0}:{1}")]
    Include(String, InfoFault),
    /// Neither the command line nor the information file names an image.
    #[error("no input file")]
    NoInput,
    /// The input gives no image.
    #[error("{0}")]
    Image(ImageFault),
    /// After what is found the information file has this fault.
    #[error("the information file with what is found would be refused: {0}")]
    Text(InfoFault),
    /// After what is found the information file does not say that.
    #[error("the information file with what is found would say something else")]
    Other,
}

/// The failure for a fault of this kind, which is this unless memory ran out.
pub fn failure_of(kind: InfoFaultKind, refused: Refused) -> Failure
    /// A fault of an include file, or of the text that is read back, is reported as that fault, unless memory ran out.
    ensures memory { kind ≡ InfoFaultKind.Memory → result ≡ Memory }
    ensures other { kind ≢ InfoFaultKind.Memory → result ≡ Own refused }
{
    if kind == InfoFaultKind::Memory {
        Failure::Memory
    } else {
        Failure::Own(refused)
    }
}
