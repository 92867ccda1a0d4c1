//! Where an image is, as an information file of da65 says it.

ghost use Rattle.std.specs.Prelude.{◌≡◌};
ghost use Rattle.as65.specs.Words.{placed_at};

use crate::failure::Failure;
use files65::{information_at, read_information};
use info65::{Info, Settings};

/// What the file of this name says, under the start of the command line. Without a name it is the empty file.
pub fn information(
    rt: &HostRuntime,
    name: Option<&str>,
    start: Option<u16>,
) -> Result<Info, Failure> {
    information_at(rt.alloc(), start, &read_information(rt, name)?)
}

/// Where settings place an image: at its start, or so that its size ends at $FFFF.
pub fn placed_at(settings: &Settings) -> Option<u16>
    /// Returns the start that settings give, or without one that from which the bytes of INPUTSIZE end at $FFFF; none
    /// if there is no INPUTSIZE either, or it is 0 or more than 65,536.
    ensures { result ≡ placed_at settings.now.start settings.now.size }
{
    match (settings.start, settings.size) {
        (Some(start), _) => Some(start),
        (None, Some(size)) if 0 < size && size <= 65_536 => Some((65_536 - size) as u16),
        (None, _) => None,
    }
}
