//! The image that a listing is compared with.

ghost use Rattle.std.specs.Prelude.{◌≡◌, ◌<◌, ◌-◌, ◌^◌, IfErr, IfOk, IfSome, Ok};
ghost use Rattle.map65.specs.Words.{has_failed, image_of};
ghost use Rattle.as65.specs.Words.{IsFailureOf, IsNoImage};

use crate::failure::{Failure, Refused};
use files65::{FileFault, Input};
use info65::Info;
use map65::{Image, ImageFault, Source, read_image};
use std::alloc::Global;

/// The failure of an image of this name.
fn failure_of(alloc: Global, fault: ImageFault, name: &str) -> Failure
    /// A fault of the image is reported as one of its kind, or as out of memory.
    ensures { IsFailureOf fault result }
{
    match (fault, String::from_str(alloc, name)) {
        (ImageFault::Empty, _) => Failure::Own(Refused::EmptyImage),
        (ImageFault::Short, _) => Failure::Own(Refused::ShortImage),
        (ImageFault::TooLarge, _) => Failure::Own(Refused::LargeImage),
        (ImageFault::Read, Ok(name)) => Failure::File(FileFault::Reading(name)),
        (ImageFault::Memory, _) | (ImageFault::Read, Err(_)) => Failure::Memory,
    }
}

/// The image that the information finds in what is read, as da65 takes it: without a start its last byte is at $FFFF.
fn image_in<R: Source>(
    alloc: Global,
    info: &Info,
    input: &mut R,
    name: &str,
) -> Result<Image, Failure>
    /// Returns the part of the file that da65 lists: at the start of the command line or of the information file,
    /// or without one so that it ends at $FFFF. It is refused as empty, too short, too large or unread for the same
    /// reasons as in da65; or out of memory. This holds for an input that reports its bytes and has a count of
    /// failures below 2^64 - 1.
    ensures image { R.faults input.old < 2 ^ 64 - 1 → IfSome (R.left input.old) (λ xs.
        IfOk result (λ image. image_of info.now.settings xs (has_failed (R.faults input.old) (R.faults input.new)) ≡ Ok image)) }
    ensures refused { R.faults input.old < 2 ^ 64 - 1 → IfSome (R.left input.old) (λ xs.
        IfErr result (IsNoImage (image_of info.now.settings xs (has_failed (R.faults input.old) (R.faults input.new))))) }
{
    match read_image(alloc, info, input) {
        Ok(image) => Ok(image),
        Err(fault) => Err(failure_of(alloc, fault, name)),
    }
}

/// The image of the file of this name.
pub fn image(rt: &HostRuntime, name: &str, info: &Info) -> Result<Image, Failure> {
    let mut input = Input::open(rt, name)?;
    image_in(rt.alloc(), info, &mut input, name)
}
