//! What the information file and its include files say, and the image.

ghost use Rattle.std.specs.Prelude.{◌≡◌};
ghost use Rattle.files65.specs.declared.failure.Failure.TheVariants.{Own};

use crate::failure::{Failure, Refused, failure_of};
use files65::{INFORMATION_LIMIT, Input, information_of, needed_contents};
use info65::{Info, Options, read_include};
use map65::{Image, ImageFault, read_image};

/// Adds the names of the include file at this index.
fn add_include(rt: &HostRuntime, info: &mut Info, index: usize) -> Result<(), Failure> {
    let Some(include) = info.includes().get(index) else {
        return Ok(());
    };
    let name = String::from_str(rt.alloc(), include.file.as_str())?;
    let bytes = needed_contents(rt, name.as_str(), INFORMATION_LIMIT)?;
    match read_include(rt.alloc(), info, index, &bytes) {
        Ok(()) => Ok(()),
        Err(fault) => Err(failure_of(fault.kind, Refused::Include(name, fault))),
    }
}

/// What the information file of these bytes says under the options, with the names of its include files.
pub fn information(rt: &HostRuntime, options: &Options, bytes: &[u8]) -> Result<Info, Failure> {
    let mut info = information_of(rt.alloc(), options, bytes)?;
    for index in 0..info.includes().len() {
        add_include(rt, &mut info, index)?;
    }
    Ok(info)
}

/// The failure for a fault of the image.
fn image_failure(fault: ImageFault) -> Failure
    /// A fault of the image is reported as that fault.
    ensures { result ≡ Own (Refused.Image fault) }
{
    Failure::Own(Refused::Image(fault))
}

/// The image that the settings ask for.
pub fn image(rt: &HostRuntime, info: &Info) -> Result<Image, Failure> {
    let Some(name) = info.settings().input.as_deref() else {
        return Err(Failure::Own(Refused::NoInput));
    };
    let mut input = Input::open(rt, name)?;
    read_image(rt.alloc(), info, &mut input).map_err(|fault| image_failure(fault))
}
