//! Whether names are of one file: an output that is an input, and a stream that two inputs would be read from.

use crate::fault::FileFault;
use info65::Info;
use std::fs::{Metadata, metadata};
use std::os::unix::fs::MetadataExt;
use usage65::FileNames;

/// What standard output is called.
pub const STANDARD_OUTPUT: &str = "/dev/stdout";

/// What both names are of, if they are of one file, pipe, terminal or the like, through links too.
fn in_common(rt: &HostRuntime, one: &str, other: &str) -> Option<Metadata> {
    match (metadata(rt, one), metadata(rt, other)) {
        (Ok(one), Ok(other)) if one.dev() == other.dev() && one.ino() == other.ino() => Some(one),
        _ => None,
    }
}

/// Whether the output is this input, by its name or through a link. Without a name it is standard output. A terminal or
/// a pipe can be both an input and an output.
fn is_input(rt: &HostRuntime, output: Option<&str>, input: &str) -> bool {
    if output == Some(input) {
        return true;
    }
    match in_common(rt, output.unwrap_or(STANDARD_OUTPUT), input) {
        Some(file) => file.is_file(),
        None => false,
    }
}

/// Whether two names are of one pipe, terminal or the like, whose bytes are read only once.
fn are_one_stream(rt: &HostRuntime, one: &str, other: &str) -> bool {
    match in_common(rt, one, other) {
        Some(found) => !found.is_file() && !found.is_dir(),
        None => false,
    }
}

/// Refuses an output that is one of these inputs, whether they are there or not.
/// Where it has no name, the input is named.
pub fn keep_inputs(
    rt: &HostRuntime,
    output: Option<&str>,
    inputs: &[Option<&str>],
) -> Result<(), FileFault> {
    for input in inputs {
        let Some(input) = *input else { continue };
        if is_input(rt, output, input) {
            let name = String::from_str(rt.alloc(), output.unwrap_or(input))?;
            return Err(FileFault::OutputIsInput(name));
        }
    }
    Ok(())
}

/// Refuses an output that is the image or an include file which an information file names, whether they are read or
/// not.
pub fn keep_named(rt: &HostRuntime, output: Option<&str>, info: &Info) -> Result<(), FileFault> {
    keep_inputs(rt, output, &[info.settings().input.as_deref()])?;
    for include in info.includes() {
        keep_inputs(rt, output, &[Some(include.file.as_str())])?;
    }
    Ok(())
}

/// Refuses two of these inputs that are one stream: the second would be empty.
pub fn keep_apart(rt: &HostRuntime, inputs: &[Option<&str>]) -> Result<(), FileFault> {
    for (at, one) in inputs.iter().enumerate() {
        for other in inputs.iter().skip(at + 1) {
            let (Some(one), Some(other)) = (*one, *other) else {
                continue;
            };
            if are_one_stream(rt, one, other) {
                return Err(FileFault::StreamTwice(String::from_str(rt.alloc(), one)?));
            }
        }
    }
    Ok(())
}

/// Refuses an output that is there and is no plain file, such as a folder or a device.
pub fn need_plain(rt: &HostRuntime, output: Option<&str>) -> Result<(), FileFault> {
    let Some(name) = output else { return Ok(()) };
    match metadata(rt, name) {
        Ok(found) if !found.is_file() && name != STANDARD_OUTPUT => {
            Err(FileFault::Special(String::from_str(rt.alloc(), name)?))
        }
        _ => Ok(()),
    }
}

/// Refuses an output that is an input or no file, and inputs that are one stream.
pub fn keep_files(rt: &HostRuntime, names: &FileNames) -> Result<(), FileFault> {
    let inputs = [names.info.as_deref(), Some(names.listing.as_str())];
    keep_inputs(rt, names.output.as_deref(), &inputs)?;
    need_plain(rt, names.output.as_deref())?;
    keep_apart(rt, &inputs)
}
