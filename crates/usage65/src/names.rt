//! The files that a command line names.

ghost use Rattle.usage65.specs.Words.{names_apart, names_seen, text_seen};
ghost use Rattle.usage65.specs.Requests.{Gives};

use crate::file_names::{is_name, is_taken};
use crate::request_fault::RequestFault;
use crate::value::owned;
use std::alloc::Global;

/// The files of a program that reads a listing.
#[derive(Drop)]
pub struct FileNames {
    pub listing: String,
    /// The information file, if there is one.
    pub info: Option<String>,
    /// The output; without one standard output.
    pub output: Option<String>,
}

/// The files of these names. Standard input can be only one of the inputs, and the output has the name of neither.
#[tactic(auto, unfolding(crate::specs::Requests::names_apart))]
pub fn names_apart(
    alloc: Global,
    listing: &str,
    info: Option<&str>,
    output: Option<&str>,
) -> Result<FileNames, RequestFault>
    /// Returns the names of a listing, an information file and the output as given. At most one of them is standard
    /// input, and the output is none of the others; otherwise the first refusal in this order, or out of memory.
    ensures { Gives names_seen result (names_apart listing.now
        (text_seen info.entry) (text_seen output.entry)) }
{
    if is_taken(info, listing) {
        return Err(RequestFault::StandardTwice);
    }
    if let Some(name) = output {
        if name == listing || is_name(info, name) {
            return Err(RequestFault::OutputIsInput(String::from_str(alloc, name)?));
        }
    }
    Ok(FileNames {
        listing: String::from_str(alloc, listing)?,
        info: owned(alloc, info)?,
        output: owned(alloc, output)?,
    })
}
