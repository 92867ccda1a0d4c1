//! Writes addresses in a listing by their names, so that it moves: `name65 [options] [listing]`.
//!
//! In order: the options, then help or version, whether the output is an input, the information file, the listing, its
//! text by names, and the output, which is created only now. `listing_by_names` has the promise: the text has the bytes
//! of the listing. The status is 0 if the text, the help text or the version was written, otherwise 1.
#![tactic(auto)]

mod by_address;
mod changed_line;
mod changes;
mod command;
mod compared;
mod complaint;
mod constant_line;
mod constants;
mod failure;
mod known;
mod labels_first;
mod listing;
mod marks;
mod named_text;
mod operands;
mod plan;
mod reference;
mod request;
mod rewriting;
mod setup;
mod used_names;
mod wishes;

use failure::Failure;
use files65::{
    Output, end, information_at, keep_files, keep_named, obey, read_information, read_listing,
    tags_of, write_text,
};
use listing::listing_by_names;
use request::{Naming, request_of};
use setup::Setup;
use std::process::ExitCode;

/// The listing of these files by names. The output may not be what the information file names either.
fn named_listing(rt: &HostRuntime, naming: &Naming) -> Result<Vec<u8>, Failure> {
    let bytes = read_information(rt, naming.names.info.as_deref())?;
    let info = information_at(rt.alloc(), naming.start, &bytes)?;
    keep_named(rt, naming.names.output.as_deref(), &info)?;
    let tags = tags_of(rt.alloc(), &bytes)?;
    let text = read_listing(rt, naming.names.listing.as_str())?;
    let setup = Setup {
        naming,
        info: &info,
        tags: &tags,
    };
    listing_by_names(rt.alloc(), &setup, &text)
}

/// Reads the listing and the groups, and writes the listing by names. The output is created once that is there.
fn name_listing(rt: &HostRuntime, naming: &mut Naming) -> Result<(), Failure> {
    keep_files(rt, &naming.names)?;
    let text = named_listing(rt, naming)?;
    let mut output = Output::create(rt, naming.names.output.take())?;
    Ok(write_text(&mut output, &text)?)
}

fn main(rt: HostRuntime) -> ExitCode {
    end(&rt, "name65", obey(&rt, request_of, name_listing))
}
