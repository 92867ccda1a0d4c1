//! Says whether a listing moves: `move65 [options] [listing]`.
//!
//! In order: the options, then help or version, the information file, the listing, both images and their runs, and
//! the output, which is created only now: groups for the bytes that have not moved and must, and for those that
//! have and must not, and comments. The status is 0 if nothing parts, or if the help text or the version was
//! written; 1 if something does; and otherwise 2.
#![tactic(auto)]

mod command;
mod failure;
mod judge;
mod lines;
mod moving;
mod pair;
mod progress;
mod reading_back;
mod report;
mod request;
mod runs;
mod scene;
mod variables;
mod world;

use failure::Failure;
use files65::{
    Output, keep_files, obey, read_information, read_listing, said_after, say, write_text,
};
use moving::report_of;
use request::{Moving, request_of};
use std::process::ExitCode;

/// Reads the listing, and writes what is found to an output that is created only then. Returns whether something parts.
fn move_listing(rt: &HostRuntime, moving: &mut Moving) -> Result<bool, Failure> {
    keep_files(rt, &moving.names)?;
    let bytes = read_information(rt, moving.names.info.as_deref())?;
    let text = read_listing(rt, moving.names.listing.as_str())?;
    let moved = report_of(rt, moving, &bytes, &text)?;
    let mut output = Output::create_new(rt, moving.names.output.take())?;
    write_text(&mut output, moved.text.as_bytes())?;
    Ok(moved.parts)
}

fn main(rt: HostRuntime) -> ExitCode {
    match obey(&rt, request_of, move_listing) {
        Ok(false) => ExitCode::SUCCESS,
        Ok(true) => ExitCode::from(1),
        Err(failure) => {
            let text = format!(in rt.alloc(); "{failure}");
            let _ = say(&rt, "move65", text, said_after(&failure));
            ExitCode::from(2)
        }
    }
}
