//! Writes a page of a listing with who refers to what: `html65 [options] [listing]`.
//!
//! In order: the options, then help or version, whether the output is an input, the information file, the listing, its
//! page, and the output, which is created only now. `page` has the promise: the text of the page is the listing, and
//! each link leads to one element. The status is 0 if the page, the help text or the version was written, otherwise 1.
//!
//! `survey` reads each of the `lines` once: the names, who refers to them and to numbers, by `way`, and what
//! `kind` the bytes are. `head`, `map`, `tables`, `calls`, `listing`, `uses` and `pictures` write the page, with
//! `markup`. `pieces` and `faults` read it back, with `ids`.
#![tactic(auto)]

mod calls;
mod command;
mod failure;
mod faults;
mod head;
mod ids;
mod kind;
mod lines;
mod listing;
mod map;
mod markup;
mod order;
mod page;
mod pictures;
mod pieces;
mod request;
mod survey;
mod tables;
mod uses;
mod way;

use failure::Failure;
use files65::{
    FileFault, Output, end, information_at, keep_files, keep_named, layout_of, obey,
    read_information, read_listing, repair, start_or_end, write_text,
};
use info65::Info;
use page::page_of;
use request::{Showing, request_of};
use std::process::ExitCode;

/// The most that a listing may have: 16 MiB, and this many lines.
const LIMIT: usize = 16_777_216;

const LINES: usize = 1_048_576;

/// Whether a listing has too many lines. None has more than bytes.
fn has_too_many_lines(text: &[u8]) -> bool {
    let feeds = text.iter().filter(|byte| **byte == b'\n');
    LINES < text.len() && LINES < feeds.count()
}

/// The listing of this name. It may be no longer than a page can show.
fn listing_in(rt: &HostRuntime, name: &str) -> Result<Vec<u8>, Failure> {
    let text = read_listing(rt, name)?;
    if LIMIT < text.len() || has_too_many_lines(&text) {
        return Err(Failure::File(FileFault::TooLarge));
    }
    Ok(text)
}

/// The page of the listing, whose information file says this. The output may not be what that file names either.
fn page_under(rt: &HostRuntime, showing: &Showing, info: &Info) -> Result<Vec<u8>, Failure> {
    let names = &showing.names;
    keep_named(rt, names.output.as_deref(), info)?;
    let text = listing_in(rt, names.listing.as_str())?;
    let layout = layout_of(rt.alloc(), info.segments(), showing.fill)?;
    let start = start_or_end(rt.alloc(), info.settings().start, &layout, &text)?;
    page_of(rt.alloc(), showing, &repair(&layout, start, &text))
}

/// The page of these files.
fn page_for(rt: &HostRuntime, showing: &Showing) -> Result<Vec<u8>, Failure> {
    let bytes = read_information(rt, showing.names.info.as_deref())?;
    let info = information_at(rt.alloc(), showing.start, &bytes)?;
    page_under(rt, showing, &info)
}

/// Reads the listing, and writes its page. The output is created once that is there.
fn show(rt: &HostRuntime, showing: &mut Showing) -> Result<(), Failure> {
    keep_files(rt, &showing.names)?;
    let text = page_for(rt, showing)?;
    let mut output = Output::create(rt, showing.names.output.take())?;
    Ok(write_text(&mut output, &text)?)
}

fn main(rt: HostRuntime) -> ExitCode {
    end(&rt, "html65", obey(&rt, request_of, show))
}
