//! Assembles a listing: `as65 [options] [listing]`.
//!
//! In order: the options, then help or version, whether the output is an input, the information file and whether the
//! output is what it names, the image to compare with, the listing, its bytes, whether its segments have a place and
//! its labels are in place, and the output, which is created only now. With `--compare` nothing is written but the
//! differences from the image, on standard output. `status` has the statuses.
#![tactic(auto)]

mod assembled;
mod changes;
mod command;
mod comparison;
mod differences;
mod failure;
mod image;
mod information;
mod labels;
mod lines;
mod message;
mod moves;
mod named_start;
mod origins;
mod parts;
mod request;
mod scene;
mod segments;
mod sizes;
mod status;
mod stretches;

use assembled::{Assembled, Listed, need_bytes};
use comparison::compare;
use failure::{Failure, Refused};
use files65::{
    Output, Placeholders, keep_apart, keep_inputs, keep_named, layout_of, read_listing, repair,
    write_text,
};
use image::image;
use info65::Info;
use information::{information, placed_at};
use labels::names_in;
use map65::Image;
use message::{say, say_starts};
use moves::need_in_place;
use named_start::named_start;
use request::{Comparing, Work, Writing, is_compared_by, is_comparing, request_of};
use segments::need_segments;
use sizes::need_size;
use status::{Ended, status_of};
use std::process::ExitCode;
use usage65::{FileNames, Request, RequestFault, words_of};

/// The image that the information file has by its INPUTNAME. The listing may not be the same stream.
fn named_image(rt: &HostRuntime, listing: &str, info: &Info) -> Result<Option<Image>, Failure> {
    let Some(name) = info.settings().input.as_deref() else {
        return Ok(None);
    };
    keep_apart(rt, &[Some(listing), Some(name)])?;
    Ok(Some(image(rt, name, info)?))
}

/// Where the information file, under the start of the command line, places the bytes of a listing.
fn start_in(rt: &HostRuntime, names: &FileNames, info: &Info) -> Result<u16, Failure> {
    if let Some(start) = placed_at(info.settings()) {
        return Ok(start);
    }
    if let Some(image) = named_image(rt, names.listing.as_str(), info)? {
        return Ok(image.start());
    }
    match names.info.as_deref() {
        Some(name) => {
            let name = String::from_str(rt.alloc(), name)?;
            Err(Failure::Own(Refused::NoStart(name)))
        }
        None => Err(Failure::Request(RequestFault::NoStart)),
    }
}

/// How many bytes the information file says that there are: INPUTSIZE, or those of its INPUTNAME.
fn len_in(rt: &HostRuntime, listing: &str, info: &Info) -> Result<Option<usize>, Failure> {
    match info.settings().size {
        Some(size) => Ok(Some(size as usize)),
        None => Ok(named_image(rt, listing, info)?.map(|image| image.bytes().len())),
    }
}

/// Reads the listing, and writes its bytes or its names. The output may not be what the information file names either,
/// and is created once they are there.
fn write_listing(rt: &HostRuntime, writing: &mut Writing, info: &Info) -> Result<Ended, Failure> {
    let names = &mut writing.names;
    keep_named(rt, names.output.as_deref(), info)?;
    let start = start_in(rt, names, info)?;
    let layout = layout_of(rt.alloc(), info.segments(), writing.place.fill)?;
    let name = names.listing.as_str();
    let text = read_listing(rt, name)?;
    let source = repair(&layout, start, &text);
    if writing.labels {
        let text = names_in(rt.alloc(), &source, name)?;
        need_segments(rt.alloc(), &source, name, info.segments())?;
        write_text(&mut Output::create(rt, names.output.take())?, &text)?;
    } else {
        let assembled = Assembled::new(rt.alloc(), &source, name)?;
        need_bytes(rt.alloc(), &assembled, name)?;
        need_segments(rt.alloc(), &source, name, info.segments())?;
        if writing.place.in_place {
            need_in_place(rt.alloc(), &assembled, name)?;
            need_size(rt.alloc(), &assembled, name, len_in(rt, name, info)?)?;
        }
        assembled.write(&mut Output::create(rt, names.output.take())?)?;
    }
    Ok(Ended::Done)
}

/// Reads what says where the image is, and writes it.
fn write_image(rt: &HostRuntime, writing: &mut Writing) -> Result<Ended, Failure> {
    let names = &writing.names;
    let inputs = [names.info.as_deref(), Some(names.listing.as_str())];
    keep_inputs(rt, names.output.as_deref(), &inputs)?;
    keep_apart(rt, &inputs)?;
    let info = information(rt, names.info.as_deref(), writing.place.start)?;
    write_listing(rt, writing, &info)
}

/// Reads the image and the listing, and writes on standard output where their bytes differ.
fn compare_under(rt: &HostRuntime, comparing: &Comparing, info: &Info) -> Result<Ended, Failure> {
    keep_named(rt, None, info)?;
    let image = image(rt, comparing.image.as_str(), info)?;
    let layout = layout_of(rt.alloc(), info.segments(), comparing.place.fill)?;
    let name = comparing.names.listing.as_str();
    let text = read_listing(rt, name)?;
    let source = repair(&layout, image.start(), &text);
    let alloc = rt.alloc();
    let listed = Listed::new(&alloc, &source, name)?;
    let assembled = listed.assembled();
    need_bytes(alloc, assembled, name)?;
    need_segments(alloc, &source, name, info.segments())?;
    if info.settings().start.is_none() && image.bytes() != assembled.bytes() {
        let named = named_start(alloc, &image, &listed)?;
        say_starts(rt, comparing.image.as_str(), image.start(), named)?;
    }
    compare(alloc, &image, &listed, &mut Output::standard(rt))
}

/// Reads what says where the image is, and compares. The output is standard output.
fn compare_with(rt: &HostRuntime, comparing: &Comparing) -> Result<Ended, Failure> {
    let names = &comparing.names;
    let info = names.info.as_deref();
    let inputs = [
        info,
        Some(comparing.image.as_str()),
        Some(names.listing.as_str()),
    ];
    keep_inputs(rt, None, &inputs)?;
    keep_apart(rt, &inputs)?;
    let info = information(rt, info, comparing.place.start)?;
    compare_under(rt, comparing, &info)
}

fn program(rt: &HostRuntime, words: &[String]) -> Result<Ended, Failure> {
    // Messages to a closed standard error must not end up in the output file.
    let _placeholders = Placeholders::take(rt)?;
    match request_of(rt.alloc(), words)? {
        Request::Text(text) => {
            write_text(&mut Output::standard(rt), &text)?;
            Ok(Ended::Done)
        }
        Request::Run(Work::Write(mut writing)) => write_image(rt, &mut writing),
        Request::Run(Work::Compare(comparing)) => compare_with(rt, &comparing),
    }
}

/// How the program ends, after a message where it gives up.
fn end(rt: &HostRuntime, is_comparing: bool, outcome: Result<Ended, Failure>) -> ExitCode {
    if let Err(failure) = &outcome {
        say(rt, failure);
    }
    ExitCode::from(status_of(is_comparing, outcome.ok()))
}

fn main(rt: HostRuntime) -> ExitCode {
    match words_of(&rt) {
        Ok(words) => end(&rt, is_comparing(&words), program(&rt, &words)),
        Err(fault) => end(&rt, is_compared_by(&rt), Err(Failure::from(fault))),
    }
}
