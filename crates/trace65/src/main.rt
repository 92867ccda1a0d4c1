//! Says what the code of an image reaches: `trace65 [options] [image]`.
//!
//! In order: the options, then help or version, the information file, its include files, the image, what is
//! found, and the output, which is created only now. The output is text of an information file: a picture of the
//! image as comments, a range for each stretch of bytes that nothing speaks for, labels, and lines `#: ..` for
//! addresses that code loads in halves and for what lies after the image. The status is 0 if the text, the help
//! text or the version was written, otherwise 1.
#![tactic(auto)]

mod advice;
mod calls;
mod check;
mod command;
mod failure;
mod information;
mod report;
mod request;
mod skips;
mod text;
mod unshown;

use calls::lines_of;
use failure::Failure;
use files65::{
    Output, end, information_of, keep_named, obey, read_information, tags_of, write_text,
};
use info65::{Info, Options, Tag};
use information::{image, information};
use map65::{Image, Map};
use report::{InfoFile, report_of};
use request::{Tracing, request_of};
use std::process::ExitCode;

/// What is read of an image: an information file, what it says with its include files, and its groups `#: ..`.
#[derive(Drop)]
struct Read {
    bytes: Vec<u8>,
    info: Info,
    tags: Vec<Tag>,
}

impl Read {
    /// Reads what an information file of these bytes says.
    fn of(rt: &HostRuntime, options: &Options, bytes: Vec<u8>) -> Result<Read, Failure> {
        let info = information(rt, options, &bytes)?;
        let tags = tags_of(rt.alloc(), &bytes)?;
        Ok(Read { bytes, info, tags })
    }

    /// Reads what the information file says with these lines added to it.
    fn with(&self, rt: &HostRuntime, options: &Options, lines: &[u8]) -> Result<Read, Failure> {
        let mut bytes = Vec::from_slice(rt.alloc(), &self.bytes)?;
        bytes.extend_from_slice(lines)?;
        Read::of(rt, options, bytes)
    }

    /// The text that is written of an image of this map.
    fn text(&self, rt: &HostRuntime, tracing: &Tracing, map: &Map<'_>) -> Result<Vec<u8>, Failure> {
        // What the file says without the names of its include files, if it has any.
        let alone = match self.info.includes() {
            [] => None,
            _ => Some(information_of(rt.alloc(), &tracing.options, &self.bytes)?),
        };
        let file = InfoFile {
            bytes: &self.bytes,
            info: alone.as_ref().unwrap_or(&self.info),
            tags: &self.tags,
        };
        Ok(report_of(rt.alloc(), map, &file, tracing)?.into_text())
    }

    /// The same of an image.
    fn text_of(
        &self,
        rt: &HostRuntime,
        tracing: &Tracing,
        image: &Image,
    ) -> Result<Vec<u8>, Failure> {
        self.text(rt, tracing, &Map::build(rt.alloc(), &self.info, image)?)
    }
}

/// The text that is written of what is read. What stands behind calls, and what a line of BASIC calls, is added to the
/// information file before the rest is found.
fn text_of(
    rt: &HostRuntime,
    tracing: &Tracing,
    read: &Read,
    image: &Image,
) -> Result<Vec<u8>, Failure> {
    let map = Map::build(rt.alloc(), &read.info, image)?;
    if tracing.plain {
        return read.text(rt, tracing, &map);
    }
    let mut lines = lines_of(rt.alloc(), &map, &read.tags, &tracing.entries)?;
    if lines.is_empty() {
        return read.text(rt, tracing, &map);
    }
    let read = read.with(rt, &tracing.options, &lines)?;
    let text = read.text_of(rt, tracing, image)?;
    if tracing.whole {
        return Ok(text);
    }
    lines.extend_from_slice(&text)?;
    Ok(lines)
}

/// The text that is written.
fn traced_text(rt: &HostRuntime, tracing: &Tracing) -> Result<Vec<u8>, Failure> {
    let options = &tracing.options;
    let read = Read::of(rt, options, read_information(rt, options.info.as_deref())?)?;
    // The text may be added to the information file itself.
    keep_named(rt, tracing.output.as_deref(), &read.info)?;
    let image = image(rt, &read.info)?;
    text_of(rt, tracing, &read, &image)
}

/// Writes what is found in the image. The output is created once the text is there.
fn trace(rt: &HostRuntime, tracing: &mut Tracing) -> Result<(), Failure> {
    let text = traced_text(rt, tracing)?;
    let mut output = Output::create_new(rt, tracing.output.take())?;
    Ok(write_text(&mut output, &text)?)
}

fn main(rt: HostRuntime) -> ExitCode {
    end(&rt, "trace65", obey(&rt, request_of, trace))
}
