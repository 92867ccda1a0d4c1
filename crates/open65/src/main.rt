//! Opens files as people have them: `open65 [options] input`.
//!
//! In order: the options, then help or version, the file, its kind and its parts, an information file for each of them,
//! which is read back, and what is written, only now. With `--back` images are put into a copy of the file, which is
//! read back too. The status is 0 if that was written, otherwise 1.
//!
//! `kinds` has the table of kinds, and each of `nes`, `atari`, `commodore`, `d64`, `apple`, `records` and `others`
//! reads some: it adds to what is `found`, with the `bytes` of the file. `opening` writes what is found, with `names`
//! and `information`, which say it as `text`; `back` puts images back.
#![tactic(auto)]

mod apple;
mod atari;
mod back;
mod bytes;
mod command;
mod commodore;
mod d64;
mod failure;
mod found;
mod information;
mod kinds;
mod names;
mod nes;
mod opening;
mod others;
mod records;
mod request;
mod text;

use back::with_images;
use bytes::Bytes;
use failure::{Failure, Refused};
use files65::{FileFault, Output, end, needed_contents, obey, write_text};
use found::Found;
use kinds::{Given, found_in};
use names::name_parts;
use opening::open;
use request::{Asked, request_of};
use std::alloc::AllocError;
use std::process::ExitCode;

/// The most that a file may have: 16 MiB.
const LIMIT: usize = 16_777_216;

/// The most that is read of an image: one byte more than there are addresses.
const IMAGE_LIMIT: usize = 65_537;

/// No image for each of the parts.
fn no_images(found: &Found<'_>) -> Result<Vec<Option<Vec<u8>>>, AllocError> {
    let mut images = Vec::new(found.alloc);
    for _ in &found.parts {
        images.push(None)?;
    }
    Ok(images)
}

/// The images of the words PART=IMAGE, in the places of the parts.
fn images_of(
    rt: &HostRuntime,
    words: &[String],
    found: &Found<'_>,
) -> Result<Vec<Option<Vec<u8>>>, Failure> {
    let mut images = no_images(found)?;
    for word in words {
        let (wanted, image) = word.as_str().split_once('=').unwrap_or(("", ""));
        let mut is_found = false;
        for (part, place) in found.parts.iter().zip(images.iter_mut()) {
            if part.name.as_str() == wanted || part.files.as_str() == wanted {
                *place = Some(needed_contents(rt, image, IMAGE_LIMIT)?);
                is_found = true;
            }
        }
        if !is_found {
            let name = String::from_str(rt.alloc(), wanted)?;
            return Err(Failure::Own(Refused::NoPart(name)));
        }
    }
    Ok(images)
}

/// Puts images back into what is found. The output is created once that is there.
fn put_back(rt: &HostRuntime, asked: &mut Asked, mut found: Found<'_>) -> Result<(), Failure> {
    name_parts(&mut found)?;
    let images = images_of(rt, &asked.images, &found)?;
    let bytes = with_images(&found, &images)?;
    let mut output = Output::create_new(rt, asked.output.take())?;
    Ok(write_text(&mut output, &bytes)?)
}

/// Opens the file, or puts images back.
fn run(rt: &HostRuntime, asked: &mut Asked) -> Result<(), Failure> {
    let Some(name) = asked.input.take() else {
        return Err(Failure::Own(Refused::NoInput));
    };
    if asked.is_back && (asked.output.is_none() || asked.images.is_empty()) {
        return Err(Failure::Own(Refused::NoImages));
    }
    let file = needed_contents(rt, name.as_str(), LIMIT + 1)?;
    if LIMIT < file.len() {
        return Err(Failure::File(FileFault::TooLarge));
    }
    let kind = asked.kind.take();
    let given = Given {
        name: name.as_str(),
        kind: kind.as_deref(),
        at: asked.at,
        bank: asked.bank,
    };
    let found = found_in(rt.alloc(), Bytes(&file), given);
    if found.lost {
        return Err(Failure::Memory);
    }
    if found.parts.is_empty() {
        let name = String::from_str(rt.alloc(), given.name)?;
        return Err(Failure::Own(Refused::Nothing(name)));
    }
    if asked.is_back {
        return put_back(rt, asked, found);
    }
    open(rt, asked, found)
}

fn main(rt: HostRuntime) -> ExitCode {
    end(&rt, "open65", obey(&rt, request_of, run))
}
