//! A file is opened: its parts are listed, and their files written.

use crate::failure::{Failure, Refused};
use crate::found::{Found, Part};
use crate::information::{Source, information};
use crate::names::{name_parts, put_lines};
use crate::request::Asked;
use crate::text::Text;
use files65::{FileFault, Output, write_text};
use std::alloc::{AllocError, Global};
use std::fs::metadata;

/// Where the names of machines are looked for.
const FOLDERS: [&str; 3] = [
    "names",
    "/usr/local/share/da65/names",
    "/usr/share/da65/names",
];

/// The name of a file of a folder, if there is one.
fn path(alloc: Global, folder: Option<&str>, name: &str, end: &str) -> Result<String, AllocError> {
    let mut text = Text::new(alloc);
    text.say(folder.unwrap_or(""));
    text.say(if folder.is_some() { "/" } else { "" });
    text.say(name);
    text.say(end);
    text.string(alloc)
}

/// The include file of the names of the machine, if there is one. One that the command line asks for has to be there.
fn include_of(rt: &HostRuntime, asked: &Asked, machine: &str) -> Result<Option<String>, Failure> {
    let machine = asked.machine.as_deref().unwrap_or(machine);
    if machine.is_empty() || machine == "none" {
        return Ok(None);
    }
    for folder in FOLDERS {
        let folder = asked.names.as_deref().unwrap_or(folder);
        let name = path(rt.alloc(), Some(folder), machine, ".inc")?;
        if metadata(rt, name.as_str()).is_ok() {
            return Ok(Some(name));
        }
        if asked.names.is_some() {
            return Err(Failure::File(FileFault::Reading(name)));
        }
    }
    if asked.machine.is_none() {
        return Ok(None);
    }
    let name = path(rt.alloc(), Some("names"), machine, ".inc")?;
    Err(Failure::File(FileFault::Reading(name)))
}

/// Refuses a name that is there.
fn need_new(rt: &HostRuntime, name: String) -> Result<(), Failure> {
    match metadata(rt, name.as_str()) {
        Ok(_) => Err(Failure::File(FileFault::Exists(name))),
        Err(_) => Ok(()),
    }
}

/// Writes a new file.
fn write_new(rt: &HostRuntime, name: String, bytes: &[u8]) -> Result<(), Failure> {
    let mut output = Output::create_new(rt, Some(name))?;
    Ok(write_text(&mut output, bytes)?)
}

/// Writes the information file of a part, and its bytes if they do not follow each other in the file.
fn write_part(
    rt: &HostRuntime,
    found: &Found<'_>,
    part: &Part,
    (folder, include): (Option<&str>, Option<&str>),
) -> Result<(), Failure> {
    let image = found.image(part)?;
    let own = path(rt.alloc(), folder, part.files.as_str(), ".bin")?;
    let is_own = part.place().is_none();
    let name = if is_own {
        own.as_str()
    } else {
        found.given.name
    };
    let source = Source {
        part,
        image: &image,
        name,
        include,
    };
    let text = information(found, &source)?;
    write_new(
        rt,
        path(rt.alloc(), folder, part.files.as_str(), ".info")?,
        &text,
    )?;
    if is_own {
        write_new(rt, own, &image)?;
    }
    Ok(())
}

/// Writes the files of all parts. If one of their names is there, none is written.
fn write_parts(rt: &HostRuntime, asked: &Asked, found: &Found<'_>) -> Result<(), Failure> {
    let folder = asked.folder.as_deref();
    for part in &found.parts {
        for end in [".info", ".bin"] {
            if end == ".info" || part.place().is_none() {
                need_new(rt, path(rt.alloc(), folder, part.files.as_str(), end)?)?;
            }
        }
    }
    let include = include_of(rt, asked, found.machine)?;
    for part in &found.parts {
        write_part(rt, found, part, (folder, include.as_deref()))?;
    }
    Ok(())
}

/// Whether a part is the file of this name.
fn is_file(part: &Part, wanted: Option<&str>) -> bool {
    match wanted {
        Some(wanted) => {
            part.title.eq_ignore_ascii_case(wanted.as_bytes()) || part.name.as_str() == wanted
        }
        None => true,
    }
}

/// Writes the files of what is found in a file, unless it is only listed, and the lines that list it.
pub fn open(rt: &HostRuntime, asked: &Asked, mut found: Found<'_>) -> Result<(), Failure> {
    name_parts(&mut found)?;
    let wanted = asked.file.as_deref();
    found.parts.retain(|part| is_file(part, wanted));
    if found.parts.is_empty() {
        let name = String::from_str(rt.alloc(), wanted.unwrap_or(""))?;
        return Err(Failure::Own(Refused::NoFile(name)));
    }
    if !asked.is_list {
        write_parts(rt, asked, &found)?;
    }
    let mut text = Text::new(rt.alloc());
    put_lines(&mut text, &found);
    let text = text.whole()?;
    Ok(write_text(&mut Output::standard(rt), &text)?)
}
