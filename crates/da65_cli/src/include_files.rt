//! The include files that an information file names.

ghost use Rattle.std.specs.Prelude.{◌≡◌, [], ◌∷◌, ◌++◌, IfNone, IfOk, IfSome, OnOk, map};
ghost use Rattle.std.specs.List.{list_any};
ghost use Rattle.da65.specs.Words.{files_seen};
ghost use Rattle.da65_cli.specs.Code.IncludeFiles.{content_seen, has_name};

use da65::File;
use files65::{INFORMATION_LIMIT, contents};
use std::alloc::{AllocError, AllocFailed, Global};

/// An include file that was read.
#[derive(Drop)]
pub struct Content {
    name: String,
    bytes: Vec<u8>,
}

/// A file of this name was read.
fn is_read(files: &[Content], name: &str) -> bool
    /// Returns whether a file of this name was read.
    ensures { result ≡ list_any (has_name name.now) files.now }
{
    files.iter().any(|file| file.name.as_str() == name)
}

/// Adds a file after the others, if it was read.
fn add(files: &mut Vec<Content>, name: String, read: Option<Vec<u8>>) -> Result<(), AllocError>
    /// Appends a file that was read, or runs out of memory; one that was not read changes nothing.
    ensures some { IfSome read (λ bytes. OnOk result (files.new.items
        ≡ files.old.items ++ record { name = name; bytes = bytes } ∷ [])) }
    ensures none { IfNone read (files.new.items ≡ files.old.items) }
{
    if let Some(bytes) = read {
        files.push(Content { name, bytes })?;
    }
    Ok(())
}

/// Reads the files of these names, each once and of each at most 1,048,577 bytes. One that can't be read is left out.
pub fn include_files(rt: &HostRuntime, names: Vec<String>) -> Result<Vec<Content>, AllocError> {
    let mut files = Vec::new(rt.alloc());
    for name in names {
        if is_read(&files, name.as_str()) {
            continue;
        }
        let read = contents(rt, name.as_str(), INFORMATION_LIMIT)?;
        add(&mut files, name, read)?;
    }
    Ok(files)
}

/// The files as a run takes them.
pub fn files_for_run(alloc: Global, files: &[Content]) -> Result<Vec<File<'_>>, AllocError>
    /// Returns the include files that were read, by their names, for the run; or out of memory.
    ensures { IfOk result (λ lent. files_seen lent.items ≡ map content_seen files.now) }
{
    let mut lent = Vec::new(alloc);
    for file in files {
        lent.push(File {
            name: file.name.as_str(),
            bytes: file.bytes.as_slice(),
        })?;
    }
    Ok(lent)
}
