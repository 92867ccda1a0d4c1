//! What a run lists its input by: what the information file says, with the names of its include files.

ghost use Rattle.std.specs.Prelude.{◌≡◌, ◌≢◌, ◌<◌, ◌≤◌, Some, length};
ghost use Rattle.da65.specs.Words.{AddsNames, IsNameAt, NamesAll, Prepares, PreparesBy, PreparesWith, StopsFor, files_seen, listed_by, with_include};

use crate::runs::files::{File, file_named};
use crate::runs::messages::{
    Message, include_message, info_message, missing_message, no_input_message,
};
use info65::{Inclusion, Info, InfoFault, InfoFaultKind, NamePool};
use std::alloc::Allocator;

/// Why a run ends before it reads its input.
#[derive(Drop)]
pub(crate) enum Stop {
    /// Memory ran out.
    Memory,
    /// The run is refused with this message.
    Refused(Message),
}

/// The end of a run for a fault of a file, which has this message.
fn stop_of(fault: InfoFault, message: Message) -> Stop
    /// A file that ran out of memory ends the run with Memory; any other fault refuses it with the file's message.
    ensures stops { StopsFor fault message.items result }
    ensures memory { result ≡ Stop.Memory → fault.kind ≡ InfoFaultKind.Memory }
    ensures refused { fault.kind ≢ InfoFaultKind.Memory → result ≡ Stop.Refused message }
{
    if fault.kind == InfoFaultKind::Memory {
        Stop::Memory
    } else {
        Stop::Refused(message)
    }
}

/// With the names of the include file at this index, which has this name and these bytes.
fn with_bytes<'a, A: Allocator + Copy>(
    included: Inclusion<'a, A>,
    index: usize,
    name: &[u8],
    bytes: &'a [u8],
) -> Result<Inclusion<'a, A>, Stop>
    requires place { index < length included.includes }
    requires name { length name.now ≤ 255 }
    ensures { Prepares result (with_include index name.now included.entry (Some bytes.entry.now)) }
{
    match included.with(index, bytes) {
        Ok(more) => Ok(more),
        Err(fault) => Err(stop_of(fault, include_message(name, fault))),
    }
}

/// The name of the include file at this index.
fn name_at<'a, A: Allocator + Copy>(included: &Inclusion<'a, A>, index: usize) -> &'a str
    requires { index < length included.now.includes }
    ensures name { IsNameAt included.now index result.now }
    ensures short { length result.now ≤ 255 }
{
    let include = &included.includes()[index];
    include.file.as_str()
}

/// With the names of the include file at this index.
fn with_include<'a, 'f: 'a, A: Allocator + Copy>(
    included: Inclusion<'a, A>,
    index: usize,
    files: &[File<'f>],
) -> Result<Inclusion<'a, A>, Stop>
    requires { index < length included.includes }
    ensures { PreparesWith result (files_seen files.now) index included.entry }
{
    let name = name_at(&included, index);
    match file_named(files, name) {
        Some(bytes) => with_bytes(included, index, name.as_bytes(), bytes),
        None => Err(Stop::Refused(missing_message(name.as_bytes()))),
    }
}

/// How many bytes the files have together.
fn bytes_of(files: &[File]) -> usize {
    let mut bytes = 0usize;
    for file in files {
        bytes = bytes.saturating_add(file.bytes.len());
    }
    bytes
}

/// The names of the information file with those of all include files, in the order of their groups.
fn all_names<'a, 'f: 'a, A: Allocator + Copy>(
    alloc: A,
    info: &'a Info<A>,
    files: &[File<'f>],
) -> Result<NamePool<A>, Stop>
    ensures { NamesAll result (files_seen files.now) info.entry.now }
{
    let Ok(mut included) = Inclusion::of(alloc, info, bytes_of(files)) else {
        return Err(Stop::Memory);
    };
    for index in 0..info.includes().len() {
        included = with_include(included, index, files)?;
    }
    match included.names(alloc) {
        Ok(names) => Ok(names),
        Err(_) => Err(Stop::Memory),
    }
}

/// Adds the names of all include files, if an input is named and no file is refused.
fn add_includes<A: Allocator + Copy>(
    alloc: A,
    info: &mut Info<A>,
    files: &[File<'_>],
) -> Result<(), Stop>
    ensures { AddsNames result info.new (listed_by (files_seen files.now) info.old) }
{
    if info.settings().input.is_none() {
        return Err(Stop::Refused(no_input_message()));
    }
    if info.includes().is_empty() {
        return Ok(());
    }
    let names = all_names(alloc, info, files)?;
    info.set_names(names);
    Ok(())
}

/// Asks for an input name, and adds the names of the include files to what the information file says.
pub(crate) fn prepare<A: Allocator + Copy>(
    alloc: A,
    read: Result<Info<A>, InfoFault>,
    files: &[File<'_>],
) -> Result<Info<A>, Stop>
    ensures { PreparesBy result read (files_seen files.now) }
{
    match read {
        Ok(mut info) => match add_includes(alloc, &mut info, files) {
            Ok(()) => Ok(info),
            Err(stop) => Err(stop),
        },
        Err(fault) => Err(stop_of(fault, info_message(fault))),
    }
}
