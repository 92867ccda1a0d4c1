//! The contents of files.

ghost use Rattle.std.specs.Prelude.{◌≡◌, ◌<◌, ◌≤◌, [], length, take, IfErr, IfNone, IfOk, IfSome, IsErr, IsOkAnd, MatchOption, Ok, Err};
ghost use Rattle.usage65.specs.Words.{text_seen};
ghost use Rattle.files65.specs.Faults.{CountsMissing, IsEmpty, IsUnread};

use crate::fault::FileFault;
use crate::input::Input;
use info65::MOST_BYTES;
use map65::{Source, TakeFault, take_up_to};
use std::alloc::{AllocError, Global};

/// The most that is read of an information file or of an include file: one byte more than it may have, so that a longer
/// one is refused.
pub const INFORMATION_LIMIT: usize = MOST_BYTES + 1;

/// The most that a listing may have: 64 MiB.
const LISTING_LIMIT: usize = 67_108_864;

/// Reads up to the end or the limit. There are no contents if a read fails.
pub fn read_from<R: Source>(
    alloc: Global,
    input: &mut R,
    limit: usize,
) -> Result<Option<Vec<u8>>, AllocError>
    /// Returns what a device has left, if it reports that, up to a limit. The count of failed reads rises by one if
    /// there are no contents, and stays if there are, so a failed read never counts as the end; or out of memory.
    ensures bytes { IfOk result (λ found. IfSome found (λ bytes.
        IfSome (R.left input.old) (λ xs. bytes.items ≡ take limit xs))) }
    ensures count { IfOk result (CountsMissing (R.faults input.old) (R.faults input.new)) }
{
    match take_up_to(alloc, input, limit) {
        Ok(bytes) => Ok(Some(bytes)),
        Err(TakeFault::Memory) => Err(AllocError),
        Err(TakeFault::Read) => Ok(None),
    }
}

/// The bytes of the file of this name, of which at most `limit` are read. None if it can't be opened or read.
/// No contract can say what a file has: `read_from` says what is kept of it.
pub fn contents(rt: &HostRuntime, name: &str, limit: usize) -> Result<Option<Vec<u8>>, AllocError> {
    match Input::open(rt, name) {
        Ok(mut input) => read_from(rt.alloc(), &mut input, limit),
        Err(FileFault::Memory) => Err(AllocError),
        Err(_) => Ok(None),
    }
}

/// The contents of the file of this name, or that it can't be read.
fn contents_or_fault(alloc: Global, read: Option<Vec<u8>>, name: &str) -> Result<Vec<u8>, FileFault>
    /// Reports a file by its name exactly if it has no contents; or out of memory.
    ensures some { IfSome read (λ bytes. result ≡ Ok bytes) }
    ensures none { IfNone read (IsErr result) }
    ensures name { IfNone read (IfErr result (IsUnread name.now)) }
{
    match read {
        Some(bytes) => Ok(bytes),
        None => Err(FileFault::Reading(String::from_str(alloc, name)?)),
    }
}

/// The contents of a file that must be there: fails with `Reading` if it can't be opened or read.
pub fn needed_contents(rt: &HostRuntime, name: &str, limit: usize) -> Result<Vec<u8>, FileFault>
    /// Reading a file that is needed fails only because it can't be read, with its name, or out of memory.
    ensures { IfErr result (IsUnread name.now) }
{
    let read = contents(rt, name, limit)?;
    contents_or_fault(rt.alloc(), read, name)
}

/// The bytes of the information file, of which at most 1,048,577 are read; without a name none. Fails with
/// `Reading` if it can't be opened or read.
pub fn read_information(rt: &HostRuntime, name: Option<&str>) -> Result<Vec<u8>, FileFault>
    /// Without the name of an information file, returns no bytes. With one, reading fails only because it can't be
    /// read, with its name, or out of memory.
    ensures { MatchOption (text_seen name.entry)
        (IsOkAnd result (λ bytes. bytes.items ≡ [])) (λ n. IfErr result (IsUnread n)) }
{
    match name {
        Some(name) => needed_contents(rt, name, INFORMATION_LIMIT),
        None => Ok(Vec::new(rt.alloc())),
    }
}

/// The text of the listing of this name, if it has neither too few bytes nor too many.
fn listing_of(alloc: Global, name: &str, text: Vec<u8>) -> Result<Vec<u8>, FileFault>
    /// A listing is accepted exactly if it has from 1 to 67,108,864 bytes; one without a byte is reported by its
    /// name, or memory ran out.
    ensures some { 0 < length text.items → length text.items ≤ 67108864 → result ≡ Ok text }
    ensures none { length text.items ≡ 0 → IfErr result (IsEmpty name.now) }
    ensures large { 67108864 < length text.items → result ≡ Err FileFault.TooLarge }
    ensures empty { length text.items ≡ 0 → IsErr result }
{
    if text.is_empty() {
        return Err(FileFault::Empty(String::from_str(alloc, name)?));
    }
    if LISTING_LIMIT < text.len() {
        return Err(FileFault::TooLarge);
    }
    Ok(text)
}

/// The text of the listing of this name. A listing without a byte is refused, since da65 never writes one: it is what
/// a refused run leaves. So is one of more than 64 MiB.
pub fn read_listing(rt: &HostRuntime, name: &str) -> Result<Vec<u8>, FileFault> {
    let text = needed_contents(rt, name, LISTING_LIMIT + 1)?;
    listing_of(rt.alloc(), name, text)
}
