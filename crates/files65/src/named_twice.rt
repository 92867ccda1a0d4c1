//! Which earlier group of an information file names the address that a later one names too. It is advice.

use info65::{Info, InfoFaultKind, Options, read_info};
use std::alloc::{AllocError, Global};
use text65::first_line;

/// How many lines of a group are looked at, from its last one back.
const GROUP_LINES: usize = 64;

/// The length of so many lines, at most that of the text.
fn length_of(bytes: &[u8], lines: usize) -> usize {
    let mut left = lines;
    for (at, byte) in bytes.iter().enumerate() {
        if left == 0 {
            return at;
        }
        if *byte == b'\n' {
            left = left.saturating_sub(1);
        }
    }
    bytes.len()
}

/// The first address that has a name.
fn first_named(info: &Info) -> Option<u16> {
    if info.given_count() == 0 {
        return None;
    }
    Some(info.given(0).address)
}

/// The first address that a text names which is an information file of its own.
fn address_in(alloc: Global, text: &[u8]) -> Result<Option<u16>, AllocError> {
    let options: Options = Options::none();
    match read_info(alloc, &options, text) {
        Ok(info) => Ok(first_named(&info)),
        Err(fault) if fault.kind == InfoFaultKind::Memory => Err(AllocError),
        Err(_) => Ok(None),
    }
}

/// The address that the group names which ends on a line, and the length of what comes before it.
fn group_to(alloc: Global, bytes: &[u8], line: usize) -> Result<Option<(u16, usize)>, AllocError> {
    let end = length_of(bytes, line);
    for count in 1..=GROUP_LINES.min(line) {
        let begin = length_of(bytes, line.saturating_sub(count));
        if let Some(address) = address_in(alloc, bytes.get(begin..end).unwrap_or(&[]))? {
            return Ok(Some((address, begin)));
        }
    }
    Ok(None)
}

/// The name of an address.
fn name_of(alloc: Global, info: &Info, address: u16) -> Result<Option<String>, AllocError> {
    match info.covering(address) {
        Some(given) if given.address == address => match str::from_utf8(given.text) {
            Ok(text) => Ok(Some(String::from_str(alloc, text)?)),
            Err(_) => Ok(None),
        },
        _ => Ok(None),
    }
}

/// The name that a text gives to an address.
fn name_in(
    alloc: Global,
    options: &Options,
    text: &[u8],
    address: u16,
) -> Result<Option<String>, AllocError> {
    match read_info(alloc, options, text) {
        Ok(info) => name_of(alloc, &info, address),
        Err(fault) if fault.kind == InfoFaultKind::Memory => Err(AllocError),
        Err(_) => Ok(None),
    }
}

/// Whether bytes stand somewhere in a line.
fn has(line: &[u8], part: &[u8]) -> bool {
    for at in 0..line.len() {
        if line[at..].starts_with(part) {
            return true;
        }
    }
    false
}

/// The first line that has a name between quotes, from 1.
fn line_of(alloc: Global, bytes: &[u8], name: &[u8]) -> Result<Option<usize>, AllocError> {
    let mut quoted = Vec::from_slice(alloc, b"\"")?;
    quoted.extend_from_slice(name)?;
    quoted.extend_from_slice(b"\"")?;
    let mut number = 1usize;
    let mut rest = bytes;
    'lines: while let Some((line, after)) = first_line(rest) {
        if has(line, &quoted) {
            return Ok(Some(number));
        }
        number = number.saturating_add(1);
        rest = after;
    }
    Ok(None)
}

/// The line of an information file and the name on it that name the address already which the
/// group that ends on this line names again.
pub fn named_twice(
    alloc: Global,
    options: &Options,
    bytes: &[u8],
    line: usize,
) -> Result<Option<(usize, String)>, AllocError> {
    let Some((address, begin)) = group_to(alloc, bytes, line)? else {
        return Ok(None);
    };
    let before = bytes.get(..begin).unwrap_or(&[]);
    let Some(name) = name_in(alloc, options, before, address)? else {
        return Ok(None);
    };
    match line_of(alloc, before, name.as_str().as_bytes())? {
        Some(line) => Ok(Some((line, name))),
        None => Ok(None),
    }
}
