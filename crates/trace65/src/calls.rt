//! What stands behind the calls of routines that pull their return address, and what a line of BASIC calls, as lines
//! for the information file, before the code is followed.

use entries65::basic::called_by_basic;
use entries65::pulls::{PRODOS, Pulls, Words, pulls_of};
use info65::{Tag, TagKind};
use map65::Map;
use std::alloc::{AllocError, Global};
use text65::put_address;

/// Adds a RANGE for the words behind a call.
fn put_words(lines: &mut Vec<u8>, words: Words) -> Result<(), AllocError> {
    let call = usize::from(words.call);
    put_address(lines, b"RANGE { START $", call.saturating_add(3))?;
    put_address(lines, b"; END $", usize::from(words.end).saturating_sub(1))?;
    put_address(lines, b"; TYPE AddrTable; }; # behind the call at $", call)?;
    lines.extend_from_slice(b"\n")
}

/// Adds a group ENTRY for the address that the line of BASIC calls with which the image begins, unless it is one of
/// these entries.
fn put_basic(
    lines: &mut Vec<u8>,
    map: &Map<'_>,
    tags: &[Tag],
    entries: &[u16],
) -> Result<(), AllocError> {
    let Some(called) = called_by_basic(map) else {
        return Ok(());
    };
    let is_tag = |tag: &Tag| tag.kind == TagKind::Entry && tag.address == Some(called);
    if entries.contains(&called) || tags.iter().any(is_tag) {
        return Ok(());
    }
    lines.extend_from_slice(b"# the line of BASIC calls this:\n")?;
    put_address(lines, b"#: ENTRY { ADDR $", usize::from(called))?;
    lines.extend_from_slice(b"; };\n")
}

/// Returns a group ENTRY for what a line of BASIC calls, a group INLINE for each routine that reads the texts behind
/// its calls, and a RANGE for the words behind each call of one that jumps through them. The groups and these addresses
/// say which entries are given.
pub fn lines_of(
    alloc: Global,
    map: &Map<'_>,
    tags: &[Tag],
    entries: &[u16],
) -> Result<Vec<u8>, AllocError> {
    let Pulls {
        texts,
        words,
        calls_prodos,
    } = pulls_of(alloc, map, tags)?;
    let mut lines = Vec::new(alloc);
    put_basic(&mut lines, map, tags, entries)?;
    if calls_prodos {
        lines.extend_from_slice(b"# ProDOS reads a command and an address behind each call:\n")?;
        put_address(&mut lines, b"#: INLINE { ADDR $", usize::from(PRODOS))?;
        lines.extend_from_slice(b"; SIZE 3; };\n")?;
    }
    if !texts.is_empty() || !words.is_empty() {
        lines.extend_from_slice(
            b"# by their form these routines read what stands behind their calls:\n",
        )?;
    }
    for &routine in &texts {
        put_address(&mut lines, b"#: INLINE { ADDR $", usize::from(routine))?;
        lines.extend_from_slice(b"; };\n")?;
    }
    for &table in &words {
        put_words(&mut lines, table)?;
    }
    Ok(lines)
}
