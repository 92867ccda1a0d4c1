//! A disk of a 1541: tracks of 21, 19, 18 and 17 sectors of 256 bytes, 35 or 40 of them, and perhaps a byte for each
//! sector behind. A sector begins with the track and sector of the next one, or with 0 and the place of its last byte.

use crate::found::{Coding, Found};

/// Where the sector begins whose track and number stand at a place, if there is one.
fn sector_at(found: &Found<'_>, at: usize) -> Option<usize> {
    let (track, sector) = (found.file.from(at).byte(0), found.file.from(at).byte(1));
    let mut before: usize = 0;
    for number in 1..track {
        before = before.saturating_add(sectors_of(number));
    }
    if track == 0 || 40 < track || sectors_of(track) <= usize::from(sector) {
        return None;
    }
    Some(
        before
            .saturating_add(usize::from(sector))
            .saturating_mul(256),
    )
}

/// How many sectors a track has.
fn sectors_of(track: u8) -> usize {
    match track {
        ..=17 => 21,
        18..=24 => 19,
        25..=30 => 18,
        _ => 17,
    }
}

/// Adds the programs of the directory, whose sectors begin at track 18, sector 1, with eight entries of 32 bytes each.
pub fn read_disk(found: &mut Found<'_>, named: bool) {
    let file = found.file;
    let has_size = matches!(file.0.len(), 174_848 | 175_531 | 196_608 | 197_376);
    if !has_size || !named && file.byte(0x16502) != b'A' {
        return;
    }
    found.is("D64", "c64");
    let mut at: usize = 0x16600;
    for _ in 0..19 {
        for entry in (at..at.saturating_add(256)).step_by(32) {
            if file.from(entry).byte(2) & 7 == 2 {
                read_file(found, entry);
            }
        }
        let Some(next) = sector_at(found, at) else {
            break;
        };
        at = next;
    }
}

/// Adds the program of an entry. Its first two bytes say where it is loaded.
fn read_file(found: &mut Found<'_>, entry: usize) {
    let file = found.file;
    let mut link = entry.saturating_add(3);
    found.begin("file", 0);
    for index in 0..803 {
        let Some(at) = sector_at(found, link) else {
            break;
        };
        let head = if index == 0 { 4 } else { 2 };
        if let Some(part) = found.parts.last_mut()
            && index == 0
        {
            part.start = file.from(at).low16(2);
        }
        let is_last = file.byte(at) == 0;
        let end = usize::from(file.from(at).byte(1)) + 1;
        let len = if is_last { end } else { 256 }.saturating_sub(head);
        found.piece(at.saturating_add(head), len, Coding::Plain);
        if is_last {
            if found.close() {
                found.title(entry.saturating_add(5), 16);
            }
            return;
        }
        link = at;
    }
    // No end of it is found.
    let _ = found.parts.pop();
}
