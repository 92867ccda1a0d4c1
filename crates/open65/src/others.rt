//! Files of other machines, and plain images.

use crate::bytes::{Bytes, HIGH16};
use crate::found::{ADDRESSES, Found};

/// A tape of the Oric: bytes $16, $24, nine bytes with a type and the addresses of the last and the first byte, high
/// byte first, a name with a zero after it, and the bytes. The next file follows.
pub fn read_oric(found: &mut Found<'_>) {
    let file = found.file;
    if !file.has(0, b"\x16\x16\x16") {
        return;
    }
    found.is("Oric tape", "oric");
    let mut at: usize = 0;
    for _ in 0..256 {
        at = at.saturating_add(length_of(file.from(at), 0x16, true));
        let head = file.from(at);
        let name = at.saturating_add(10);
        let name_len = length_of(file.from(name), 0, false);
        let begin = name.saturating_add(name_len).saturating_add(1);
        let (last, first) = (head.high16(5), head.high16(7));
        let len = last.saturating_add(1).saturating_sub(first);
        if head.byte(0) != 0x24 || !found.part("file", first, begin, len) {
            break;
        }
        found.title(name, name_len);
        found.rises(&[(at.saturating_add(5), HIGH16)]);
        // Type $80 is machine code.
        if head.byte(3) & 0x80 != 0 {
            found.entry(first);
        }
        at = begin.saturating_add(len);
    }
}

/// How many of the first bytes are this one, or are not.
fn length_of(bytes: Bytes<'_>, byte: u8, equal: bool) -> usize {
    let mut len: usize = 0;
    for one in bytes.0 {
        if (*one == byte) != equal {
            break;
        }
        len = len.saturating_add(1);
    }
    len
}

/// A disk of the BBC's DFS: the names stand in sector 0, and in sector 1, eight bytes for each file: where it is loaded
/// and entered, its length and first sector; the highest bits are in the seventh byte.
pub fn read_dfs(found: &mut Found<'_>) {
    let file = found.file;
    found.is("BBC disc", "bbc");
    let count = usize::from(file.byte(0x105) / 8).min(31);
    for place in (8..8 + 8 * count).step_by(8) {
        let entry = file.from(place.saturating_add(256));
        let high = usize::from(entry.byte(6));
        let len = entry.low16(4).saturating_add(high / 16 % 4 * ADDRESSES);
        let sector = usize::from(entry.byte(7)) + high % 4 * 256;
        if found.part("file", entry.low16(0), 256 * sector, len) {
            found.title(place, 7);
            found.entry(entry.low16(2));
        }
    }
}

/// A plain image. Up to 64 KiB end at $FFFF, and more are banks at $8000, unless the command line says where they lie.
pub fn read_plain(found: &mut Found<'_>) {
    let size = found.file.0.len();
    let (at, bank) = (found.given.at, found.given.bank);
    let is_whole = size <= ADDRESSES && bank.is_none();
    let bank = bank.map_or(0x4000, usize::from);
    let bank = if is_whole { size } else { bank };
    found.is("plain image", "");
    if at.is_none() {
        found.guess(match is_whole {
            true => "nothing says where it lies",
            false => "nothing says where its banks lie, and how large they are",
        });
    }
    found.banks(
        0,
        size,
        (bank, 0),
        (at.map_or(0x8000, usize::from), ADDRESSES),
    );
}
