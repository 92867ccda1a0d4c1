//! Files of Atari machines.

use crate::bytes::LOW16;
use crate::found::Found;

/// An executable: blocks of a first and a last address and the bytes between; $FFFF may stand before each, and stands
/// before the first one. A block at $02E0 or $02E2 says where code begins. Without the name of one the blocks have to
/// end where the file does.
pub fn read_executable(found: &mut Found<'_>, named: bool) {
    let file = found.file;
    if !file.has(0, b"\xFF\xFF") {
        return;
    }
    found.is("Atari executable", "atari");
    let mut starts = Vec::new(found.alloc);
    let mut at: usize = 0;
    for _ in 0..65_536 {
        if file.has(at, b"\xFF\xFF") {
            at = at.saturating_add(2);
        }
        let (first, last) = (file.from(at).low16(0), file.from(at).low16(2));
        let begin = at.saturating_add(4);
        let len = last.saturating_add(1).saturating_sub(first);
        if len == 0 || file.0.len() <= begin {
            break;
        }
        if first < 0x02E0 || 0x02E3 < last {
            if found.part("block", first, begin, len) {
                found.rises(&[(at.saturating_add(2), LOW16)]);
            }
        }
        for place in [0x02E0usize, 0x02E2] {
            if first <= place && place < last {
                let start = file.from(begin).low16(place - first);
                found.lost |= starts.push(start).is_err();
            }
        }
        at = begin.saturating_add(len);
    }
    if !named && at != file.0.len() {
        found.parts.clear();
        found.is("", "");
    }
    for start in &starts {
        found.entry_of_all(*start);
    }
}

/// A cartridge with a header of 16 bytes: CART, its type, and the sum of the bytes after the header.
pub fn read_car(found: &mut Found<'_>) {
    let file = found.file;
    if !file.has(0, b"CART") {
        return;
    }
    let kind = file.high32(4);
    let is_5200 = matches!(kind, 4 | 6 | 7 | 16 | 19 | 20);
    found.is(
        "Atari cartridge, type",
        if is_5200 { "atari5200" } else { "atari" },
    );
    found.number = Some(kind);
    found.derive(8, 4);
    if file.0.len() <= 0x8010 && !matches!(kind, 3 | 5 | 12 | 15 | 22) {
        return read_whole(found, 16);
    }
    found.guess("banks of 8 KiB, of which the last one stays at $A000");
    found.banks(16, file.from(16).0.len(), (0x2000, 1), (0x8000, 0xC000));
}

/// A cartridge without banks ends at $BFFF, where it has the address at which it begins.
fn read_whole(found: &mut Found<'_>, at: usize) {
    let image = found.file.from(at);
    let size = image.0.len();
    found.banks(at, size, (size, 1), (0, 0xC000));
    found.entry(image.low16(size.saturating_sub(2)));
    found.entry(image.low16(size.saturating_sub(6)));
}

/// A cartridge of the 5200 of at most 32 KiB.
pub fn read_5200(found: &mut Found<'_>) {
    found.is("Atari 5200", "atari5200");
    if found.file.0.len() <= 0x8000 {
        read_whole(found, 0);
    }
}

/// A cartridge of the 7800: a header of 128 bytes with its size and type. One without banks ends at $FFFF. Banks have
/// 16 KiB, of which the last one stays at $C000.
pub fn read_7800(found: &mut Found<'_>) {
    let file = found.file;
    if !file.has(1, b"ATARI7800") {
        return;
    }
    found.is("Atari 7800", "atari7800");
    let size = file.from(128).0.len().min(file.high32(49));
    let bank = if size <= 0xC000 { size } else { 0x4000 };
    if bank < size {
        found.guess("banks of 16 KiB at $8000, of which the last one stays at $C000");
    }
    found.banks(128, size, (bank, 1), (0x8000, 0x1_0000));
}

/// A cartridge of the 2600: up to 4 KiB end at $FFFF, larger ones have banks of this size. The last one ends at $FFFF,
/// and so do the others if they have 4 KiB; smaller ones are seen at $F000.
pub fn read_2600(found: &mut Found<'_>, bank: usize) {
    let size = found.file.0.len();
    found.is("Atari 2600", "atari2600");
    if bank < 0x1000 {
        found.guess("that banks but the last one are seen at $F000");
    } else if 0x1000 < size && !matches!(size, 0x2000 | 0x4000 | 0x8000) {
        found.guess("banks of 4 KiB at $F000");
    }
    found.banks(0, size, (bank, 1), (0xF000, 0x1_0000));
}

/// A cartridge of the Lynx: a header of 64 bytes, then a loader that is encrypted, a directory, and files.
pub fn read_lynx(found: &mut Found<'_>) {
    if found.file.has(0, b"LYNX") {
        found.is("Lynx cartridge", "");
        found.cpu = Some("65SC02");
        found.guess(
            "all: the first bytes are an encrypted loader, and the directory behind it is not read",
        );
        found.part("rom", 0x0200, 64, found.file.from(64).0.len().min(0xF800));
    }
}
