//! An NES file: a header of 16 bytes, perhaps 512 bytes of a trainer, banks of code of 16 KiB, and characters.

use crate::found::Found;

/// How large the banks of a mapper are, and how many of the last ones stay at their places.
fn banks_of(mapper: usize) -> Option<(usize, usize)> {
    match mapper {
        0 | 3 | 7 | 11 | 34 | 66 => Some((0x8000, 0)),
        1 | 2 | 10 | 71 => Some((0x4000, 1)),
        4 => Some((0x2000, 2)),
        5 | 69 => Some((0x2000, 1)),
        9 => Some((0x2000, 3)),
        _ => None,
    }
}

/// Adds the banks of code. Those that stay end at $FFFF, the others are seen at $8000. NES 2.0 has more bits of the
/// number of the mapper and of the size; what stands from byte 7 on in files of old tools is no part of the number.
pub fn read_nes(found: &mut Found<'_>) {
    let file = found.file;
    if !file.has(0, b"NES\x1A") {
        return;
    }
    let is_new = file.byte(7) & 0x0C == 8;
    let mut mapper = usize::from(file.byte(6) / 16);
    if is_new || file.has(12, b"\0\0\0\0") {
        mapper += usize::from(file.byte(7) & 0xF0);
    }
    let mut count = usize::from(file.byte(4));
    if is_new {
        mapper += 256 * usize::from(file.byte(8) % 16);
        count += 256 * usize::from(file.byte(9) % 16);
    }
    found.is("NES, mapper", "nes");
    found.number = Some(mapper);
    let at: usize = if file.byte(6) & 4 == 0 { 16 } else { 528 };
    let size = 0x4000 * count;
    let (bank, fixed) = banks_of(mapper).unwrap_or((0x4000, 1));
    if size <= 0x8000 {
        return read_whole(found, at, size);
    }
    if banks_of(mapper).is_none() {
        found.guess("banks of 16 KiB, of which the last one stays at $C000");
    }
    if bank == 0x2000 {
        found.guess("that banks of 8 KiB are seen at $8000: some of them may be seen at $A000");
    }
    found.banks(at, size, (bank, fixed), (0x8000, 0x1_0000));
}

/// Adds all of the code, which ends at $FFFF. A bank of 16 KiB is seen twice: it is where its start is.
fn read_whole(found: &mut Found<'_>, at: usize, size: usize) {
    let vectors = found.file.from(at.saturating_add(size).saturating_sub(6));
    let is_low = size == 0x4000 && (0x8000..0xC000).contains(&vectors.low16(2));
    let end = if is_low { 0xC000 } else { 0x1_0000 };
    found.banks(at, size, (size, 1), (0, end));
    if is_low {
        for vector in [0, 2, 4] {
            found.entry(vectors.low16(vector));
        }
    }
}
