//! Files of the Apple II.

use crate::bytes::{Bytes, HIGH32, LOW16};
use crate::found::{Coding, Found};

/// A binary file of DOS 3.3: its address and its length in two bytes each. Without the name of one it has to end there.
pub fn read_binary(found: &mut Found<'_>, named: bool) {
    let (start, len) = (found.file.low16(0), found.file.low16(2));
    if !named && found.file.0.len() != len.saturating_add(4) {
        return;
    }
    found.is("DOS 3.3 binary", "apple2");
    if found.part("file", start, 4, len) {
        found.rises(&[(2, LOW16)]);
        found.entry(start);
    }
}

/// AppleSingle: the number of entries at 24, each its type, place and length in four bytes. Type 1 is the data, and
/// type 11 what ProDOS says of it, with the address as the last two of its eight bytes.
pub fn read_single(found: &mut Found<'_>) {
    let file = found.file;
    if !file.has(0, b"\0\x05\x16\0") {
        return;
    }
    found.is("AppleSingle", "apple2");
    let end = 26 + 12 * file.high16(24).min(16);
    let mut start: usize = 0x2000;
    for entry in (26..end).step_by(12) {
        if file.high32(entry) == 11 {
            start = file.from(file.from(entry).high32(4)).high16(6);
        }
    }
    for entry in (26..end).step_by(12) {
        let (kind, at) = (file.high32(entry), file.from(entry).high32(4));
        let len = file.from(entry).high32(8);
        if kind != 1 || !found.part("data", start, at, len) {
            continue;
        }
        found.entry(start);
        found.rises(&[(entry.saturating_add(8), HIGH32)]);
        for other in (30..end).step_by(12) {
            if at < file.high32(other) {
                found.rises(&[(other, HIGH32)]);
            }
        }
    }
}

/// A system file of ProDOS, which is loaded at $2000 and begins there. Without the name of one it begins with a jump
/// over two bytes $EE.
pub fn read_system(found: &mut Found<'_>, named: bool) {
    if named || found.file.byte(0) == 0x4C && found.file.has(3, b"\xEE\xEE") {
        found.is("ProDOS system file", "apple2");
        found.rest(0x2000, 0, &[0x2000]);
    }
}

/// A disk of 16 sectors a track, in the order of DOS or of ProDOS. The order of the one, in numbers of the other, is
/// its own inverse.
#[derive(Clone, Copy)]
struct Disk<'f> {
    file: Bytes<'f>,
    is_prodos: bool,
}

/// How a sector stands in the image, if it is there: one that is not is of zeros.
fn coding_of(is_there: bool) -> Coding {
    match is_there {
        true => Coding::Plain,
        false => Coding::Filler(0),
    }
}

fn swapped(sector: usize) -> usize {
    let number = sector % 16;
    let is_end = number == 0 || number == 15;
    if is_end { number } else { 15 - number }
}

impl<'f> Disk<'f> {
    /// Where a sector of DOS begins.
    fn sector(self, track: u8, sector: u8) -> usize {
        let at = usize::from(sector);
        let place = if self.is_prodos { swapped(at) } else { at };
        4096 * usize::from(track) + 256 * (place % 16)
    }

    /// Where a half of a block of ProDOS begins.
    fn half(self, block: usize, half: usize) -> usize {
        let at = 2 * (block % 8) + half % 2;
        let place = if self.is_prodos { at } else { swapped(at) };
        (block / 8)
            .saturating_mul(4096)
            .saturating_add(256 * (place % 16))
    }

    /// A byte of a block of ProDOS.
    fn byte(self, block: usize, at: usize) -> u8 {
        let begin = self.half(block, at / 256);
        self.file.byte(begin.saturating_add(at % 256))
    }

    fn word(self, block: usize, at: usize) -> usize {
        let bytes = [self.byte(block, at), self.byte(block, at.saturating_add(1))];
        usize::from(u16::from_le_bytes(bytes))
    }
}

/// A disk of 140 KiB, of DOS 3.3 or of ProDOS, in the order of either.
pub fn read_disk(found: &mut Found<'_>, is_prodos: bool) {
    let file = found.file;
    for is_prodos in [is_prodos, !is_prodos] {
        let disk = Disk { file, is_prodos };
        if file.0.len() != 143_360 || !found.parts.is_empty() {
            return;
        }
        let contents = file.from(disk.sector(17, 0));
        if disk.byte(2, 4) / 16 == 15 && disk.byte(2, 0x23) == 0x27 {
            read_prodos(found, disk);
        } else if contents.byte(0x27) == 122 && contents.byte(0x35) == 16 {
            read_dos(found, disk);
        }
    }
}

/// Adds the binary files of DOS 3.3. A catalog sector has the place of the next one, and seven entries of 35 bytes.
fn read_dos(found: &mut Found<'_>, disk: Disk<'_>) {
    found.is("disk of DOS 3.3", "apple2");
    let mut at = disk.sector(17, 0);
    for _ in 0..36 {
        let here = disk.file.from(at);
        at = disk.sector(here.byte(1), here.byte(2));
        if here.byte(1) == 0 {
            break;
        }
        for place in (11..256).step_by(35) {
            let entry = at.saturating_add(place);
            let (track, kind) = (disk.file.byte(entry), disk.file.from(entry).byte(2));
            if track != 0 && track != 0xFF && kind & 0x7F == 4 {
                read_dos_file(found, disk, entry);
            }
        }
    }
}

/// Adds a binary file. Its list of sectors is in sectors with the place of the next one and of 122 sectors, of which
/// the first one begins with the address and the length.
fn read_dos_file(found: &mut Found<'_>, disk: Disk<'_>, entry: usize) {
    let first = disk.file.from(entry);
    let mut list = disk.file.from(disk.sector(first.byte(0), first.byte(1)));
    let begin = disk.file.from(disk.sector(list.byte(12), list.byte(13)));
    let (start, mut left) = (begin.low16(0), begin.low16(2));
    let mut head: usize = 4;
    found.begin("file", start);
    for _ in 0..3 {
        for pair in (12..256).step_by(2) {
            let (track, sector) = (list.byte(pair), list.from(pair).byte(1));
            let len = left.min(256usize.saturating_sub(head));
            let at = disk.sector(track, sector).saturating_add(head);
            found.piece(at, len, coding_of(track != 0));
            left -= len;
            head = 0;
            if left == 0 {
                break;
            }
        }
        list = disk.file.from(disk.sector(list.byte(1), list.byte(2)));
    }
    if found.close() {
        found.title(entry.saturating_add(3), 30);
        found.entry(start);
    }
}

/// Adds the binary and system files of the volume's directory. Its blocks begin with the numbers of the one before and
/// the one after, and have 13 entries of 39 bytes: storage and name, the type at 16, the block at 17, the length at 21,
/// the address at 31.
fn read_prodos(found: &mut Found<'_>, disk: Disk<'_>) {
    found.is("disk of ProDOS", "apple2");
    let mut block: usize = 2;
    for _ in 0..16 {
        for entry in (4..511).step_by(39) {
            let storage = disk.byte(block, entry) / 16;
            let kind = disk.byte(block, entry.saturating_add(16));
            if matches!((storage, kind), (1 | 2, 0x06 | 0xFF)) {
                read_prodos_file(found, disk, (block, entry));
            }
        }
        block = disk.word(block, 2);
        if block == 0 {
            break;
        }
    }
}

/// Adds the file of an entry: one block, or the blocks whose numbers stand in it, low bytes first.
fn read_prodos_file(found: &mut Found<'_>, disk: Disk<'_>, (block, entry): (usize, usize)) {
    let is_sapling = disk.byte(block, entry) / 16 == 2;
    let is_system = disk.byte(block, entry.saturating_add(16)) == 0xFF;
    let key = disk.word(block, entry.saturating_add(17));
    let said = disk.word(block, entry.saturating_add(31));
    let start = if is_system { 0x2000 } else { said };
    let mut left = disk.word(block, entry.saturating_add(21));
    found.begin("file", start);
    for half in 0..256 {
        let low = disk.byte(key, half / 2);
        let high = disk.byte(key, 256 + half / 2);
        let listed = usize::from(u16::from_le_bytes([low, high]));
        let number = if is_sapling { listed } else { key };
        let len = left.min(256);
        if len == 0 || !is_sapling && 1 < half {
            break;
        }
        found.piece(disk.half(number, half), len, coding_of(number != 0));
        left -= len;
    }
    if found.close() {
        let name = disk
            .half(block, entry / 256)
            .saturating_add(entry % 256 + 1);
        found.title(name, usize::from(disk.byte(block, entry) % 16));
        found.entry(start);
    }
}
