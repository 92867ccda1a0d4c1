//! Files of Commodore machines, but disks.

use crate::bytes::{HIGH16, LOW16, LOW32};
use crate::found::Found;

/// The machine that programs are loaded for at an address.
fn machine_at(start: usize) -> Option<&'static str> {
    match start {
        0x0401 => Some("pet"),
        0x0801 => Some("c64"),
        0x1001 | 0x1201 => Some("vic20"),
        0x1C01 => Some("c128"),
        _ => None,
    }
}

/// A program: two bytes say where the rest is loaded. Without the name of one it has to begin as one of BASIC.
pub fn read_program(found: &mut Found<'_>, named: bool) {
    let start = found.file.low16(0);
    let machine = machine_at(start);
    if named || machine.is_some() {
        found.is("Commodore program", machine.unwrap_or("c64"));
        found.rest(start, 2, &[]);
    }
    if !named {
        found.guess("that the first two bytes say where the rest is loaded");
    }
}

/// A program in PC64's form: 26 bytes with the name, then a program.
pub fn read_p00(found: &mut Found<'_>) {
    if found.file.has(0, b"C64File\0") {
        let start = found.file.low16(26);
        found.is("P00, Commodore program", machine_at(start).unwrap_or("c64"));
        found.rest(start, 28, &[]);
    }
}

/// A tape archive. Entries of 32 bytes from $40 on say where each file is loaded, the address after it, and its place.
/// Many archives have wrong addresses there: then the file ends with the archive.
pub fn read_tape(found: &mut Found<'_>, named: bool) {
    let file = found.file;
    let is_told = file.has(0, b"C64S tape") || file.has(0, b"C64 tape");
    if !is_told && !(named && file.has(0, b"C64")) {
        return;
    }
    found.is("T64", "c64");
    let count = file.low16(0x22).max(file.low16(0x24)).clamp(1, 256);
    for place in (64..64 + 32 * count).step_by(32) {
        let entry = file.from(place);
        let (start, at) = (entry.low16(2), entry.number(8, LOW32));
        let said = entry.low16(4).saturating_sub(start);
        let room = file.from(at).0.len();
        let is_right = 0 < said && said <= room;
        let len = if is_right { said } else { room };
        if entry.byte(0) == 0 || !found.part("file", start, at, len) {
            continue;
        }
        found.title(place.saturating_add(16), 16);
        if !is_right {
            found.guess("where a file ends, since its entry has another address");
            continue;
        }
        found.rises(&[(place.saturating_add(4), LOW16)]);
        for other in (72..72 + 32 * count).step_by(32) {
            if at < file.number(other, LOW32) {
                found.rises(&[(other, LOW32)]);
            }
        }
    }
}

/// A cartridge of CCS64's form: a header, whose length stands at $10, and packets CHIP of 16 bytes with the length of
/// the packet, the bank, the address and the size, and then the bytes.
pub fn read_cartridge(found: &mut Found<'_>) {
    let file = found.file;
    match file.first(16) {
        b"C64 CARTRIDGE   " => found.is("C64 cartridge, hardware", "c64"),
        b"C128 CARTRIDGE  " => found.is("C128 cartridge, hardware", "c128"),
        b"VIC20 CARTRIDGE " => found.is("VIC-20 cartridge, hardware", "vic20"),
        _ => return,
    }
    found.number = Some(file.number(0x16, HIGH16));
    let mut at = file.high32(0x10);
    for _ in 0..4096 {
        let packet = file.from(at);
        let len = packet.high32(4);
        if !packet.has(0, b"CHIP") || len < 16 {
            break;
        }
        found.part(
            "chip",
            packet.high16(12),
            at.saturating_add(16),
            packet.high16(14),
        );
        at = at.saturating_add(len);
    }
}

/// A tune, PSID or RSID: a header with the place of the data, the addresses where it is loaded, of init and of play.
/// Without the first one the data begin with it.
pub fn read_tune(found: &mut Found<'_>) {
    let file = found.file;
    if !file.has(0, b"PSID") && !file.has(0, b"RSID") {
        return;
    }
    found.is("SID tune", "c64");
    let (at, said) = (file.high16(6), file.high16(8));
    let is_inside = said == 0;
    let start = if is_inside { file.low16(at) } else { said };
    let begin = if is_inside { at.saturating_add(2) } else { at };
    let (init, play) = (file.high16(10), file.high16(12));
    let init = if init == 0 { start } else { init };
    found.rest(start, begin, &[init, play]);
}

/// A snapshot of VICE's x64: modules of a name of 16 bytes, a version and a length. C64MEM has four bytes, then memory.
pub fn read_snapshot(found: &mut Found<'_>) {
    let file = found.file;
    if !file.has(0, b"VICE Snapshot File\x1A") {
        return;
    }
    found.is("VICE snapshot", "c64");
    found.guess("that the program lies from $0800 to $CFFF");
    let is_new = file.has(37, b"VICE Version\x1A");
    let mut at: usize = if is_new { 58 } else { 37 };
    for _ in 0..256 {
        if file.has(at, b"C64MEM\0") {
            found.part("memory", 0x0800, at.saturating_add(26 + 0x0800), 0xC800);
            break;
        }
        at = at.saturating_add(file.from(at).number(18, LOW32).max(22));
    }
}
