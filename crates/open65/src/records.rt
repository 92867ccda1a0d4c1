//! Records of hex digits: Intel HEX and Motorola S-records, a record a line.

use crate::bytes::{Bytes, Form, HIGH16};
use crate::found::{ADDRESSES, Coding, Found};
use crate::text::Text;

/// How a record is written: what stands before its digits, in how many bytes the address is, and what the sum is.
#[derive(Clone, Copy)]
struct Layout {
    head: usize,
    wide: usize,
    is_intel: bool,
}

/// A line of digits: its bytes, with the length and the checksum.
#[derive(Clone, Copy)]
struct Line {
    layout: Layout,
    bytes: [u8; 260],
    count: usize,
}

/// The layout of a line, if it is a record of data, or of Intel's form.
fn layout_of(line: &[u8]) -> Option<Layout> {
    let (head, wide, is_intel) = match line {
        [b':', ..] => (1, 2, true),
        [b'S', b'1', ..] => (2, 2, false),
        [b'S', b'2', ..] => (2, 3, false),
        [b'S', b'3', ..] => (2, 4, false),
        _ => return None,
    };
    Some(Layout {
        head,
        wide,
        is_intel,
    })
}

/// Returns the byte that two hex digits are.
pub fn byte_at(line: &[u8], at: usize) -> Option<u8> {
    let high = char::from(*line.get(at)?).to_digit(16)?;
    let low = char::from(*line.get(at.saturating_add(1))?).to_digit(16)?;
    Some((high % 16 * 16 + low % 16) as u8)
}

/// The checksum of bytes with this sum.
fn checksum_of(sum: u8, is_intel: bool) -> u8 {
    if is_intel {
        0u8.wrapping_sub(sum)
    } else {
        !sum
    }
}

impl Line {
    /// Reads a line, if it is as long as it says. Its checksum may be wrong.
    fn of(line: &[u8]) -> Option<Line> {
        let layout = layout_of(line)?;
        let mut bytes: [u8; 260] = [0; 260];
        let said = usize::from(byte_at(line, layout.head)?);
        let count = if layout.is_intel { said + 5 } else { said + 1 };
        for (index, byte) in bytes.iter_mut().enumerate().take(count) {
            *byte = byte_at(line, layout.head.saturating_add(index.saturating_mul(2)))?;
        }
        Some(Line {
            layout,
            bytes,
            count,
        })
    }

    /// The checksum that would be right.
    fn checksum(&self) -> u8 {
        let mut sum: u8 = 0;
        for byte in self.bytes.iter().take(self.count.saturating_sub(1)) {
            sum = sum.wrapping_add(*byte);
        }
        checksum_of(sum, self.layout.is_intel)
    }

    fn is_right(&self) -> bool {
        Bytes(&self.bytes).byte(self.count.saturating_sub(1)) == self.checksum()
    }

    /// How many bytes stand before the data, and how many are data.
    fn data(&self) -> (usize, usize) {
        let before = self
            .layout
            .wide
            .saturating_add(if self.layout.is_intel { 2 } else { 1 });
        (before, self.count.saturating_sub(before.saturating_add(1)))
    }
}

/// A record of data: its address, where its digits begin in the file, and how many bytes it has. std sorts tuples.
type Record = (usize, usize, usize);

/// Reads the lines up to the first one that is wrong.
fn read_lines(found: &mut Found<'_>, records: &mut Vec<Record>) {
    let (mut next, mut base) = (0usize, 0usize);
    for text in found.file.0.split_inclusive(|byte| *byte == b'\n') {
        let at = next;
        next = next.saturating_add(text.len());
        let Some(line) = Line::of(text) else {
            if matches!(text, [b'S' | b'\r' | b'\n', ..]) {
                continue;
            }
            break;
        };
        if !line.is_right() {
            break;
        }
        let bytes = Bytes(&line.bytes);
        let (before, len) = line.data();
        match (line.layout.is_intel, bytes.byte(3)) {
            (true, 2) => base = bytes.number(4, HIGH16).saturating_mul(16),
            (true, 4) => base = bytes.number(4, HIGH16).saturating_mul(ADDRESSES),
            (true, 1 | 3 | 5) => {}
            (is_intel, _) => {
                found.is(if is_intel { "Intel HEX" } else { "S-records" }, "");
                let address = base.saturating_add(bytes.number(1, Form(line.layout.wide, false)));
                let head = line.layout.head.saturating_add(before.saturating_mul(2));
                let digits = at.saturating_add(head);
                found.lost |= records.push((address, digits, len)).is_err();
                found.derive(at, text.len());
            }
        }
    }
}

/// Adds the records of data. Bytes between them, which no record has, are $FF. If all lie in 64 KiB, they are one part,
/// and else each piece is.
pub fn read_records(found: &mut Found<'_>) {
    let mut records: Vec<Record> = Vec::new(found.alloc);
    read_lines(found, &mut records);
    found.lost |= records.sort().is_err();
    let (Some(first), Some(last)) = (records.first().copied(), records.last().copied()) else {
        return;
    };
    let is_one = last.0.saturating_add(last.2) <= first.0.saturating_add(ADDRESSES);
    let mut end = first.0;
    found.begin("block", first.0 % ADDRESSES);
    for (address, at, len) in &records {
        if *address < end {
            // Two records give one byte.
            found.parts.clear();
            return;
        }
        let is_next = *address == end && *address % ADDRESSES != 0;
        if is_one {
            found.piece(0, *address - end, Coding::Filler(0xFF));
        } else if !is_next && *address != first.0 {
            found.close();
            found.begin("block", *address % ADDRESSES);
        }
        found.piece(*at, *len, Coding::Digits);
        end = address.saturating_add(*len);
    }
    if is_one {
        place(found, first.0);
    }
    found.close();
}

/// Puts the only part where it lies. Records that begin at 0 and are a whole chip say only where they lie in that.
fn place(found: &mut Found<'_>, first: usize) {
    found.rises(&[]);
    let mut is_guess = false;
    if let [part] = found.parts.as_mut_slice() {
        let is_chip = first == 0 && 0x0800 <= part.len && part.len.is_power_of_two();
        is_guess = is_chip || ADDRESSES < part.end();
        if is_guess {
            part.start = ADDRESSES.saturating_sub(part.len);
        }
    }
    if is_guess {
        found.guess("nothing says where it lies: the addresses of the records are those in a chip");
    }
}

/// Makes the checksums of the lines right.
pub fn put_checksums(bytes: &mut [u8]) {
    for text in bytes.split_mut(|byte| *byte == b'\n') {
        if let Some(line) = Line::of(text)
            && !line.is_right()
        {
            let last = line.count.saturating_sub(1).min(260);
            put_byte(
                text,
                line.layout.head.saturating_add(2 * last),
                line.checksum(),
            );
        }
    }
}

/// Writes a byte as two hex digits, unless it stands there.
pub fn put_byte(line: &mut [u8], at: usize, byte: u8) {
    if byte_at(line, at) != Some(byte)
        && let Some(place) = line.get_mut(at..at.saturating_add(2))
    {
        for (to, digit) in place.iter_mut().zip([byte / 16, byte % 16]) {
            *to = text65::hex_digit(digit % 16);
        }
    }
}

/// Writes the records of the only part anew, for another image: the lines that are no data stay. This is for addresses
/// of 16 bits alone.
pub fn written_anew(found: &Found<'_>, image: &[u8]) -> Option<Text> {
    let (first, last) = (found.derived.first()?, found.derived.last()?);
    let mut begin = ADDRESSES;
    let mut is_intel = false;
    for piece in &found.derived {
        let line = Line::of(piece.of(found.file))?;
        if line.layout.wide != 2 {
            return None;
        }
        begin = begin.min(Bytes(&line.bytes).high16(1));
        is_intel = line.layout.is_intel;
    }
    let mut text = Text::new(found.alloc);
    text.put(found.file.first(first.at));
    for (index, row) in image.chunks(16).enumerate() {
        let address = begin.saturating_add(index.saturating_mul(16));
        put_record(&mut text, is_intel, address, row);
        let has_return = first.of(found.file).ends_with(b"\r\n");
        text.say(if has_return { "\r\n" } else { "\n" });
    }
    text.put(found.file.from(last.at.saturating_add(last.len)).0);
    Some(text)
}

/// Appends a record of up to 16 bytes at an address of 16 bits.
fn put_record(text: &mut Text, is_intel: bool, address: usize, row: &[u8]) {
    let len = row.len() + if is_intel { 0 } else { 3 };
    let head = [
        (len % 256) as u8,
        (address / 256 % 256) as u8,
        (address % 256) as u8,
    ];
    text.say(if is_intel { ":" } else { "S1" });
    let mut sum: u8 = 0;
    for byte in head {
        sum = sum.wrapping_add(byte);
        text.hex(byte);
    }
    text.say(if is_intel { "00" } else { "" });
    for byte in row {
        sum = sum.wrapping_add(*byte);
        text.hex(*byte);
    }
    text.hex(checksum_of(sum, is_intel));
}
