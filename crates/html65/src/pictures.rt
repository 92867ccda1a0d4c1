//! Bytes as pixels of one bit: pictures in the format BMP, each in a `data:` address.

use crate::markup::{Put, Result, Text, put};
use base64::engine::general_purpose::STANDARD;
use std::alloc::Global;

/// From how many bytes on they are shown as pictures.
pub const LEAST: usize = 16;

/// How many bytes the head of a picture has.
const HEAD: usize = 62;

/// How bytes are laid out: in columns of rows, one column beside the other, and one band of columns below the other.
/// How many bytes a row of a column has, how many rows a column, and how many columns a band at most; how many bytes it
/// is from one column to the next, of which one is blank, or none; and the title.
#[derive(Clone, Copy)]
struct Layout(usize, usize, usize, usize, &'static str);

/// Cells as character sets have them, and rows of 1, 2, 3 and 40 bytes.
const LAYOUTS: [Layout; 5] = [
    Layout(1, 8, 32, 1, "cells of 8 by 8"),
    Layout(1, 64, 20, 2, "rows of 1 byte"),
    Layout(2, 63, 13, 3, "rows of 2 bytes"),
    Layout(3, 63, 10, 4, "rows of 3 bytes"),
    Layout(40, 200, 1, 40, "rows of 40 bytes"),
];

impl Layout {
    /// How many bytes a row of the picture of so many bytes has, and how many rows there are.
    fn size(self, count: usize) -> (usize, usize) {
        let Layout(wide, high, across, step, _) = self;
        let rows = count.div_ceil(wide.max(1));
        let columns = rows.div_ceil(high.max(1));
        let bands = columns.div_ceil(across.max(1));
        let all = columns.min(across).saturating_mul(step);
        let gap = step.saturating_sub(wide);
        let high = rows.min(bands.saturating_mul(high));
        (all.saturating_sub(gap), high)
    }

    /// The row of the picture in which the byte of an index stands, and its place there.
    fn place_of(self, index: usize) -> (usize, usize) {
        let Layout(wide, high, across, step, _) = self;
        let (row, x) = (index / wide.max(1), index % wide.max(1));
        let (column, y) = (row / high.max(1), row % high.max(1));
        let (band, column) = (column / across.max(1), column % across.max(1));
        let place = column.saturating_mul(step).saturating_add(x);
        (band.saturating_mul(high).saturating_add(y), place)
    }

    /// Bytes in the format BMP, which begins with the lowest row. Each row has a multiple of four bytes.
    fn bitmap(self, alloc: Global, bytes: &[u8]) -> Result<Vec<u8>> {
        let (wide, high) = self.size(bytes.len());
        let padded = wide.div_ceil(4).saturating_mul(4);
        let size = padded.saturating_mul(high);
        let mut out = Vec::new(alloc);
        out.extend_from_slice(b"BM")?;
        put_numbers(&mut out, &[HEAD.saturating_add(size), 0, HEAD, 40])?;
        put_numbers(&mut out, &[wide.saturating_mul(8), high, 0x0001_0001])?;
        put_numbers(&mut out, &[0, size, 0, 0, 2, 2, 0x00FF_FFFF, 0x0020_2020])?;
        out.resize(HEAD.saturating_add(size), 0)?;
        for (index, byte) in bytes.iter().enumerate() {
            let (row, place) = self.place_of(index);
            let below = high.saturating_sub(row).saturating_sub(1);
            let at = HEAD.saturating_add(below.saturating_mul(padded));
            if let Some(pixels) = out.get_mut(at.saturating_add(place)) {
                *pixels = *byte;
            }
        }
        Ok(out)
    }
}

/// Appends numbers of four bytes, the low byte first.
fn put_numbers(out: &mut Vec<u8>, numbers: &[usize]) -> Result<()> {
    for number in numbers {
        let number = (*number).min(0xFFFF_FFFF) as u32;
        out.extend_from_slice(&number.to_le_bytes())?;
    }
    Ok(())
}

/// Appends bytes as pictures. A pixel is shown two wide and two high.
pub fn put_pictures(alloc: Global, out: &mut Text, bytes: &[u8]) -> Result<()> {
    for layout in LAYOUTS {
        let (wide, high) = layout.size(bytes.len());
        let text = STANDARD.encode(alloc, &layout.bitmap(alloc, bytes)?)?;
        put!(out; "<img src=\"data:image/bmp;base64,", text.as_str(), ("\" width=\"", wide.saturating_mul(16)));
        put!(out; ("\" height=\"", high.saturating_mul(2)), "\" alt=\"", layout.4, "\" title=\"", layout.4, "\"> ");
    }
    Ok(())
}
