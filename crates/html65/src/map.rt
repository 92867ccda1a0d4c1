//! The map of a page: the addresses of the image as rows of a picture.

use crate::kind::{KINDS, Kind};
use crate::markup::{Address, LinkTo, Page, Put, Result, Text, add, put};
use crate::survey::{Run, Survey};
use std::alloc::Global;

/// How wide the map is, in pixels.
const WIDTH: usize = 320;

/// The rows of a map.
#[derive(Drop)]
struct Rows {
    /// How many bytes a row has, and the address of the first one.
    wide: usize,
    above: usize,
    /// Which row of the picture each row is: rows of filler that follow each other are one.
    shown: Vec<usize>,
}

/// The last three digits of a number.
fn digits_of(number: usize) -> [u8; 3] {
    [
        b'0' + (number / 100 % 10) as u8,
        b'0' + (number / 10 % 10) as u8,
        b'0' + (number % 10) as u8,
    ]
}

/// Appends a line of a row: from where on, in which row, and how long. None of them has more than three digits.
fn put_stretch(out: &mut Text, from: usize, row: usize, len: usize) {
    let ([a, b, c], [d, e, f], [g, h, i]) = (digits_of(from), digits_of(row), digits_of(len));
    add(out, &[b'M', a, b, c, b' ', d, e, f, b'h', g, h, i]);
}

impl Rows {
    /// Those of the runs. Up to 4 KiB are in rows of 64.
    fn of(alloc: Global, survey: &Survey<'_, '_>) -> Result<Rows> {
        let begin = usize::from(survey.start);
        let end = begin.saturating_add(survey.bytes.len());
        let is_small = survey.bytes.len() <= 4096;
        let wide: usize = if is_small { 64 } else { 256 };
        let above = begin / wide * wide;
        let count = end.saturating_sub(above).div_ceil(wide);
        let mut shown = Vec::new(alloc);
        shown.resize(count, 1)?;
        for run in &survey.runs {
            let first = run.at.saturating_sub(above).div_ceil(wide);
            let after = run.end.saturating_sub(above) / wide;
            for row in first.saturating_add(1)..after {
                if let Some(one) = shown.get_mut(row)
                    && run.kind == Kind::Filler
                {
                    *one = 0;
                }
            }
        }
        let mut row: usize = 0;
        for one in shown.iter_mut() {
            row = row.saturating_add(*one);
            *one = row.saturating_sub(1);
        }
        Ok(Rows { wide, above, shown })
    }

    /// How many rows the picture has.
    fn count(&self) -> usize {
        self.shown.last().copied().unwrap_or(0).saturating_add(1)
    }

    /// Appends a run as lines.
    fn put(&self, out: &mut Text, run: &Run) {
        let wide = self.wide.max(1);
        let at = run.at.saturating_sub(self.above);
        let end = run.end.saturating_sub(self.above);
        let mut before = usize::MAX;
        for row in at / wide..end.div_ceil(wide) {
            let begin = row.saturating_mul(wide);
            let from = at.saturating_sub(begin);
            let to = end.saturating_sub(begin).min(wide);
            let y = self.shown.get(row).copied().unwrap_or(0);
            if y != before {
                put_stretch(out, from, y, to.saturating_sub(from));
            }
            before = y;
        }
    }
}

/// Appends the label at an address, if there is one.
fn put_label(out: &mut Text, survey: &Survey<'_, '_>, at: u64) {
    let first = survey.by_value.partition_point(|one| one.0 < at);
    for (value, place) in survey.by_value.get(first..).unwrap_or(&[]) {
        if *value != at {
            return;
        }
        if let Some(label) = survey.names.get(*place)
            && !label.definition.constant
        {
            return put!(out; ": ", label.definition.name);
        }
    }
}

/// Appends a run as a link to its first line, with its kind, its addresses, how many bytes it has if more than one, and
/// the label at its first address.
fn put_run(out: &mut Text, survey: &Survey<'_, '_>, rows: &Rows, run: &Run) {
    let (at, end, kind) = (run.at, run.end, KINDS[run.kind as usize]);
    put!(out; ("<a href=\"#a", Address(at)), "\" class=\"", kind, "\"><title>", kind, (" $", Address(at)));
    if 1 < run.len() {
        put!(out; (" to $", Address(end.saturating_sub(1))), (", ", run.len()), " bytes");
    }
    put_label(out, survey, at as u64);
    put!(out; "</title><path d=\"");
    rows.put(out, run);
    put!(out; "\"/></a>");
}

/// Appends the map: each run is a link, unless it has less than a sixteenth of a row of 256.
pub fn put_map(alloc: Global, out: &mut Text, survey: &Survey<'_, '_>) -> Result<()> {
    let rows = Rows::of(alloc, survey)?;
    let count = rows.count();
    let height = count.saturating_mul((600 / count.max(1)).clamp(2, 10));
    let least = if rows.wide == 64 { 1 } else { 16 };
    put!(out; ("<svg width=\"", WIDTH), ("\" height=\"", height), ("\" viewBox=\"0 -.5 ", rows.wide), (" ", count));
    put!(out; "\" preserveAspectRatio=\"none\" role=\"group\" aria-label=\"map\">\n");
    for (place, kind) in KINDS.iter().enumerate() {
        let mut has_some = false;
        for run in &survey.runs {
            if run.kind as usize == place && run.len() < least {
                if !has_some {
                    put!(out; "<path class=\"", *kind, "\" d=\"");
                }
                has_some = true;
                rows.put(out, run);
            }
        }
        put!(out; if has_some { "\"/>\n" } else { "" });
    }
    for run in &survey.runs {
        if least <= run.len() {
            put_run(out, survey, &rows, run);
        }
    }
    put!(out; "\n</svg>\n");
    Ok(())
}

/// Appends the pages of 256 bytes, each a link to the first line that has bytes of it.
pub fn put_pages(out: &mut Text, survey: &Survey<'_, '_>) {
    put!(out; "<p>Go to $");
    for (page, at) in survey.pages.iter().enumerate() {
        put!(out; " ", LinkTo(b'a', *at, Page(survey.first_page().saturating_add(page))));
    }
    put!(out; "; of $FC95 is <code>#aFC95</code> after the name of this page</p>\n");
}
