//! A picture of an image: a character for 64 bytes, and the counts of its bytes; and what helps where little is known.

use crate::text::Text;
use reach65::image::ends;
use std::alloc::AllocError;
use text65::put_address;

/// How many bytes a character stands for.
const CELL: usize = 64;

/// How many bytes a line stands for.
const ROW: usize = 1024;

/// What usually helps where little is known.
const HELP: &[u8] = b"\
# Less than half is known. What usually helps, in this order: an emulator's log
# of what ran, `#: ENTRY` for other code, AddrTable or RtsTable for tables that
# code reads, `#: INLINE` for routines with a text or words behind their calls.
";

/// The character of that many bytes, of which so many are code, and so many code or in ranges.
fn character(len: usize, code: usize, both: usize) -> u8 {
    match (code, both) {
        (0, 0) => b'.',
        (0, _) => b'r',
        _ if code == len => b'#',
        _ => b'+',
    }
}

impl Text<'_> {
    /// Adds a picture of the image, with what its characters stand for, and the counts of its bytes; and what usually
    /// helps, in the order that helped, if code and ranges have less than half of the image
    /// without its filler.
    pub fn put_picture(&mut self) -> Result<(), AllocError> {
        self.put(b"# a character for 64 bytes: # code that is reached, + partly,\n")?;
        self.put(b"# r in a range of the information file, . neither\n")?;
        let advice = self.advice;
        let (start, end) = ends(advice.steps.image());
        let (mut reached, mut both) = (0usize, 0usize);
        for row in (start..end).step_by(ROW) {
            put_address(&mut self.out, b"# $", row)?;
            self.put(b" ")?;
            for cell in (row..end.min(row.saturating_add(ROW))).step_by(CELL) {
                let next = end.min(cell.saturating_add(CELL));
                let (mut code, mut taken) = (0usize, 0usize);
                for at in cell..next {
                    if advice.reach.taken.get(at as u16) {
                        taken = taken.saturating_add(1);
                        let is_code = advice.reach.code.get(at as u16);
                        code = code.saturating_add(usize::from(is_code));
                    }
                }
                self.out
                    .push(character(next.saturating_sub(cell), code, taken))?;
                reached = reached.saturating_add(code);
                both = both.saturating_add(taken);
            }
            self.put(b"\n")?;
        }
        let len = end.saturating_sub(start);
        self.put_decimal(b"# ", reached)?;
        let ranges = both.saturating_sub(reached);
        self.put_decimal(b" bytes of code that is reached, ", ranges)?;
        self.put_decimal(b" in ranges, ", len.saturating_sub(both))?;
        self.put(b" in neither\n")?;
        let filled = len.saturating_sub(self.filler_len());
        if filled <= both.saturating_mul(2) || len < ROW {
            return Ok(());
        }
        self.put(HELP)
    }
}
