//! Comments for what is given where it counts for nothing: an entry or a range outside the image, and
//! an entry inside a reached instruction; and for vectors that lead out of it.

use crate::text::Text;
use entries65::starts::has_vectors;
use info65::TagKind;
use map65::{ADDRESSES, is_inside};
use reach65::image::{ends, word};
use std::alloc::AllocError;
use text65::put_address;

/// How near to the image an address in halves may lie.
const NEAR: usize = 256;

/// How many groups HALVES get a comment.
const TOLD: usize = 16;

impl Text<'_> {
    /// Adds a comment for each entry that is given and each range of the information file that counts for nothing.
    pub fn put_misplaced(&mut self) -> Result<(), AllocError> {
        let advice = self.advice;
        let map = advice.steps.map();
        for &entry in self.given {
            if !is_inside(map.image(), usize::from(entry)) {
                self.put_address(b"# entry $", entry)?;
                self.put(b" is outside the image\n")?;
            } else if let Some(first) = advice.survey.holder_of(entry) {
                self.put_address(b"# entry $", entry)?;
                self.put_address(b" is inside the instruction at $", first)?;
                self.put(b"\n")?;
            }
        }
        let (start, end) = ends(map.image());
        for range in map.info().ranges() {
            if usize::from(range.last) < start || end <= usize::from(range.first) {
                self.put_address(b"# range $", range.first)?;
                self.put_address(b"-$", range.last)?;
                self.put(b" is outside the image\n")?;
            }
        }
        Ok(())
    }

    /// Adds a comment if the image has vectors, and the one of the reset leads out of it: which do, and, if its size is
    /// a power of two, where such an image has the address.
    pub fn put_vectors(&mut self) -> Result<(), AllocError> {
        let image = self.advice.steps.image();
        let reset = word(image, 0xFFFC).unwrap_or(0);
        if !has_vectors(image) || is_inside(image, usize::from(reset)) {
            return Ok(());
        }
        let mut before: &[u8] = b"# the vectors are $";
        let mut last = None;
        for vector in [0xFFFAusize, 0xFFFC, 0xFFFE] {
            if let Some(to) = word(image, vector)
                && !is_inside(image, usize::from(to))
                && last != Some(to)
            {
                self.put_address(before, to)?;
                before = b", $";
                last = Some(to);
            }
        }
        self.put(b", outside the image")?;
        let size = image.bytes().len();
        if size & size.saturating_sub(1) == 0 {
            let start = (usize::from(reset) / size.max(1)).saturating_mul(size);
            put_address(&mut self.out, b"; does it belong at $", start)?;
            self.put(b"?")?;
        }
        self.put(b"\n")
    }

    /// Adds a comment for code that is copied and runs elsewhere: how it is listed there.
    pub fn put_copies(&mut self) -> Result<(), AllocError> {
        let map = self.advice.steps.map();
        let before = map.info().settings().offset as usize;
        for copied in &self.advice.addresses.copies {
            let inside = copied.from.saturating_sub(map.image().start());
            let offset = before.saturating_add(usize::from(inside));
            self.put_address(b"# code from $", copied.from)?;
            self.put_address(b" is copied to $", copied.to)?;
            self.put_decimal(b" and run there: list it with INPUTOFFS ", offset)?;
            self.put_address(b"; STARTADDR $", copied.to)?;
            self.put(b";\n")?;
        }
        Ok(())
    }

    /// Whether an address lies far before the image or behind this end, and has no name.
    fn is_far(&self, address: u16, end: usize) -> bool {
        let map = self.advice.steps.map();
        let start = usize::from(map.image().start());
        let at = usize::from(address);
        (at < start.saturating_sub(NEAR) || end.saturating_add(NEAR) <= at)
            && map.info().covering(address).is_none()
    }

    /// Returns where the image ends, or what the file says or is proposed to lie after it.
    pub fn last_end(&self) -> usize {
        let (_, image_end) = ends(self.advice.steps.image());
        let proposed = self.last_after();
        let mut end = proposed.map_or(image_end, |last| usize::from(last).saturating_add(1));
        for tag in self.advice.steps.tags() {
            if let (TagKind::After, Some(last)) = (tag.kind, tag.last) {
                end = end.max(usize::from(last).saturating_add(1));
            }
        }
        end
    }

    /// Adds a comment for each group HALVES of the information file that forms an address far outside the image, 16 at
    /// most: its first such address.
    pub fn put_far_halves(&mut self) -> Result<(), AllocError> {
        let advice = self.advice;
        let (mut told, mut left) = (0usize, ADDRESSES);
        let end = self.last_end();
        for split in &advice.data.declared {
            let count = split.count.min(left);
            left = left.saturating_sub(count);
            let image = advice.steps.image();
            let far = (0..count).find_map(|index| {
                let address = split.table.entry(image, index)?;
                self.is_far(address, end).then_some((index, address))
            });
            if let Some((index, address)) = far
                && told < TOLD
            {
                told = told.saturating_add(1);
                let (low, high) = split.table.places(index);
                put_address(&mut self.out, b"# the halves at $", low)?;
                put_address(&mut self.out, b" and $", high)?;
                self.put_address(b" are $", address)?;
                self.put(b", far outside the image\n")?;
            }
        }
        Ok(())
    }
}
