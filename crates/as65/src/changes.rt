//! What differs between an image and a listing in which labels have left the address in their
//! name, apart from what has only moved.
//!
//! Each label `LXXXX` stands for the address in its name. What lies from one to the next is a part, and is compared
//! with what the image has from that address to the next one of a label (`parts`):
//!
//! - If it has as many bytes, byte by byte. A byte has only moved if the image has it, or if its line gave that byte
//!   there (`before`).
//! - Else bytes were put in or taken out. The first lines that have only moved are left out, and so are the last ones;
//!   the rest is one change.

use crate::lines::PlacedLine;
use crate::parts::Part;
use crate::scene::Scene;
use crate::stretches::Stretch;
use files65::at_most;
use std::alloc::AllocError;
use std::ops::Range;

/// What is compared, and what was found.
#[derive(Drop)]
struct Search<'s, 'c, 'a, 't, 'l, 'n> {
    scene: &'s Scene<'c, 'a, 't, 'l, 'n>,
    /// The bytes of the listing; where its lines have only moved, those that they gave.
    gave: Vec<u8>,
    changes: Vec<Part>,
}

/// A part without the bytes that are alike at its beginning and its end.
fn trimmed(scene: &Scene<'_, '_, '_, '_, '_>, mut part: Part) -> Part {
    let (image, bytes) = (scene.image.bytes(), scene.bytes());
    let pairs = part.was.of(image).iter().zip(part.is.of(bytes).iter());
    let first = pairs.take_while(|(byte, other)| byte == other).count();
    part.was.at = part.was.at.saturating_add(first);
    part.is.at = part.is.at.saturating_add(first);
    let (was, is) = (
        part.was.of(image).iter().rev(),
        part.is.of(bytes).iter().rev(),
    );
    let last = was
        .zip(is)
        .take_while(|(byte, other)| byte == other)
        .count();
    part.was.end = part.was.end.saturating_sub(last);
    part.is.end = part.is.end.saturating_sub(last);
    part
}

impl<'s, 'c, 'a, 't, 'l, 'n> Search<'s, 'c, 'a, 't, 'l, 'n> {
    /// The offsets of the bytes of a line.
    fn stretch(&self, line: &PlacedLine<'t>) -> Stretch {
        let start = u64::from(self.scene.image.start());
        Stretch {
            at: line.at.saturating_sub(start) as usize,
            end: line.end.saturating_sub(start) as usize,
        }
    }

    /// The places of the lines that begin in a stretch.
    fn places_in(&self, stretch: Stretch) -> Range<usize> {
        let start = u64::from(self.scene.image.start());
        let at = start.saturating_add(stretch.at as u64);
        let end = start.saturating_add(stretch.end as u64);
        let lines = self.scene.lines;
        lines.partition_point(|line| line.at < at)..lines.partition_point(|line| line.at < end)
    }

    /// The bytes of a line; in place of those that the image does not have from an offset on, those that the line gave
    /// there, if the image has them.
    fn earlier(&self, line: &PlacedLine<'t>, at: usize) -> Result<Vec<u8>, AllocError> {
        let is = self.stretch(line);
        let old = at_most(self.scene.image.bytes().get(at..).unwrap_or(&[]), is.len());
        let mut bytes = Vec::from_slice(self.scene.alloc, is.of(self.scene.bytes()))?;
        if bytes.as_slice() == old {
            return Ok(bytes);
        }
        let gave = self.scene.gave(line, at, old)?;
        if gave.len() == is.len() {
            for ((byte, gave), old) in bytes.iter_mut().zip(gave.iter()).zip(old.iter()) {
                if gave == old {
                    *byte = *gave;
                }
            }
        }
        Ok(bytes)
    }

    /// Takes down what lines gave from an offset of the listing on.
    fn keep(&mut self, at: usize, bytes: &[u8]) {
        for (offset, byte) in bytes.iter().enumerate() {
            if let Some(place) = self.gave.get_mut(at.saturating_add(offset)) {
                *place = *byte;
            }
        }
    }

    /// Adds a byte that differs, or makes the last change longer, if that has as many bytes of both and ends there.
    fn add(&mut self, was: usize, is: usize) -> Result<(), AllocError> {
        let byte = Part {
            was: Stretch::of_byte(was),
            is: Stretch::of_byte(is),
        };
        if let Some(last) = self.changes.last_mut()
            && last.is_even()
            && last.was.end == was
            && last.is.end == is
        {
            (last.was.end, last.is.end) = (byte.was.end, byte.is.end);
            return Ok(());
        }
        self.changes.push(byte)?;
        Ok(())
    }

    /// Adds what differs in a part that has as many bytes as it had.
    fn compare_bytes(&mut self, part: Part) -> Result<(), AllocError> {
        let scene = self.scene;
        for line in scene.lines.get(self.places_in(part.is)).unwrap_or(&[]) {
            let at = self.stretch(line).at;
            let was = part.was.at.saturating_add(at.saturating_sub(part.is.at));
            let earlier = self.earlier(line, was)?;
            let earlier = at_most(&earlier, part.is.end.saturating_sub(at));
            self.keep(at, earlier);
            for (offset, byte) in earlier.iter().enumerate() {
                let (was, is) = (was.saturating_add(offset), at.saturating_add(offset));
                if self.scene.image.bytes().get(was) != Some(byte) {
                    self.add(was, is)?;
                }
            }
        }
        Ok(())
    }

    /// Whether a line has only moved from a stretch of the image. Then takes down what it gave there.
    fn takes(&mut self, line: &PlacedLine<'t>, was: Stretch) -> Result<bool, AllocError> {
        let earlier = self.earlier(line, was.at)?;
        if earlier.as_slice() != was.of(self.scene.image.bytes()) {
            return Ok(false);
        }
        self.keep(self.stretch(line).at, &earlier);
        Ok(true)
    }

    /// Adds the one change of a part that has not as many bytes as it had: what is left between its first lines that
    /// have only moved and its last ones.
    fn compare_ends(&mut self, part: Part) -> Result<(), AllocError> {
        let Part { mut was, mut is } = part;
        let scene = self.scene;
        let lines = scene.lines.get(self.places_in(is)).unwrap_or(&[]);
        let mut first = 0usize;
        for line in lines {
            let [taken, rest] = was.halves(self.stretch(line).len());
            if !self.takes(line, taken)? {
                break;
            }
            (was, is.at) = (rest, self.stretch(line).end);
            first = first.saturating_add(1);
        }
        for line in lines.get(first..).unwrap_or(&[]).iter().rev() {
            let len = was.len().saturating_sub(self.stretch(line).len());
            let [rest, taken] = was.halves(len);
            if !self.takes(line, taken)? {
                break;
            }
            (was, is.end) = (rest, self.stretch(line).at);
        }
        self.changes.push(trimmed(self.scene, Part { was, is }))?;
        Ok(())
    }

    /// The image with the changes in it, by the parts of the listing; each byte of it is in one.
    fn applied(&self) -> Result<Vec<u8>, AllocError> {
        let mut out = Vec::new(self.scene.alloc);
        let mut rest = self.changes.as_slice();
        for part in self.scene.parts {
            let own = rest.iter().take_while(|change| change.is_within(*part));
            let count = own.count();
            let mut was = part.was;
            for change in rest.get(..count).unwrap_or(&[]) {
                was.end = change.was.at;
                out.extend_from_slice(was.of(self.scene.image.bytes()))?;
                out.extend_from_slice(change.is.of(self.scene.bytes()))?;
                was = Stretch {
                    at: change.was.end,
                    end: part.was.end,
                };
            }
            out.extend_from_slice(was.of(self.scene.image.bytes()))?;
            rest = rest.get(count..).unwrap_or(&[]);
        }
        Ok(out)
    }
}

/// What differs, in the order of the listing, apart from what has only moved. None if these changes of the image do not
/// give the listing with the bytes that its lines gave before. Fails only if memory ran out.
pub fn changes(scene: &Scene<'_, '_, '_, '_, '_>) -> Result<Option<Vec<Part>>, AllocError> {
    let mut search = Search {
        scene,
        gave: Vec::from_slice(scene.alloc, scene.bytes())?,
        changes: Vec::new(scene.alloc),
    };
    for part in scene.parts {
        if part.is_even() {
            search.compare_bytes(*part)?;
        } else {
            search.compare_ends(*part)?;
        }
    }
    let parts = scene.parts.iter();
    let taken = parts.fold(0usize, |sum, part| sum.saturating_add(part.was.len()));
    if taken != scene.image.bytes().len() || search.applied()? != search.gave {
        return Ok(None);
    }
    Ok(Some(search.changes))
}
