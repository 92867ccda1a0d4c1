//! What a listing and an image have from one label `LXXXX` to the next.

use crate::stretches::Stretch;
use map65::Image;
use std::alloc::{AllocError, Global};

/// Bytes of an image, and what a listing has in their place, as offsets from the first byte of each.
#[derive(Clone, Copy)]
pub struct Part {
    pub was: Stretch,
    pub is: Stretch,
}

impl Part {
    /// Whether the listing has as many bytes as the image.
    pub fn is_even(self) -> bool {
        self.was.len() == self.is.len()
    }

    /// Whether it has no byte of another part.
    pub fn is_within(self, whole: Part) -> bool {
        self.was.is_within(whole.was) && self.is.is_within(whole.is)
    }

    /// As much of it as both have, and what one of them has after that.
    fn halves(self) -> [Part; 2] {
        let len = self.was.len().min(self.is.len());
        let [was, was_after] = self.was.halves(len);
        let [is, is_after] = self.is.halves(len);
        let after = Part {
            was: was_after,
            is: is_after,
        };
        [Part { was, is }, after]
    }
}

/// Where a listing and an image begin anew, as offsets in the listing and in the image.
#[derive(Drop)]
pub struct Places<'i> {
    alloc: Global,
    image: &'i Image,
    places: Vec<(usize, usize)>,
}

impl<'i> Places<'i> {
    /// Both begin at one address.
    pub fn new(alloc: Global, image: &'i Image) -> Result<Places<'i>, AllocError> {
        let places = vec![in alloc; (0usize, 0usize); 1]?;
        Ok(Places {
            alloc,
            image,
            places,
        })
    }

    /// What the listing has at an address, the image has at another one, if it goes so far.
    pub fn add(&mut self, is: u64, was: u64) -> Result<(), AllocError> {
        let start = u64::from(self.image.start());
        if let Some(was) = was.checked_sub(start)
            && was <= self.image.bytes().len() as u64
        {
            self.places
                .push((is.saturating_sub(start) as usize, was as usize))?;
        }
        Ok(())
    }

    /// The parts of a listing of this many bytes, in its order. A part goes up to the next place in either, so each
    /// byte of both is in one; but from the last place of the listing on there is one part as far as both go, and one
    /// after it.
    pub fn parts(mut self, len: usize) -> Result<Vec<Part>, AllocError> {
        self.places.sort()?;
        // Of places with one offset in the image the last has what follows.
        let mut named = Vec::new(self.alloc);
        for (index, (_, was)) in self.places.iter().enumerate() {
            named.push((*was, index))?;
        }
        named.sort()?;
        let mut parts = Vec::new(self.alloc);
        for (index, &(is, was)) in self.places.iter().enumerate() {
            let later = named.get(named.partition_point(|other| *other <= (was, index)));
            let next = self.places.get(index.saturating_add(1));
            let (old, new) = (self.image.bytes().len(), len);
            let part = Part {
                was: Stretch {
                    at: was,
                    end: later.map_or(old, |later| later.0),
                },
                is: Stretch {
                    at: is,
                    end: next.map_or(new, |next| next.0),
                },
            };
            if next.is_some() {
                add(&mut parts, part)?;
            } else {
                for half in part.halves() {
                    add(&mut parts, half)?;
                }
            }
        }
        Ok(parts)
    }
}

/// Adds a part, or makes the last one longer, if both are even and one follows the other in the image.
fn add(parts: &mut Vec<Part>, part: Part) -> Result<(), AllocError> {
    if let Some(last) = parts.last_mut()
        && last.is_even()
        && part.is_even()
        && last.was.end == part.was.at
    {
        (last.was.end, last.is.end) = (part.was.end, part.is.end);
        return Ok(());
    }
    parts.push(part)?;
    Ok(())
}
