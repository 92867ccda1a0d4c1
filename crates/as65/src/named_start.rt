//! The start that the names of a listing speak for: da65 calls an address `LXXXX` that has no name.

use crate::assembled::Listed;
use map65::Image;
use std::alloc::{AllocError, Global};

/// A start, and how many labels `LXXXX` would be at $XXXX from there.
#[derive(Clone, Copy)]
pub struct NamedStart {
    pub start: u64,
    pub labels: usize,
}

/// The start from which the first label `LXXXX` of a listing would be at $XXXX, and how many such labels would. `None`
/// if it is there already, if it would be there from no start, or if the image has no room from there on.
pub fn named_start(
    alloc: Global,
    image: &Image,
    listed: &Listed<'_, '_, '_, '_>,
) -> Result<Option<NamedStart>, AllocError> {
    let labels = listed.labels(alloc)?;
    let taken = u64::from(image.start());
    let Some(start) = labels.first().and_then(|label| label.earlier(taken)) else {
        return Ok(None);
    };
    if start == taken || 65_536 < start.saturating_add(image.bytes().len() as u64) {
        return Ok(None);
    }
    let speaking = labels
        .iter()
        .filter(|label| label.earlier(taken) == Some(start));
    let labels = speaking.count();
    Ok(Some(NamedStart { start, labels }))
}
