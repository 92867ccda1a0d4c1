//! The text of the lines `#: ..`.

use std::alloc::{AllocError, Allocator};
use text65::first_line;

/// What follows the `#:` of each line that begins so, and an empty line for each other: so each token is on its line.
pub(crate) fn tagged_text<A: Allocator>(alloc: A, bytes: &[u8]) -> Result<Vec<u8, A>, AllocError> {
    let mut text = Vec::with_capacity(alloc, bytes.len())?;
    let mut left = bytes;
    'lines: while let Some((line, after)) = first_line(left) {
        if let Some(groups) = line.strip_prefix(b"#:") {
            text.extend_from_slice(groups)?;
        }
        if line.len().saturating_add(after.len()) < left.len() {
            text.push(b'\n')?;
        }
        left = after;
    }
    Ok(text)
}
