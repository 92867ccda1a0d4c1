//! Images are put back into a copy of their file.

use crate::bytes::{Bytes, HIGH32, put_number};
use crate::failure::{Failure, Refused};
use crate::found::{Coding, Found, Part, Piece};
use crate::kinds::found_in;
use crate::records::{put_byte, put_checksums, written_anew};
use std::alloc::{AllocError, Global};

/// Writes the bytes of a piece, if it has room for them: filler has none for others.
fn put_piece(bytes: &mut [u8], piece: &Piece, image: &[u8]) -> bool {
    let Some(place) = bytes.get_mut(piece.at..piece.at.saturating_add(piece.size())) else {
        return false;
    };
    let mut has_room = true;
    for (index, byte) in image.iter().enumerate() {
        match piece.coding {
            Coding::Digits => put_byte(place, index.saturating_mul(2), *byte),
            Coding::Filler(value) => has_room &= *byte == value,
            Coding::Plain => {
                if let Some(to) = place.get_mut(index) {
                    *to = *byte;
                }
            }
        }
    }
    has_room
}

/// The file with an image of the same length, if all of it has room.
fn in_place(found: &Found<'_>, part: &Part, image: &[u8]) -> Result<Option<Vec<u8>>, AllocError> {
    let mut bytes = Vec::from_slice(found.alloc, found.file.0)?;
    let mut rest = Bytes(image);
    let mut has_room = image.len() == part.len;
    for piece in &part.pieces {
        has_room &= put_piece(&mut bytes, piece, rest.first(piece.len));
        rest = rest.from(piece.len);
    }
    Ok(has_room.then_some(bytes))
}

/// The file with an image of another length, and the numbers that rise with it, if that has room.
fn in_new_room(
    found: &Found<'_>,
    part: &Part,
    image: &[u8],
) -> Result<Option<Vec<u8>>, AllocError> {
    if found.word == "records" {
        return match written_anew(found, image) {
            Some(text) => Ok(Some(text.whole()?)),
            None => Ok(None),
        };
    }
    let (file, at) = (found.file, part.place().unwrap_or(0));
    let mut bytes = Vec::from_slice(found.alloc, file.first(at))?;
    let mut has_room = true;
    for (place, form) in &part.rising {
        let number = file.number(*place, *form).saturating_add(image.len());
        has_room &= put_number(&mut bytes, *place, *form, number.saturating_sub(part.len));
    }
    bytes.extend_from_slice(image)?;
    bytes.extend_from_slice(file.from(at.saturating_add(part.len)).0)?;
    Ok(has_room.then_some(bytes))
}

/// Makes right what follows from the bytes of all parts: the checksum of each record, or the sum in a cartridge's
/// header.
fn put_sums(found: &Found<'_>, bytes: &mut [u8]) {
    if found.word == "records" {
        put_checksums(bytes);
    } else if found.word == "car" {
        let mut sum: u32 = 0;
        for byte in bytes.iter().skip(16) {
            sum = sum.wrapping_add(u32::from(*byte));
        }
        put_number(bytes, 8, HIGH32, sum as usize);
    }
}

/// The file with this image of a part.
fn with_image(found: &Found<'_>, index: usize, image: &[u8]) -> Result<Vec<u8>, Failure> {
    let name = String::from_str(found.alloc, found.given.name)?;
    let Some(part) = found.parts.get(index) else {
        return Err(Failure::Own(Refused::Other(name)));
    };
    let mut made = in_place(found, part, image)?;
    if made.is_none() && part.can_grow {
        made = in_new_room(found, part, image)?;
    }
    let Some(mut bytes) = made else {
        return Err(Failure::Own(Refused::Length(name, image.len(), part.len)));
    };
    put_sums(found, &mut bytes);
    Ok(bytes)
}

/// The bytes that are in no part and do not follow from the parts.
fn frame_of(found: &Found<'_>) -> Result<Vec<u8>, AllocError> {
    let mut marks = Vec::new(found.alloc);
    marks.resize(found.file.0.len(), false)?;
    mark(&mut marks, &found.derived);
    for part in &found.parts {
        mark(&mut marks, &part.pieces);
    }
    let mut frame = Vec::new(found.alloc);
    for (byte, is_marked) in found.file.0.iter().zip(&marks) {
        if !*is_marked {
            frame.push(*byte)?;
        }
    }
    Ok(frame)
}

fn mark(marks: &mut [bool], pieces: &[Piece]) {
    for piece in pieces {
        let end = piece.at.saturating_add(piece.size());
        for mark in marks.get_mut(piece.at..end).unwrap_or(&mut []) {
            *mark = true;
        }
    }
}

/// Whether a file has the same parts as another, but for the images of some, and all else as it was.
fn are_put(
    before: &Found<'_>,
    after: &Found<'_>,
    images: &[Option<Vec<u8>>],
) -> Result<bool, AllocError> {
    let mut are_put = before.word == after.word
        && before.parts.len() == after.parts.len()
        && frame_of(before)? == frame_of(after)?;
    let mut is_changed = false;
    for ((old, new), image) in before.parts.iter().zip(&after.parts).zip(images) {
        let (was, is) = (before.image(old)?, after.image(new)?);
        are_put &= old.start == new.start && *image.as_ref().unwrap_or(&was) == is;
        is_changed |= was != is;
    }
    Ok(are_put && (is_changed || before.file.0 == after.file.0))
}

/// The bytes of a file with this image of a part.
fn put_image(
    found: &Found<'_>,
    bytes: &[u8],
    index: usize,
    image: &[u8],
) -> Result<Vec<u8>, Failure> {
    let before = found_in(found.alloc, Bytes(bytes), found.given);
    with_image(&before, index, image)
}

/// Whether these bytes are read back as the file with the images.
fn is_read_back(
    found: &Found<'_>,
    bytes: &[u8],
    images: &[Option<Vec<u8>>],
) -> Result<bool, Failure> {
    let after = found_in(found.alloc, Bytes(bytes), found.given);
    if after.lost {
        return Err(Failure::Memory);
    }
    Ok(are_put(found, &after, images)?)
}

/// Returns the file with images in the place of some of its parts. It is read back: unless its parts are the images and
/// the other parts, and all that is in no part stays, or follows from the parts, there is none. Without another image
/// it is the file.
pub fn with_images(found: &Found<'_>, images: &[Option<Vec<u8>>]) -> Result<Vec<u8>, Failure> {
    let alloc = found.alloc;
    let mut bytes = Vec::from_slice(alloc, found.file.0)?;
    for (index, image) in images.iter().enumerate() {
        if let Some(image) = image {
            bytes = put_image(found, &bytes, index, image)?;
        }
    }
    if is_read_back(found, &bytes, images)? {
        return Ok(bytes);
    }
    let name = String::from_str(alloc, found.given.name)?;
    Err(Failure::Own(Refused::Other(name)))
}
