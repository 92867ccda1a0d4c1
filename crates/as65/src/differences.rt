//! The lines that say where a listing and an image differ.

ghost use Rattle.std.specs.Prelude.{◌≡◌, ◌++◌, IfOk, OnOk, flat_map};
ghost use Rattle.as65.specs.Words.{AreDifferences, IsDifferences, change_text, compared, lengths_line, origin_text, shown_bytes, spaced};

use crate::assembled::Listed;
use crate::changes::changes;
use crate::lines::placed_lines;
use crate::moves::{Label, moves_in, put_moves};
use crate::origins::Reached;
use crate::parts::{Part, Places};
use crate::scene::Scene;
use crate::segments::start_entered;
use crate::stretches::{Stretch, next_stretch};
use files65::{at_most, put_dots, put_shown, trimmed};
use map65::Image;
use std::alloc::{AllocError, Global};
use text65::{first_line, hex_digit, put_address, put_decimal};

/// How many bytes of a stretch are shown.
const SHOWN_BYTES: usize = 8;

/// What is said if it is not clear what has only moved.
const UNCLEAR: &[u8] = b"what has only moved is not clear; byte by byte:\n";

/// Appends each byte as two hex digits after a blank.
fn put_spaced(out: &mut Vec<u8>, bytes: &[u8]) -> Result<(), AllocError>
    ensures { OnOk result (out.new.items ≡ out.old.items ++ flat_map spaced bytes.now) }
{
    'bytes: for byte in bytes {
        let text = [b' ', hex_digit(*byte / 16), hex_digit(*byte % 16)];
        out.extend_from_slice(&text)?;
    }
    Ok(())
}

/// Appends the first bytes of a stretch, each after a blank.
fn put_bytes(out: &mut Vec<u8>, bytes: &[u8]) -> Result<(), AllocError>
    ensures { OnOk result (out.new.items ≡ out.old.items ++ shown_bytes bytes.now) }
{
    put_spaced(out, at_most(bytes, SHOWN_BYTES))?;
    put_dots(out, SHOWN_BYTES, bytes.len())
}

/// Appends an address, and the bytes that the image and the listing have there.
#[tactic(auto, unfolding(crate::specs::Differences::change_text))]
fn put_change(
    out: &mut Vec<u8>,
    address: usize,
    image: &[u8],
    bytes: &[u8],
) -> Result<(), AllocError>
    ensures { OnOk result (out.new.items ≡ out.old.items ++ change_text address image.now bytes.now) }
{
    put_address(out, b"$", address)?;
    out.extend_from_slice(b":")?;
    put_bytes(out, image)?;
    out.extend_from_slice(b" ->")?;
    put_bytes(out, bytes)
}

/// Appends the number of a line, and its beginning.
#[tactic(auto, unfolding(crate::specs::Differences::origin_text))]
fn put_origin(out: &mut Vec<u8>, number: usize, line: &[u8]) -> Result<(), AllocError>
    ensures { OnOk result (out.new.items ≡ out.old.items ++ origin_text number line.now) }
{
    put_decimal(out, b", line ", number)?;
    out.extend_from_slice(b": ")?;
    put_shown(out, line)?;
    out.extend_from_slice(b"\n")
}

/// Appends a line for lengths that differ.
#[tactic(auto, unfolding(crate::specs::Differences::lengths_line))]
fn put_lengths(out: &mut Vec<u8>, had: usize, has: usize) -> Result<(), AllocError>
    ensures { OnOk result (out.new.items ≡ out.old.items ++ lengths_line had has) }
{
    if had == has {
        return Ok(());
    }
    put_decimal(out, b"the image has ", had)?;
    put_decimal(out, b" bytes, the listing ", has)?;
    out.extend_from_slice(b"\n")
}

/// A line for each stretch of bytes that differ, and one for lengths that differ.
#[tactic(auto, using(crate::proofs::PassingLemmas::passing))]
fn byte_differences(
    alloc: Global,
    image: &Image,
    listed: &Listed<'_, '_, '_, '_>,
) -> Result<Vec<u8>, AllocError>
    ensures { IfOk result (λ text. AreDifferences (compared image.now listed.now) text.items) }
{
    let (old, new) = (image.bytes(), listed.bytes());
    let mut out = Vec::new(alloc);
    let mut reached = Reached::first(listed.assembled().source().text);
    let mut from = 0;
    'stretches: while let Some(Stretch { at, end }) = next_stretch(old, new, from) {
        let address = usize::from(image.start()) + at;
        reached = reached.of_byte(listed.ends(), address as u64);
        put_change(&mut out, address, &old[at..end], &new[at..end])?;
        put_origin(&mut out, reached.above + 1, reached.line)?;
        from = end;
    }
    put_lengths(&mut out, old.len(), new.len())?;
    Ok(out)
}

/// A line for each change, with the line of the listing that gives its first byte, or the byte after it, or else the
/// last one; and one for lengths that differ.
fn change_lines(
    scene: &Scene<'_, '_, '_, '_, '_>,
    changes: &[Part],
) -> Result<Vec<u8>, AllocError> {
    let (image, bytes) = (scene.image.bytes(), scene.bytes());
    let start = usize::from(scene.image.start());
    let last = bytes.len().saturating_sub(1);
    let mut out = Vec::new(scene.alloc);
    for Part { was, is } in changes {
        let address = start.saturating_add(was.at);
        put_change(&mut out, address, was.of(image), is.of(bytes))?;
        let at = start.saturating_add(is.at.min(last)) as u64;
        let above = scene.lines.partition_point(|line| line.end <= at);
        if let Some(line) = scene.lines.get(above) {
            put_origin(&mut out, line.number, trimmed(line.text))?;
        }
    }
    put_lengths(&mut out, image.len(), bytes.len())?;
    Ok(out)
}

/// What differs in a listing of which labels have moved, apart from what has only moved with them. If that is not
/// clear, all that differs.
fn moved_differences(
    alloc: Global,
    image: &Image,
    listed: &Listed<'_, '_, '_, '_>,
    labels: &[Label],
) -> Result<Vec<u8>, AllocError> {
    let source = listed.assembled().source();
    let lines = placed_lines(alloc, source, listed.ends())?;
    let mut places = Places::new(alloc, image)?;
    for label in labels {
        places.add(label.at, label.named)?;
    }
    let mut rest = source.text;
    for _ in listed.ends() {
        let Some((text, after)) = first_line(rest) else {
            break;
        };
        if let Some(start) = start_entered(alloc, source, text)? {
            places.add(start, start)?;
        }
        rest = after;
    }
    let parts = places.parts(listed.assembled().bytes().len())?;
    let scene = Scene {
        alloc,
        image,
        listed,
        lines: &lines,
        parts: &parts,
    };
    if let Some(changes) = changes(&scene)? {
        return change_lines(&scene, &changes);
    }
    let mut out = Vec::from_slice(alloc, UNCLEAR)?;
    out.extend_from_slice(&byte_differences(alloc, image, listed)?)?;
    Ok(out)
}

/// The lines that say where an image and a listing differ: one for each label at which the distance from the address in
/// its name changes; one for each stretch of bytes, and one for lengths that differ. If there are lines of labels, what
/// has only moved with them is left out.
pub fn differences(
    alloc: Global,
    image: &Image,
    listed: &Listed<'_, '_, '_, '_>,
) -> Result<Vec<u8>, AllocError>
    /// The text begins with a line for each label `LXXXX` at which the distance from $XXXX changes, in order. If
    /// there is none, the rest has one line for each stretch, in order: its address, at most eight bytes of the
    /// image and of the listing, and, if the listing begins where the image does, the number of the line that gives
    /// the first byte and at most 80 characters of that line. Blanks around it are left out, and `?` stands for
    /// each control byte, $80 to $9F among them. A last line has both lengths, if they differ. Or out of memory.
    ///
    /// If there is such a label, the rest is advice: which bytes have only moved, and how many changes there are. Its
    /// rule is in as65.1, and `tests/test_as65.py` tests it.
    ensures { IfOk result (λ text.
        IsDifferences listed.now.moves (compared image.now listed.now) text.items) }
{
    let labels = listed.labels(alloc)?;
    let moves = moves_in(alloc, &labels)?;
    if moves.is_empty() {
        return byte_differences(alloc, image, listed);
    }
    let mut out = Vec::new(alloc);
    put_moves(&mut out, &moves)?;
    out.extend_from_slice(&moved_differences(alloc, image, listed, &labels)?)?;
    Ok(out)
}
