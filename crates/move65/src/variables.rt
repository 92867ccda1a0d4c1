//! Variables behind the image: code that has run reads and writes there, and they move with its end.

use crate::lines::Lines;
use crate::scene::Scene;
use crate::world::World;
use info65::{Info, default_name};
use std::alloc::AllocError;
use stmt65::Definition;

/// How far a variable may lie behind the one before it, and the first one behind the image.
const GAP: usize = 256;

/// How far a variable may lie behind the one before it if there are `MANY` from it on.
const WIDE: usize = 2048;

/// How many there are at least, each both read and written, if they lie further behind.
const MANY: usize = 8;

/// Where the ROMs and the registers of machines begin. An image that begins below one has no variables there.
const EDGES: [usize; 4] = [0x8000, 0x9000, 0xC000, 0xD000];

/// The page zero has no variables that move.
const ZERO_PAGE_END: usize = 0x100;

/// Whether a name is one that somebody has given to an address behind the image that does not move yet: that of a
/// register, of a screen or of a routine of another ROM.
fn is_foreign(scene: &Scene, name: &[u8], address: u16) -> bool {
    name != default_name(address).as_slice() && !scene.after.get(address)
}

/// Takes for variables what lies behind the image up to the last address that a line such as `NAME := * + 1` names: its
/// name moves with the listing, so in the second image it lies behind the image too.
pub fn take_defined(scene: &mut Scene, definitions: &[Definition<'_>]) {
    let end = scene.end();
    let mut behind = end;
    for definition in definitions {
        if let Some(address) = definition.address()
            && !definition.constant
            && scene.is_behind(address)
        {
            behind = behind.max(usize::from(address).saturating_add(1));
        }
    }
    scene.after.set_span(end, behind);
}

/// The address before which variables end: the first edge that the image begins below, or the first address
/// behind the image that has a name. An image that ends in the zero page has none.
pub fn limit_of(scene: &Scene, definitions: &[Definition<'_>], info: &Info) -> usize {
    let (start, end) = (usize::from(scene.start), scene.end());
    if end <= ZERO_PAGE_END {
        return 0;
    }
    let mut limit = EDGES
        .iter()
        .copied()
        .find(|&edge| start < edge)
        .unwrap_or(0);
    for index in 0..info.given_count() {
        let given = info.given(index);
        let first = end.max(usize::from(given.address));
        let is_behind = end < usize::from(given.address).saturating_add(given.size as usize);
        if is_behind && is_foreign(scene, given.text, given.address) {
            limit = limit.min(first);
        }
    }
    for definition in definitions {
        if let Some(address) = definition.address()
            && definition.constant
            && scene.is_behind(address)
            && is_foreign(scene, definition.name, address)
        {
            limit = limit.min(usize::from(address));
        }
    }
    limit
}

/// The address behind the last variable, if the first one may lie anywhere up to `WIDE` bytes behind the image. From
/// there on those are written, or move already, each at most 256 bytes behind the one before it. Behind a gap of up to
/// 2,048 bytes, where a table may be, there are eight or more that are both read and written.
fn end_of(world: &World) -> usize {
    let mut end = world.scene.end();
    let mut last = end;
    let mut count = MANY;
    for at in end..world.scene.limit {
        if last.saturating_add(GAP) < at {
            if last.saturating_add(WIDE) < at {
                break;
            }
            count = 0;
        }
        let is_written = world.written.get_at(at) || world.scene.after.get_at(at);
        if is_written && (world.read.get_at(at) || MANY <= count) {
            count = count.saturating_add(1);
            last = at;
            if MANY <= count {
                end = at.saturating_add(1);
            }
        }
    }
    end
}

/// The first variable before an address, if it lies too far behind the image to be moved with it.
fn far_from(world: &World, end: usize) -> Option<u16> {
    let near = world.scene.end().saturating_add(GAP);
    for at in world.scene.end()..end {
        if world.written.get_at(at) || world.scene.after.get_at(at) {
            return if near < at {
                u16::try_from(at).ok()
            } else {
                None
            };
        }
    }
    None
}

/// The address of the operand of the instruction at an address, if it is one of a variable behind the image.
pub fn variable_at(scene: &Scene, lines: &Lines, at: u16) -> Option<u16> {
    let (low, high) = (at.wrapping_add(1), at.wrapping_add(2));
    let address = scene.word(low, high)?;
    let stays = lines.operands.get(at) && scene.stays(low) && scene.stays(high);
    (stays && scene.is_behind(address)).then_some(address)
}

/// Moves the operands of code that the listing has as data: once it is followed, they are names. Returns whether there
/// are any.
pub fn move_found(world: &mut World) -> bool {
    let mut has_moved = false;
    for low in 0..=u16::MAX {
        let high = low.wrapping_add(1);
        let scene = &mut world.scene;
        if world.found_words.get(low)
            && scene.stays(low)
            && scene.stays(high)
            && let Some(address) = scene.word(low, high)
            && scene.moves(address)
        {
            scene.move_word(low, high, address);
            has_moved = true;
        }
    }
    has_moved
}

/// Moves what is touched behind the image, and the operands of the listing that have an address there. Appends these
/// addresses, and returns whether there are any. What lies too far behind the image is kept for a question.
pub fn move_variables(
    world: &mut World,
    lines: &Lines,
    found: &mut Vec<u16>,
) -> Result<bool, AllocError> {
    let end = end_of(world);
    world.scene.far = far_from(world, end).map(|first| (first, end));
    if world.scene.far.is_some() {
        return Ok(false);
    }
    world.scene.after_end = end;
    let before = found.len();
    let scene = &mut world.scene;
    for at in 0..=u16::MAX {
        if let Some(address) = variable_at(scene, lines, at)
            && scene.moves(address)
        {
            scene.move_word(at.wrapping_add(1), at.wrapping_add(2), address);
            scene.name_behind(address);
            found.push(address)?;
        }
    }
    Ok(before < found.len())
}
