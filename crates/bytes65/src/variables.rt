//! The variables right after an image.

use crate::survey::{Survey, writes};
use entries65::Steps;
use info65::TagKind;
use map65::{ADDRESSES, Marks};
use reach65::image::{address, ends};
use std::alloc::AllocError;

/// How far a variable may lie after the one before it.
const GAP: usize = 2048;

/// How far the first one may lie after the image to be one without a question.
const NEAR: usize = 256;

/// How many of them are both read and written, if the first may lie farther.
const USED: usize = 8;

/// Where machines have cartridges, other ROMs and registers rather than variables of a program that ends before.
const BORDERS: [usize; 3] = [0x8000, 0x9000, 0xC000];

/// How far behind the one before the first variable from such a border on may lie.
const CLOSE: usize = 32;

/// Where machines have registers and other ROMs whatever the program is.
const REGISTERS: usize = 0xD000;

/// Where some have registers.
const IO: usize = 0xC000;

/// The variables after an image.
#[derive(Drop)]
pub struct Variables {
    /// The addresses, in order.
    pub addresses: Vec<u16>,
    /// Those from a name of the information file on that would be some without it.
    pub named: Vec<u16>,
    /// The address that has this name, or is covered by it.
    pub name_at: u16,
    /// Those that may be some: the first lies far from the image.
    pub far: Vec<u16>,
    /// Those farther behind that may be some.
    pub beyond: Vec<u16>,
}

/// How far after the one before a variable of this address may lie, of an image that ends there.
fn gap_before(end: usize, last: usize, at: usize) -> usize {
    for border in BORDERS {
        if end <= border && last < border && border <= at {
            return CLOSE;
        }
    }
    GAP
}

/// Where each group AFTER of the information file begins, in order, and the last address of those up to it.
fn groups_after(steps: &Steps<'_>) -> Result<Vec<(u16, u16)>, AllocError> {
    let mut groups = Vec::new(steps.alloc());
    for tag in steps.tags() {
        if let (TagKind::After, Some(first), Some(last)) = (tag.kind, tag.first, tag.last) {
            groups.push((first, last))?;
        }
    }
    groups.sort()?;
    let mut greatest = 0;
    for (_, last) in groups.iter_mut() {
        greatest = greatest.max(*last);
        *last = greatest;
    }
    Ok(groups)
}

/// The first address from this one on that a name covers, unless a group AFTER has it.
fn first_named(steps: &Steps<'_>, from: usize) -> Result<usize, AllocError> {
    let info = steps.map().info();
    let mut named = Vec::new(steps.alloc());
    for k in 0..info.given_count() {
        let name = info.given(k);
        let at = usize::from(name.address);
        if from < at.saturating_add(name.size as usize) {
            named.push(at.max(from))?;
        }
    }
    named.sort()?;
    let groups = groups_after(steps)?;
    for at in named {
        let begun = groups.partition_point(|(first, _)| usize::from(*first) <= at);
        match groups.get(begun.wrapping_sub(1)) {
            Some((_, last)) if at <= usize::from(*last) => {}
            _ => return Ok(at),
        }
    }
    Ok(ADDRESSES)
}

/// How many of these addresses are both read and written.
fn used_count(survey: &Survey<'_>, addresses: &[u16]) -> Result<usize, AllocError> {
    let mut read = Marks::none(survey.steps.alloc())?;
    for &at in &survey.users {
        if let Some(step) = survey.steps.at(at)
            && let Some(operand) = step.operand
            && !writes(step.op.mnemonic)
        {
            read.set(operand);
        }
    }
    let mut count = 0usize;
    for &address in addresses {
        if read.get(address) && survey.written.get(address) {
            count = count.saturating_add(1);
        }
    }
    Ok(count)
}

/// The operands after the image up to a limit that are its variables. Empty if the image writes to none of them.
fn operands_after(survey: &Survey<'_>, limit: usize) -> Result<Vec<u16>, AllocError> {
    let mut found = Vec::new(survey.steps.alloc());
    let (_, end) = ends(survey.steps.image());
    let mut last = end;
    let mut has_written = false;
    for at in end..limit {
        let Some(address) = address(at) else {
            break;
        };
        if last.saturating_add(GAP) < at {
            break;
        }
        if survey.operands.get(address) {
            if last.saturating_add(gap_before(end, last, at)) < at {
                break;
            }
            found.push(address)?;
            has_written = has_written || survey.written.get(address);
            last = at;
        }
    }
    if !has_written {
        found.clear();
    }
    Ok(found)
}

/// The operands from the address on up to a limit that may be variables of the image, if it reads and writes one at
/// least.
fn operands_beyond(survey: &Survey<'_>, from: usize, limit: usize) -> Result<Vec<u16>, AllocError> {
    let mut found = Vec::new(survey.steps.alloc());
    for at in from..limit {
        if let Some(operand) = address(at)
            && survey.operands.get(operand)
        {
            found.push(operand)?;
        }
    }
    if !found.is_empty() && used_count(survey, &found)? == 0 {
        found.clear();
    }
    Ok(found)
}

/// Whether operands after the image are its variables without a question: the first lies near, or many are used.
fn are_near(survey: &Survey<'_>, found: &[u16], end: usize) -> Result<bool, AllocError> {
    let Some(&first) = found.first() else {
        return Ok(true);
    };
    Ok(usize::from(first) <= end.saturating_add(NEAR) || USED <= used_count(survey, found)?)
}

/// The operands from the named address on that would be variables of the image if it had no name.
fn operands_named(survey: &Survey<'_>, named: usize) -> Result<Vec<u16>, AllocError> {
    let (_, end) = ends(survey.steps.image());
    let mut found = Vec::new(survey.steps.alloc());
    if named < REGISTERS {
        found = operands_after(survey, REGISTERS)?;
        if !are_near(survey, &found, end)? {
            found.clear();
        }
        found.retain(|at| named <= usize::from(*at));
    }
    Ok(found)
}

/// Returns the variables after the image: from its end on the operands, each at most 2,048 bytes after the one before,
/// up to where a name of the information file covers one that no group AFTER has, and before $D000. Where the image
/// ends before $8000, $9000 or $C000, the first from there on lies at most 32 bytes after the one before. Where the
/// first of all lies more than 256 bytes after the image they only may be some, unless eight of them are both read and
/// written. An image that ends in the zero page has none, and one that writes to none of them has none. The operands
/// behind these up to $C000 may be some too, if one is both read and written.
pub fn variables_of(survey: &Survey<'_>) -> Result<Variables, AllocError> {
    let alloc = survey.steps.alloc();
    let (_, end) = ends(survey.steps.image());
    let (mut addresses, mut far) = (Vec::new(alloc), Vec::new(alloc));
    let mut beyond = Vec::new(alloc);
    let mut named = Vec::new(alloc);
    let limit = first_named(survey.steps, end)?;
    if 0x100 < end {
        let found = operands_after(survey, limit.min(REGISTERS))?;
        named = operands_named(survey, limit)?;
        let behind = found.last().map_or(end, |last| usize::from(*last) + 1);
        beyond = operands_beyond(survey, behind, limit.min(IO))?;
        if are_near(survey, &found, end)? {
            addresses = found;
        } else {
            far = found;
        }
    }
    Ok(Variables {
        addresses,
        named,
        name_at: address(limit).unwrap_or(0),
        far,
        beyond,
    })
}
