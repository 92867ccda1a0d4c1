//! The line of BASIC with which a program of a Commodore machine begins: code begins where the digits behind SYS say.

use map65::{Image, Map};
use reach65::image::{address, byte, ends};

/// The token of SYS.
const SYS: u8 = 0x9E;

/// How many digits an address has at most.
const DIGITS: usize = 5;

/// In how many bytes of an image its first line of BASIC stands.
pub const LINE: usize = 64;

/// How many bytes a line has before its tokens: the address of the next line, and its number.
const HEAD: usize = 4;

/// Digits behind a SYS: where they stand, and the address that they are.
#[derive(Clone, Copy)]
pub struct Sys {
    pub first: u16,
    pub last: u16,
    pub to: u16,
}

/// Returns the digits behind the byte at the address, if it is a SYS, and they are an address.
pub fn sys_at(image: &Image, at: usize) -> Option<Sys> {
    if byte(image, at)? != SYS {
        return None;
    }
    let next = at.saturating_add(1);
    let blank = usize::from(matches!(byte(image, next), Some(0x20 | 0x28)));
    let first = next.saturating_add(blank);
    let (mut number, mut count) = (0usize, 0usize);
    for place in first..first.saturating_add(DIGITS) {
        let Some(digit @ 0x30..=0x39) = byte(image, place) else {
            break;
        };
        number = number
            .saturating_mul(10)
            .saturating_add(usize::from(digit.saturating_sub(0x30)));
        count = count.saturating_add(1);
    }
    let last = first.saturating_add(count.checked_sub(1)?);
    Some(Sys {
        first: address(first)?,
        last: address(last)?,
        to: address(number)?,
    })
}

/// Returns the address that the line of BASIC calls with which the image begins, if it lies behind the digits and code
/// may be there: no zero byte, which is `brk` or ends a line.
pub fn called_by_basic(map: &Map<'_>) -> Option<u16> {
    let image = map.image();
    let (start, end) = ends(image);
    // No line stands in the zero page.
    if byte(image, start.saturating_add(1))? == 0 {
        return None;
    }
    for at in start.saturating_add(HEAD)..end.min(start.saturating_add(LINE)) {
        // A zero byte ends the line.
        if byte(image, at)? == 0 {
            break;
        }
        if let Some(sys) = sys_at(image, at)
            && sys.last < sys.to
            && map.is_code(sys.to)
            && byte(image, usize::from(sys.to)) != Some(0)
        {
            return Some(sys.to);
        }
    }
    None
}
