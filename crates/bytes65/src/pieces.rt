//! What stands at the addresses that nothing speaks for: words, filler, texts and other bytes.

use crate::ground::Ground;
use entries65::texts::{ALPHABETS, Chars};
use info65::RangeType;
use map65::Marks;
use reach65::image::{byte, bytes_at, ends};
use std::alloc::{AllocError, Global};
use std::ops::Range;

/// The least number of equal bytes that are filler.
const FILLER: u32 = 16;

/// What begins at a byte that is none of filler or of a text; else it is the number of characters of the text.
const NOTHING: u32 = 0;

/// What begins at a byte of filler: equal bytes, 16 at least. No text is so long.
const FILLED: u32 = u32::MAX;

/// What a piece has.
#[derive(Clone, Copy)]
enum Piece<'a> {
    /// A text that is known, up to its zero byte.
    Text,
    /// Addresses that are marked.
    Marked(&'a Marks),
    /// Equal bytes.
    Filler(Option<u8>),
    /// Bytes at which nothing begins.
    Other,
}

/// The bytes that nothing speaks for, cut into pieces.
#[derive(Drop)]
pub struct Pieces<'a> {
    ground: &'a Ground<'a>,
    start: usize,
    end: usize,
    /// What begins at each byte.
    begins: Vec<u32>,
}

/// Adds a byte before the characters of each alphabet that stand behind it. Returns how many characters the longest
/// text has that begins with it, and 0 if none does.
fn text_with(tails: &mut [Chars; 3], byte: u8) -> u32 {
    let mut longest = 0u32;
    for (chars, &alphabet) in tails.iter_mut().zip(&ALPHABETS) {
        if alphabet.is_char(byte) {
            *chars = chars.with(alphabet, byte);
        } else {
            *chars = Chars::none();
        }
        if chars.are_text(alphabet) {
            longest = longest.max(chars.count);
        }
    }
    longest
}

/// What begins at each byte of the image.
fn all_begins(alloc: Global, ground: &Ground<'_>) -> Result<Vec<u32>, AllocError> {
    let (start, _) = ends(ground.image);
    let (from, to) = ground.span();
    let bytes = bytes_at(ground.image, from, to.saturating_sub(from));
    let first = from.saturating_sub(start);
    let mut found = vec![in alloc; NOTHING; ground.image.bytes().len()]?;
    let mut tails = [Chars::none(); 3];
    // The byte behind, how many equal ones there are from here on, and whether the one behind is in the tails.
    let (mut after, mut run, mut goes_on) = (0u8, 0u32, false);
    for (index, &byte) in bytes.iter().enumerate().rev() {
        if !ground.is_plain(from.saturating_add(index)) {
            (run, goes_on) = (0, false);
            continue;
        }
        if byte != after {
            run = 0;
        }
        after = byte;
        run = run.saturating_add(1);
        let is_char = run < FILLER && matches!(byte, 0x20..=0x7E | 0xA0..=0xFE);
        if is_char && !goes_on {
            tails = [Chars::none(); 3];
        }
        goes_on = is_char;
        let begins = if is_char {
            text_with(&mut tails, byte)
        } else if FILLER <= run {
            FILLED
        } else {
            continue;
        };
        if let Some(it) = found.get_mut(first.saturating_add(index)) {
            *it = begins;
        }
    }
    Ok(found)
}

impl<'a> Pieces<'a> {
    /// Looks at the addresses that nothing speaks for. The time grows with the size of the image.
    pub fn of(alloc: Global, ground: &'a Ground<'a>) -> Result<Pieces<'a>, AllocError> {
        let (start, end) = ends(ground.image);
        Ok(Pieces {
            ground,
            start,
            end,
            begins: all_begins(alloc, ground)?,
        })
    }

    /// What begins at the address.
    fn begins_at(&self, at: usize) -> u32 {
        let begins = self.begins.get(at.saturating_sub(self.start));
        begins.copied().unwrap_or(NOTHING)
    }

    /// Whether the piece has the address, if it has the one before.
    fn has(&self, piece: Piece<'_>, at: usize) -> bool {
        let ground = self.ground;
        match piece {
            Piece::Text => ground.is_free(at)
                && byte(ground.image, at.saturating_sub(1)) != Some(0),
            Piece::Marked(marks) => ground.is_free(at) && marks.get_at(at),
            Piece::Filler(filler) => ground.is_plain(at) && byte(ground.image, at) == filler,
            Piece::Other => ground.is_plain(at) && self.begins_at(at) == NOTHING,
        }
    }

    /// Where the piece ends that has the address.
    fn end_of(&self, piece: Piece<'_>, from: usize) -> usize {
        for at in from.saturating_add(1)..self.end {
            if !self.has(piece, at) {
                return at;
            }
        }
        self.end
    }

    /// The type of a text at these addresses.
    fn text_type(&self, text: Range<usize>) -> RangeType {
        for at in text {
            if !matches!(byte(self.ground.image, at), Some(0x20..=0x7E)) {
                return RangeType::ByteTable;
            }
        }
        RangeType::TextTable
    }

    /// Returns what is proposed for the address and those after it, and where that ends: an ADDRTABLE for words that
    /// are addresses, an RTSTABLE for words that are less one, a BYTETABLE for filler, a TEXTTABLE for a text of ASCII
    /// and one that is known, a BYTETABLE for another text, and a BYTETABLE up to where any of these begins.
    pub fn piece_at(&self, first: u16) -> (RangeType, usize) {
        let ground = self.ground;
        let at = usize::from(first);
        let (role, piece) = if ground.texts.get(first) {
            (RangeType::TextTable, Piece::Text)
        } else if ground.words.get(first) {
            (RangeType::AddrTable, Piece::Marked(&ground.words))
        } else if ground.returns.get(first) {
            (RangeType::RtsTable, Piece::Marked(&ground.returns))
        } else if ground.numbers.get(first) {
            (RangeType::ByteTable, Piece::Marked(&ground.numbers))
        } else {
            match self.begins_at(at) {
                FILLED => (RangeType::ByteTable, Piece::Filler(byte(ground.image, at))),
                NOTHING => (RangeType::ByteTable, Piece::Other),
                count => {
                    let end = at.saturating_add(count as usize);
                    return (self.text_type(at..end), end);
                }
            }
        };
        (role, self.end_of(piece, at))
    }
}
