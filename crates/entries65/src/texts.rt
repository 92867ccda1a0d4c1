//! Which bytes are a text, in three alphabets.

/// What bytes stand for as characters.
#[derive(Clone, Copy, PartialEq, Eq)]
pub enum Alphabet {
    /// ASCII, $20 to $7E.
    Ascii,
    /// ASCII with the high bit set, as on the Apple II.
    High,
    /// PETSCII of the Commodore machines, with capitals from $C1 to $DA.
    Petscii,
}

/// How many characters a text has at least.
const LEAST: usize = 5;

/// The alphabets, from the one that is preferred on.
pub const ALPHABETS: [Alphabet; 3] = [Alphabet::Ascii, Alphabet::High, Alphabet::Petscii];

impl Alphabet {
    /// Returns whether the byte is a character.
    pub fn is_char(self, byte: u8) -> bool {
        match self {
            Alphabet::Ascii => matches!(byte, 0x20..=0x7E),
            Alphabet::High => matches!(byte, 0xA0..=0xFE),
            Alphabet::Petscii => matches!(byte, 0x20..=0x5F | 0xC1..=0xDA),
        }
    }

    /// Whether the byte is a letter or the blank.
    fn is_letter(self, byte: u8) -> bool {
        match self {
            Alphabet::Ascii => matches!(byte, 0x20 | 0x41..=0x5A | 0x61..=0x7A),
            Alphabet::High => matches!(byte, 0xA0 | 0xC1..=0xDA | 0xE1..=0xFA),
            Alphabet::Petscii => matches!(byte, 0x20 | 0x41..=0x5A | 0xC1..=0xDA),
        }
    }

    /// Returns whether the first five bytes are characters, or all if there are fewer.
    pub fn may_begin(self, bytes: &[u8]) -> bool {
        for byte in bytes.iter().take(LEAST) {
            if !self.is_char(*byte) {
                return false;
            }
        }
        true
    }

    /// Returns how many characters the bytes begin with, if they are a text, else 0.
    pub fn text_len(self, bytes: &[u8]) -> usize {
        // Most bytes of code end here.
        if !self.may_begin(bytes) {
            return 0;
        }
        let mut chars = Chars::none();
        for &byte in bytes {
            if !self.is_char(byte) {
                break;
            }
            chars = chars.with(self, byte);
        }
        if chars.are_text(self) {
            chars.count as usize
        } else {
            0
        }
    }

    /// Returns whether the bytes are a text.
    pub fn is_text(self, bytes: &[u8]) -> bool {
        !bytes.is_empty() && self.text_len(bytes) == bytes.len()
    }

    /// Returns what a character is in ASCII.
    pub fn in_ascii(self, byte: u8) -> u8 {
        match (self, byte) {
            (Alphabet::Ascii, _) => byte,
            (Alphabet::High, _) => byte % 128,
            (Alphabet::Petscii, 0xC1..=0xFF) => byte - 128,
            (Alphabet::Petscii, 0x41..=0x5A) => byte + 32,
            (Alphabet::Petscii, _) => byte,
        }
    }
}

/// Whether two characters are digits of which one comes after the other.
fn are_next_digits(one: u8, two: u8) -> bool {
    one.abs_diff(two) == 1 && matches!(one % 128, 0x30..=0x39) && matches!(two % 128, 0x30..=0x39)
}

/// How many digits stand in their order before others count as letters.
const DIGITS: u32 = 3;

/// How many characters follow each other, and how many of them are letters or blanks, or digits in a row of four.
#[derive(Clone, Copy)]
pub struct Chars {
    pub count: u32,
    letters: u32,
    /// The last one.
    last: u8,
    /// How many digits before it are in their order.
    digits: u32,
}

impl Chars {
    /// No characters.
    pub fn none() -> Chars {
        Chars {
            count: 0,
            letters: 0,
            last: 0,
            digits: 0,
        }
    }

    /// These characters, and one beside them.
    pub fn with(self, alphabet: Alphabet, byte: u8) -> Chars {
        let digits = if are_next_digits(self.last, byte) {
            self.digits.saturating_add(1)
        } else {
            0
        };
        let counts = alphabet.is_letter(byte) || DIGITS <= digits;
        Chars {
            count: self.count.saturating_add(1),
            letters: self.letters.saturating_add(u32::from(counts)),
            last: byte,
            digits,
        }
    }

    /// Returns whether they are a text of the alphabet: there are five at least, or eight with the high bit set, and
    /// half of them are letters or blanks, or digits in a row of four.
    pub fn are_text(self, alphabet: Alphabet) -> bool {
        let least = if alphabet == Alphabet::High { 8 } else { LEAST };
        least <= self.count as usize && self.count <= self.letters.saturating_mul(2)
    }
}
