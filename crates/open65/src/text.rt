//! A text that is written.

use std::alloc::{AllocError, Global};
use text65::{hex_digit, put_address, put_decimal};

/// A text. It is asked once at its end whether memory ran out.
#[derive(Drop)]
pub struct Text {
    bytes: Vec<u8>,
    lost: bool,
}

impl Text {
    pub fn new(alloc: Global) -> Text {
        let bytes = Vec::new(alloc);
        Text { bytes, lost: false }
    }

    pub fn put(&mut self, bytes: &[u8]) {
        self.lost |= self.bytes.extend_from_slice(bytes).is_err();
    }

    pub fn say(&mut self, text: &str) {
        self.put(text.as_bytes());
    }

    /// Appends a text, and a number in decimal.
    pub fn number(&mut self, before: &str, number: usize) {
        self.lost |= put_decimal(&mut self.bytes, before.as_bytes(), number).is_err();
    }

    /// Appends a text, and an address in hex digits after a dollar.
    pub fn address(&mut self, before: &str, address: usize) {
        self.say(before);
        self.lost |= put_address(&mut self.bytes, b"$", address).is_err();
    }

    /// Appends a byte in hex digits.
    pub fn hex(&mut self, byte: u8) {
        self.put(&[hex_digit(byte / 16), hex_digit(byte % 16)]);
    }

    /// Appends how many bytes there are, below a million, with a comma before the last three digits.
    pub fn count(&mut self, count: usize) {
        if 1000 <= count {
            self.number("", count / 1000);
            self.say(",");
            self.number("", count / 100 % 10);
            self.number("", count / 10 % 10);
            self.number("", count % 10);
        } else {
            self.number("", count);
        }
        self.say(if count == 1 { " byte" } else { " bytes" });
    }

    /// The whole text as a string.
    pub fn string(self, alloc: Global) -> Result<String, AllocError> {
        let bytes = self.whole()?;
        String::from_str(alloc, std::str::from_utf8(&bytes).unwrap_or("_"))
    }

    /// The whole text, unless memory ran out.
    pub fn whole(self) -> Result<Vec<u8>, AllocError> {
        match self.lost {
            true => Err(AllocError),
            false => Ok(self.bytes),
        }
    }
}
