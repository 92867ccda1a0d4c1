//! Memory without anything else in it.

use run65::{Bus, Purpose, Word};
use std::alloc::{AllocError, Global};

/// 64 KiB of memory.
#[derive(Drop)]
pub struct Ram {
    bytes: Vec<u8>,
}

impl Ram {
    /// Memory in which each byte is 0.
    pub fn new(alloc: Global) -> Result<Ram, AllocError> {
        let mut bytes = Vec::new(alloc);
        for _ in 0..65_536 {
            bytes.push(0)?;
        }
        Ok(Ram { bytes })
    }
}

impl Bus<u8> for Ram {
    fn place(&mut self, word: Word<u8>, index: u8, _purpose: Purpose) -> Option<u16> {
        Some(u16::from_le_bytes([word.low, word.high]).wrapping_add(u16::from(index)))
    }

    fn read(&mut self, place: Option<u16>) -> u8 {
        let Some(address) = place else {
            return 0;
        };
        self.bytes.get(usize::from(address)).copied().unwrap_or(0)
    }

    fn write(&mut self, place: Option<u16>, value: u8) {
        if let Some(address) = place
            && let Some(byte) = self.bytes.get_mut(usize::from(address))
        {
            *byte = value;
        }
    }

    fn read_word(&mut self, address: u16) -> Word<u8> {
        Word {
            low: (address % 256) as u8,
            high: (address / 256) as u8,
        }
    }

    fn takes(&mut self, flag: u8, wanted: bool) -> bool {
        (flag != 0) == wanted
    }
}
