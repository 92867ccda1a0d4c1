//! The image where it belongs, and the one that lies later.

use map65::Marks;

/// The bytes of a listing, where it belongs and somewhere else.
#[derive(Drop)]
pub struct Scene {
    pub start: u16,
    pub here: Vec<u8>,
    /// The bytes if the image begins `by` addresses later. What is found to stay, and must not, is moved in them.
    pub later: Vec<u8>,
    /// How much later, modulo 65,536.
    pub by: u16,
    /// The addresses of variables that move with the end of the image, by groups AFTER.
    pub after: Marks,
    /// Those before this address do so too.
    pub after_end: usize,
    /// Variables end before this address.
    pub limit: usize,
    /// The first and the end of what may be variables, if it lies too far behind the image to be moved with it.
    pub far: Option<(u16, usize)>,
    /// The greatest address behind the image that a name is written for, and that no group has.
    pub last_named: u16,
}

impl Scene {
    /// The index of an address in the image, if it has that.
    fn index(&self, address: u16) -> Option<usize> {
        let index = usize::from(address).checked_sub(usize::from(self.start))?;
        (index < self.here.len()).then_some(index)
    }

    pub fn has(&self, address: u16) -> bool {
        self.index(address).is_some()
    }

    /// The address behind the last byte.
    pub fn end(&self) -> usize {
        usize::from(self.start).saturating_add(self.here.len())
    }

    pub fn is_behind(&self, address: u16) -> bool {
        self.end() <= usize::from(address)
    }

    /// Whether the address is to lie later in the other run: the image has it, or variables do that move with its end.
    pub fn moves(&self, address: u16) -> bool {
        let is_variable = self.is_behind(address) && usize::from(address) < self.after_end;
        self.has(address) || is_variable || self.after.get(address)
    }

    /// Takes down that a name is written for the address.
    pub fn name_behind(&mut self, address: u16) {
        if self.is_behind(address) && !self.after.get(address) {
            self.last_named = self.last_named.max(address);
        }
    }

    /// Whether the address may be one of the program: it moves, or lies behind the image, where variables may be.
    pub fn may_move(&self, address: u16) -> bool {
        let may_be_variable = self.is_behind(address) && usize::from(address) < self.limit;
        self.moves(address) || may_be_variable
    }

    /// The byte at an address where the image belongs.
    pub fn byte(&self, address: u16) -> Option<u8> {
        self.here.get(self.index(address)?).copied()
    }

    /// The byte of this address in the image that lies later.
    pub fn later_byte(&self, address: u16) -> Option<u8> {
        self.later.get(self.index(address)?).copied()
    }

    /// Whether the byte at an address is the same in the image that lies later.
    pub fn stays(&self, address: u16) -> bool {
        self.byte(address) == self.later_byte(address)
    }

    /// The word of the bytes at two addresses.
    pub fn word(&self, low: u16, high: u16) -> Option<u16> {
        Some(u16::from_le_bytes([self.byte(low)?, self.byte(high)?]))
    }

    /// The bytes of an address, as the image that lies later is to have them.
    pub fn wanted(&self, address: u16) -> [u8; 2] {
        address.wrapping_add(self.by).to_le_bytes()
    }

    fn set_later(&mut self, address: u16, value: u8) {
        if let Some(index) = self.index(address)
            && let Some(byte) = self.later.get_mut(index)
        {
            *byte = value;
        }
    }

    /// Sets two bytes to an address, in the image that lies later.
    pub fn move_word(&mut self, low: u16, high: u16, address: u16) {
        let [low_byte, high_byte] = self.wanted(address);
        self.set_later(low, low_byte);
        self.set_later(high, high_byte);
    }

    /// Sets the byte of an address in the image that lies later to what it is where the image belongs.
    pub fn put_back(&mut self, address: u16) {
        if let Some(byte) = self.byte(address) {
            self.set_later(address, byte);
        }
    }
}
