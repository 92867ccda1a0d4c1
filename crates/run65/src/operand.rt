//! The operand of an instruction.

use crate::bus::{Bus, Purpose, Word};
use crate::machine::Machine;
use crate::value::Value;
use isa65::Mode;

/// The operand of an instruction.
#[derive(Clone, Copy)]
pub enum Operand {
    /// There is none, or it is the accumulator.
    Accumulator,
    /// What is at a place. An immediate one stands behind the opcode.
    Place(Option<u16>),
}

impl<V: Value, B: Bus<V>> Machine<V, B> {
    /// The byte so many addresses after the beginning of the instruction.
    pub(crate) fn byte_at(&mut self, distance: u16) -> V {
        self.bus.read(Some(self.start.wrapping_add(distance)))
    }

    /// The word whose bytes are at these places.
    pub(crate) fn word_of(&mut self, low: Option<u16>, high: Option<u16>) -> Word<V> {
        let low = self.bus.read(low);
        let high = self.bus.read(high);
        Word { low, high }
    }

    /// The word after the opcode.
    pub(crate) fn word(&mut self) -> Word<V> {
        let low = self.start.wrapping_add(1);
        self.word_of(Some(low), Some(low.wrapping_add(1)))
    }

    /// The place in a page: 0 is the zero page, and 1 that of the stack.
    pub(crate) fn in_page(&mut self, page: u8, low: V, purpose: Purpose) -> Option<u16> {
        let high = V::of(page);
        self.bus.place(Word { low, high }, V::of(0), purpose)
    }

    /// The place at the word after the opcode, of which this is the low byte, and an index.
    fn at_word(&mut self, low: V, index: V, purpose: Purpose) -> Option<u16> {
        let high = self.byte_at(2);
        self.bus.place(Word { low, high }, index, purpose)
    }

    /// The place at a pointer in the zero page and an index.
    fn at_pointer(&mut self, at: V, index: V, purpose: Purpose) -> Option<u16> {
        let low_place = self.in_page(0, at, Purpose::Read);
        let low = self.bus.read(low_place);
        let high_place = self.in_page(0, at.plus(V::of(1)), Purpose::Read);
        let high = self.bus.read(high_place);
        self.bus.place(Word { low, high }, index, purpose)
    }

    /// The operand in this mode, which is none of a jump or a branch.
    pub(crate) fn operand(&mut self, mode: Mode, purpose: Purpose) -> Operand {
        if matches!(mode, Mode::Imp | Mode::Acc) {
            return Operand::Accumulator;
        }
        let zero = V::of(0);
        let base = self.byte_at(1);
        Operand::Place(match mode {
            Mode::Zp => self.in_page(0, base, purpose),
            Mode::Zpx => self.in_page(0, base.plus(self.registers.x), purpose),
            Mode::Zpy => self.in_page(0, base.plus(self.registers.y), purpose),
            Mode::Abs => self.at_word(base, zero, purpose),
            Mode::Absx => self.at_word(base, self.registers.x, purpose),
            Mode::Absy => self.at_word(base, self.registers.y, purpose),
            Mode::Indx => self.at_pointer(base.plus(self.registers.x), zero, purpose),
            Mode::Indy => self.at_pointer(base, self.registers.y, purpose),
            Mode::Zpind => self.at_pointer(base, zero, purpose),
            _ => Some(self.start.wrapping_add(1)),
        })
    }

    /// The value of an operand.
    pub(crate) fn load(&mut self, operand: Operand) -> V {
        match operand {
            Operand::Accumulator => self.registers.a,
            Operand::Place(place) => self.bus.read(place),
        }
    }

    /// Writes a value to where the operand is.
    pub(crate) fn store(&mut self, operand: Operand, value: V) {
        match operand {
            Operand::Accumulator => self.registers.a = value,
            Operand::Place(place) => self.bus.write(place, value),
        }
    }
}
