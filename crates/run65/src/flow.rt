//! Where code goes on.

use crate::bus::{Bus, Purpose, Word};
use crate::machine::Machine;
use crate::operation::Operation;
use crate::registers::{CARRY, DECIMAL, INTERRUPT, NEGATIVE, OVERFLOW, ZERO};
use crate::value::Value;
use isa65::{Mnemonic, Mode, Op};

/// Where a break leads is read here.
const BREAK: u16 = 0xFFFE;

impl<V: Value, B: Bus<V>> Machine<V, B> {
    /// Pushes a value.
    pub(crate) fn push(&mut self, value: V) {
        let place = self.in_page(1, self.registers.s, Purpose::Write);
        self.bus.write(place, value);
        self.registers.s = self.registers.s.plus(V::of(0xFF));
    }

    /// Pulls a value.
    pub(crate) fn pull(&mut self) -> V {
        self.registers.s = self.registers.s.plus(V::of(1));
        let place = self.in_page(1, self.registers.s, Purpose::Read);
        self.bus.read(place)
    }

    /// Pushes the flags.
    pub(crate) fn push_status(&mut self) {
        let status = self.registers.status();
        self.push(status);
    }

    /// Pulls the flags.
    pub(crate) fn pull_status(&mut self) {
        let status = self.pull();
        self.registers.set_status(status);
    }

    /// Pushes the address of the last byte of a call.
    fn push_address(&mut self) {
        let word = self.bus.read_word(self.start.wrapping_add(2));
        self.push(word.high);
        self.push(word.low);
    }

    /// Pulls an address of the code.
    fn pull_word(&mut self) -> Word<V> {
        let low = self.pull();
        let high = self.pull();
        Word { low, high }
    }

    /// Code goes on at so many bytes after a word. Returns whether it is known where.
    fn go(&mut self, word: Word<V>, index: u8, purpose: Purpose) -> bool {
        let place = self.bus.place(word, V::of(index), purpose);
        self.registers.pc = place.unwrap_or(self.registers.pc);
        place.is_some()
    }

    /// Branches to the distance at so many bytes after the opcode, if the flag is as wanted.
    fn branch_if(&mut self, flag: V, wanted: bool, at: u16) {
        if self.bus.takes(flag, wanted) {
            let distance = self.byte_at(at).byte();
            let before = if distance < 0x80 { 0 } else { 0x100 };
            let to = self.registers.pc.wrapping_add(u16::from(distance));
            self.registers.pc = to.wrapping_sub(before);
        }
    }

    /// Runs a branch. Bits 6 and 7 of its opcode are the flag that it asks for, and bit 5 is whether that
    /// has to be set; `bra` asks for none.
    pub(crate) fn branch(&mut self, opcode: u8) {
        if opcode == 0x80 {
            return self.branch_if(V::of(0), false, 1);
        }
        let number = [NEGATIVE, OVERFLOW, CARRY, ZERO][usize::from(opcode / 64)];
        let flag = self.registers.flags[number];
        self.branch_if(flag, opcode & 0x20 != 0, 1);
    }

    /// Runs a branch by a bit of the zero page. Bits 4 to 6 of its opcode are the bit's number, and
    /// bit 7 is whether it has to be set.
    pub(crate) fn branch_by_bit(&mut self, opcode: u8) {
        let base = self.byte_at(1);
        let place = self.in_page(0, base, Purpose::Read);
        let flag = self.bus.read(place).alone(Operation::Bit(opcode / 16 % 8));
        self.branch_if(flag, 0x7F < opcode, 2);
    }

    /// The two bytes at the operand and so many bytes after it. On the 6502 the second one
    /// stands in the page of the first one.
    fn pointed(&mut self, index: V) -> Word<V> {
        let word = self.word();
        let first = self.bus.place(word, index, Purpose::Pointer);
        let second = if self.is_cmos {
            first.map(|place| place.wrapping_add(1))
        } else {
            let low = word.low.plus(V::of(1));
            let next = Word { low, ..word };
            self.bus.place(next, V::of(0), Purpose::Pointer)
        };
        self.word_of(first, second)
    }

    /// Returns as `rts` does.
    pub fn come_back(&mut self) -> bool {
        let word = self.pull_word();
        self.go(word, 1, Purpose::Return)
    }

    /// Runs a jump, a call, a return or a break. Returns whether it is known where code goes on.
    pub(crate) fn leave(&mut self, op: Op) -> bool {
        let mut purpose = Purpose::Jump;
        let word = match op.mnemonic {
            Mnemonic::Rts => return self.come_back(),
            Mnemonic::Rti => {
                self.pull_status();
                self.pull_word()
            }
            Mnemonic::Brk => {
                self.push_address();
                self.push_status();
                self.registers.flags[INTERRUPT] = V::of(1);
                if self.is_cmos {
                    self.registers.flags[DECIMAL] = V::of(0);
                }
                self.word_of(Some(BREAK), Some(BREAK + 1))
            }
            Mnemonic::Jsr => {
                purpose = Purpose::Call;
                let word = self.word();
                self.push_address();
                word
            }
            _ if op.mode == Mode::Ind => self.pointed(V::of(0)),
            _ if op.mode == Mode::Absindx => self.pointed(self.registers.x),
            _ => self.word(),
        };
        self.go(word, 0, purpose)
    }
}
