//! The instructions that are no branch, jump, call or return.

use crate::bus::{Bus, Purpose};
use crate::machine::Machine;
use crate::operand::Operand;
use crate::operation::Operation;
use crate::registers::{CARRY, DECIMAL, INTERRUPT, NEGATIVE, OVERFLOW, ZERO};
use crate::value::Value;
use isa65::{Mnemonic, Mode, Op};

/// The value with these bits set, or cleared.
fn with_bits<V: Value>(value: V, bits: V, are_set: bool) -> V {
    if are_set {
        value.with(Operation::Or, bits)
    } else {
        value.with(Operation::And, bits.alone(Operation::Not))
    }
}

/// What V and C are of a sum, and of one of decimal digits.
const PLAIN: [Operation; 2] = [Operation::SumOverflow, Operation::SumCarry];

const DIGITS: [Operation; 2] = [Operation::DecimalOverflow, Operation::DecimalCarry];

impl<V: Value, B: Bus<V>> Machine<V, B> {
    /// Runs an instruction that writes, changes or reads a value. One without an operand reads the accumulator.
    pub(crate) fn work(&mut self, op: Op) {
        let purpose = match op.mnemonic {
            Mnemonic::Sta | Mnemonic::Stx | Mnemonic::Sty | Mnemonic::Stz => Purpose::Write,
            Mnemonic::Asl | Mnemonic::Lsr | Mnemonic::Rol | Mnemonic::Ror => Purpose::Change,
            Mnemonic::Inc | Mnemonic::Dec | Mnemonic::Tsb | Mnemonic::Trb => Purpose::Change,
            _ => Purpose::Read,
        };
        let carry = self.registers.flags[CARRY];
        let operand = self.operand(op.mode, purpose);
        match op.mnemonic {
            Mnemonic::Sta => self.store(operand, self.registers.a),
            Mnemonic::Stx => self.store(operand, self.registers.x),
            Mnemonic::Sty => self.store(operand, self.registers.y),
            Mnemonic::Stz => self.store(operand, V::of(0)),
            Mnemonic::Asl => self.shift(operand, Operation::ShiftLeft, V::of(0)),
            Mnemonic::Rol => self.shift(operand, Operation::ShiftLeft, carry),
            Mnemonic::Lsr => self.shift(operand, Operation::ShiftRight, V::of(0)),
            Mnemonic::Ror => self.shift(operand, Operation::ShiftRight, carry),
            Mnemonic::Inc => self.count(operand, 1),
            Mnemonic::Dec => self.count(operand, 0xFF),
            Mnemonic::Tsb => self.change_bits(operand, true),
            Mnemonic::Trb => self.change_bits(operand, false),
            _ => {
                let value = self.load(operand);
                self.take(op, value);
            }
        }
    }

    /// Moves the bits of an operand, with this bit at one end; the bit at the other end goes to the carry.
    fn shift(&mut self, operand: Operand, operation: Operation, bit: V) {
        let value = self.load(operand);
        let out = if operation == Operation::ShiftLeft {
            7
        } else {
            0
        };
        self.registers.flags[CARRY] = value.alone(Operation::Bit(out));
        let shifted = self.seen(V::apply(operation, value, value, bit));
        self.store(operand, shifted);
    }

    /// The sum of a value and a number. The flags are set.
    fn counted(&mut self, value: V, number: u8) -> V {
        self.seen(value.plus(V::of(number)))
    }

    /// Adds a number to an operand.
    fn count(&mut self, operand: Operand, number: u8) {
        let value = self.load(operand);
        let sum = self.counted(value, number);
        self.store(operand, sum);
    }

    /// Sets or clears the bits of the accumulator in an operand.
    fn change_bits(&mut self, operand: Operand, are_set: bool) {
        let value = self.load(operand);
        self.set_zero(value);
        self.store(operand, with_bits(value, self.registers.a, are_set));
    }

    /// Sets or clears a bit in the zero page. Bits 4 to 6 of the opcode are its number, and bit 7 is whether it is set.
    pub(crate) fn set_bit(&mut self, opcode: u8) {
        let mask = V::of(1 << (opcode / 16 % 8));
        let operand = self.operand(Mode::Zp, Purpose::Change);
        let value = self.load(operand);
        self.store(operand, with_bits(value, mask, 0x7F < opcode));
    }

    /// The value, of which the flags are set.
    fn seen(&mut self, value: V) -> V {
        self.registers.set_result(value);
        value
    }

    /// What an operation makes of the accumulator and a value. The flags are set.
    fn combined(&mut self, operation: Operation, value: V) -> V {
        self.seen(self.registers.a.with(operation, value))
    }

    /// Sets Z by the bits that a value has in common with the accumulator.
    fn set_zero(&mut self, value: V) {
        let common = self.registers.a.with(Operation::And, value);
        self.registers.flags[ZERO] = common.alone(Operation::IsZero);
    }

    /// Sets Z by the bits that a value has in common with the accumulator, and N and V by
    /// its bits, unless it is immediate.
    fn test_bits(&mut self, mode: Mode, value: V) {
        self.set_zero(value);
        if mode != Mode::Imm {
            self.registers.flags[NEGATIVE] = value.alone(Operation::Bit(7));
            self.registers.flags[OVERFLOW] = value.alone(Operation::Bit(6));
        }
    }

    /// The operation on the accumulator, a value and the carry.
    fn with_carry(&self, operation: Operation, value: V) -> V {
        let carry = self.registers.flags[CARRY];
        V::apply(operation, self.registers.a, value, carry)
    }

    /// Whether sums are those of decimal digits.
    fn is_decimal(&self) -> bool {
        self.registers.flags[DECIMAL].byte() != 0
    }

    /// Sets the accumulator to the sum, and V and C by these operations on it, a value and the carry. N and Z are those
    /// of the binary result on the 6502, and those of the accumulator on the later CPUs.
    fn take_sum(&mut self, sum: V, value: V, [overflow, carry]: [Operation; 2]) {
        let plain = self.with_carry(Operation::Sum, value);
        self.registers.flags[OVERFLOW] = self.with_carry(overflow, value);
        self.registers.flags[CARRY] = self.with_carry(carry, value);
        self.registers.a = sum;
        let result = if self.is_cmos { sum } else { plain };
        self.registers.set_result(result);
    }

    /// Adds a value and the carry to the accumulator. In decimal mode N of the 6502 is that of an unfinished sum.
    pub(crate) fn add(&mut self, value: V) {
        if !self.is_decimal() {
            let sum = self.with_carry(Operation::Sum, value);
            return self.take_sum(sum, value, PLAIN);
        }
        let sum = self.with_carry(Operation::DecimalSum, value);
        let negative = self.with_carry(Operation::DecimalNegative, value);
        self.take_sum(sum, value, DIGITS);
        if !self.is_cmos {
            self.registers.flags[NEGATIVE] = negative;
        }
    }

    /// Subtracts a value and the borrow from the accumulator. In decimal mode V and C
    /// are those of the binary difference.
    pub(crate) fn subtract(&mut self, value: V) {
        let rest = value.alone(Operation::Not);
        let is_cmos = self.is_cmos;
        let difference = if self.is_decimal() {
            self.with_carry(Operation::DecimalDifference { is_cmos }, value)
        } else {
            self.with_carry(Operation::Sum, rest)
        };
        self.take_sum(difference, rest, PLAIN);
    }

    /// Compares a register with a value.
    pub(crate) fn compare(&mut self, register: V, value: V) {
        let rest = value.alone(Operation::Not);
        let one = V::of(1);
        self.registers.flags[CARRY] = V::apply(Operation::SumCarry, register, rest, one);
        let difference = V::apply(Operation::Sum, register, rest, one);
        self.registers.set_result(difference);
    }

    /// Runs an instruction that takes a value, or that works on registers and the stack alone.
    fn take(&mut self, op: Op, value: V) {
        match op.mnemonic {
            Mnemonic::Lda => self.registers.a = self.seen(value),
            Mnemonic::Ldx | Mnemonic::Tax => self.registers.x = self.seen(value),
            Mnemonic::Ldy | Mnemonic::Tay => self.registers.y = self.seen(value),
            Mnemonic::And => self.registers.a = self.combined(Operation::And, value),
            Mnemonic::Ora => self.registers.a = self.combined(Operation::Or, value),
            Mnemonic::Eor => self.registers.a = self.combined(Operation::Xor, value),
            Mnemonic::Adc => self.add(value),
            Mnemonic::Sbc => self.subtract(value),
            Mnemonic::Cmp => self.compare(self.registers.a, value),
            Mnemonic::Cpx => self.compare(self.registers.x, value),
            Mnemonic::Cpy => self.compare(self.registers.y, value),
            Mnemonic::Bit => self.test_bits(op.mode, value),
            Mnemonic::Txa => self.registers.a = self.seen(self.registers.x),
            Mnemonic::Tya => self.registers.a = self.seen(self.registers.y),
            Mnemonic::Tsx => self.registers.x = self.seen(self.registers.s),
            Mnemonic::Txs => self.registers.s = self.registers.x,
            Mnemonic::Inx => self.registers.x = self.counted(self.registers.x, 1),
            Mnemonic::Iny => self.registers.y = self.counted(self.registers.y, 1),
            Mnemonic::Dex => self.registers.x = self.counted(self.registers.x, 0xFF),
            Mnemonic::Dey => self.registers.y = self.counted(self.registers.y, 0xFF),
            Mnemonic::Clc => self.registers.flags[CARRY] = V::of(0),
            Mnemonic::Sec => self.registers.flags[CARRY] = V::of(1),
            Mnemonic::Cld => self.registers.flags[DECIMAL] = V::of(0),
            Mnemonic::Sed => self.registers.flags[DECIMAL] = V::of(1),
            Mnemonic::Cli => self.registers.flags[INTERRUPT] = V::of(0),
            Mnemonic::Sei => self.registers.flags[INTERRUPT] = V::of(1),
            Mnemonic::Clv => self.registers.flags[OVERFLOW] = V::of(0),
            Mnemonic::Pha => self.push(self.registers.a),
            Mnemonic::Phx => self.push(self.registers.x),
            Mnemonic::Phy => self.push(self.registers.y),
            Mnemonic::Php => self.push_status(),
            Mnemonic::Pla => self.registers.a = self.pulled(),
            Mnemonic::Plx => self.registers.x = self.pulled(),
            Mnemonic::Ply => self.registers.y = self.pulled(),
            Mnemonic::Plp => self.pull_status(),
            _ => {}
        }
    }

    /// The value that is pulled, of which the flags are set.
    fn pulled(&mut self) -> V {
        let value = self.pull();
        self.seen(value)
    }
}
