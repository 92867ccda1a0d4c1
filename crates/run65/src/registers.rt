//! The registers of a CPU.

use crate::operation::Operation;
use crate::value::Value;

/// The flags, by their bits in the status register.
pub const NEGATIVE: usize = 7;

pub const OVERFLOW: usize = 6;

/// Sums are those of decimal digits.
pub const DECIMAL: usize = 3;

/// Interrupts are off.
pub const INTERRUPT: usize = 2;

pub const ZERO: usize = 1;

pub const CARRY: usize = 0;

/// The registers of a CPU.
#[derive(Clone, Copy)]
pub struct Registers<V> {
    /// The accumulator.
    pub a: V,
    /// The index register X.
    pub x: V,
    /// The index register Y.
    pub y: V,
    /// The stack pointer: the next byte is pushed to $0100 and this.
    pub s: V,
    /// The program counter.
    pub pc: u16,
    /// The bits of the status register, each 0 or 1.
    pub flags: [V; 8],
}

impl<V: Value> Registers<V> {
    /// All registers are 0, and code begins at the address.
    pub fn at(pc: u16) -> Registers<V> {
        let zero = V::of(0);
        Registers {
            a: zero,
            x: zero,
            y: zero,
            s: zero,
            pc,
            flags: [zero; 8],
        }
    }

    /// The status register as `php` and `brk` push it: NV11DIZC.
    pub fn status(&self) -> V {
        let mut status = V::of(0);
        for &flag in self.flags.iter().rev() {
            status = V::apply(Operation::ShiftLeft, status, status, flag);
        }
        status.with(Operation::Or, V::of(0x30))
    }

    /// Sets the flags as `plp` and `rti` pull them.
    pub fn set_status(&mut self, status: V) {
        for (flag, number) in self.flags.iter_mut().zip(0u8..8) {
            *flag = status.alone(Operation::Bit(number));
        }
    }

    /// Sets N and Z by a result: whether it is negative, and whether it is zero.
    pub fn set_result(&mut self, value: V) {
        self.flags[NEGATIVE] = value.alone(Operation::Bit(7));
        self.flags[ZERO] = value.alone(Operation::IsZero);
    }
}
