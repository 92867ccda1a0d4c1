//! What a register, a flag or a byte of memory holds.

use crate::operation::Operation;

/// What a register, a flag or a byte of memory holds. A flag is 0 or 1.
pub trait Value: Copy {
    /// A byte that the instruction itself says.
    fn of(byte: u8) -> Self;

    /// The byte.
    fn byte(self) -> u8;

    /// What the operation makes of three values. What it does to bytes is [`Operation::result`].
    fn apply(operation: Operation, a: Self, b: Self, c: Self) -> Self;

    /// What an operation makes of this value alone.
    fn alone(self, operation: Operation) -> Self {
        Self::apply(operation, self, self, self)
    }

    /// What an operation makes of this value and another one.
    fn with(self, operation: Operation, other: Self) -> Self {
        Self::apply(operation, self, other, self)
    }

    /// The sum of both values.
    fn plus(self, other: Self) -> Self {
        Self::apply(Operation::Sum, self, other, Self::of(0))
    }
}

impl Value for u8 {
    fn of(byte: u8) -> u8 {
        byte
    }

    fn byte(self) -> u8 {
        self
    }

    fn apply(operation: Operation, a: u8, b: u8, c: u8) -> u8 {
        operation.result(a, b, c)
    }
}
