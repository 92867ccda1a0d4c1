//! The guesses, by what they look at: bytes that no line has, numbers, operands and operations.

pub(crate) mod numbers;
pub(crate) mod operands;
pub(crate) mod operations;
pub(crate) mod texts;
