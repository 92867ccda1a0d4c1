//! The CPUs of the 6502 family at work: registers, flags, and one instruction at a time.
//!
//! A [`Machine`] has [`Registers`] and a [`Bus`], and [`Machine::step`] runs one instruction. What a register, a flag
//! or a byte of memory holds is a [`Value`]: a byte, or whatever else knows what an [`Operation`] does to it, such as a
//! pair of bytes of two runs. The bus says where an address leads, what memory has, and whether a branch is taken. So
//! whoever runs code decides what is outside of it.
//!
//! Nothing is proved of the instructions but that each is safe and returns. `tests/test_run65.py`
//! compares them with those of cc65's sim65.
#![tactic(auto)]

mod bus;
mod flow;
mod machine;
mod operand;
mod operation;
mod registers;
mod value;
mod work;

pub use bus::{Bus, Purpose, Word};
pub use machine::Machine;
pub use operation::Operation;
pub use registers::{DECIMAL, Registers};
pub use value::Value;
