//! The instruction sets of the 6502 family: mnemonics, addressing modes and opcodes.
//!
//! A [`Mode`] has a [`Row`] that says what its operands are. A [`Mnemonic`] and a [`Mode`] together are an [`Op`],
//! and an [`OpcodeSet`] says which byte stands for which `Op`, by laws that every set keeps. [`Mos6502`],
//! [`Cmos65Sc02`] and [`Rockwell65C02`] are the sets of three CPUs, each with the opcodes of the one before and more.
//! A [`Cpu`] is the set of the CPU that it names, a [`DecodeTable`] is the same as a table by byte, and an
//! [`EncodeTable`] as one by mnemonic and mode. [`ByteOrder`] is the order in which a number of several bytes stands.
#![tactic(auto)]

mod byte_order;
mod cmos_65sc02;
mod cpu;
mod decode_table;
mod encode_table;
mod mnemonic;
mod mode;
mod mos_6502;
mod op;
mod opcode_set;
mod rockwell_65c02;
mod row;

pub use byte_order::ByteOrder;
pub use cmos_65sc02::Cmos65Sc02;
pub use cpu::Cpu;
pub use decode_table::DecodeTable;
pub use encode_table::EncodeTable;
pub use mnemonic::Mnemonic;
pub use mode::Mode;
pub use mos_6502::Mos6502;
pub use op::Op;
pub use opcode_set::OpcodeSet;
pub use rockwell_65c02::Rockwell65C02;
pub use row::{OperandKind, Pattern, Row};
