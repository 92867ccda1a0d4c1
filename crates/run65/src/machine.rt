//! A CPU with its registers and its bus.

use crate::bus::Bus;
use crate::registers::Registers;
use crate::value::Value;
use isa65::{Cpu, DecodeTable, Mnemonic, Mode, OpcodeSet};

/// A CPU with its registers and its bus.
#[derive(Drop)]
pub struct Machine<V, B> {
    pub registers: Registers<V>,
    pub bus: B,
    /// Whether the CPU is one of the later ones.
    pub(crate) is_cmos: bool,
    /// The address of the instruction that runs.
    pub(crate) start: u16,
    table: DecodeTable,
}

impl<V: Value, B: Bus<V>> Machine<V, B> {
    /// A CPU with these registers, connected to a bus.
    pub fn new(cpu: Cpu, registers: Registers<V>, bus: B) -> Machine<V, B> {
        Machine {
            registers,
            bus,
            is_cmos: cpu != Cpu::M6502,
            start: 0,
            table: DecodeTable::new(cpu),
        }
    }

    /// Runs the instruction at the program counter. Returns whether it has run, and it is known where code goes on;
    /// nothing has changed if its opcode is undefined.
    pub fn step(&mut self) -> bool {
        self.start = self.registers.pc;
        let opcode = self.byte_at(0).byte();
        let Some(op) = self.table.decode(opcode) else {
            return false;
        };
        self.registers.pc = self.start.wrapping_add(u16::from(op.mode.len()));
        match (op.mnemonic, op.mode) {
            (Mnemonic::Jmp | Mnemonic::Jsr | Mnemonic::Rts, _) => return self.leave(op),
            (Mnemonic::Rti | Mnemonic::Brk, _) => return self.leave(op),
            (_, Mode::Rel) => self.branch(opcode),
            (_, Mode::Zprel) => self.branch_by_bit(opcode),
            (_, Mode::Zp) if opcode % 16 == 7 => self.set_bit(opcode),
            _ => self.work(op),
        }
        true
    }
}
