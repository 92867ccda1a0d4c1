//! A state before an instruction, and what is reported of the one after it.

use crate::ram::Ram;
use run65::{Bus, Machine};
use std::alloc::AllocError;

/// How many bytes a state has.
pub const STATE: usize = 73;

/// Where the bytes that are written begin, each with its address.
const POKES: usize = 7;

/// Where the addresses that are reported begin.
const PEEKS: usize = 61;

/// The byte of a state.
fn byte(state: &[u8], at: usize) -> u8 {
    state.get(at).copied().unwrap_or(0)
}

/// The word of a state.
fn word(state: &[u8], at: usize) -> u16 {
    u16::from_le_bytes([byte(state, at), byte(state, at.saturating_add(1))])
}

/// Sets registers and memory.
fn load(machine: &mut Machine<u8, Ram>, state: &[u8]) {
    for k in 0..18usize {
        let at = POKES + k * 3;
        machine
            .bus
            .write(Some(word(state, at)), byte(state, at + 2));
    }
    machine.registers.set_status(byte(state, 0));
    machine.registers.a = byte(state, 1);
    machine.registers.x = byte(state, 2);
    machine.registers.y = byte(state, 3);
    machine.registers.s = byte(state, 4);
    machine.registers.pc = word(state, 5);
}

/// Runs an instruction from a state, and adds what has come of it. The program counter is
/// $FFFF if the instruction has not run.
pub fn put_result(
    results: &mut Vec<u8>,
    machine: &mut Machine<u8, Ram>,
    state: &[u8],
) -> Result<(), AllocError> {
    load(machine, state);
    if !machine.step() {
        machine.registers.pc = 0xFFFF;
    }
    results.push(machine.registers.a)?;
    results.push(machine.registers.x)?;
    results.push(machine.registers.y)?;
    results.push(machine.registers.s)?;
    results.push(machine.registers.status())?;
    results.push((machine.registers.pc % 256) as u8)?;
    results.push((machine.registers.pc / 256) as u8)?;
    for k in 0..6usize {
        results.push(machine.bus.read(Some(word(state, PEEKS + k * 2))))?;
    }
    Ok(())
}
