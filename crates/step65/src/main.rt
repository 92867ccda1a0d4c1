//! Runs one instruction from each of many states: `step65 CPU <states >results`.
//!
//! A state is 73 bytes: P, A, X, Y, S, the program counter; 18 times an address and a byte that is written
//! there before; and 6 addresses. Memory is that of the state before. A result is 13 bytes: A, X, Y, S, P, the
//! program counter, and the bytes at those addresses. Words have their low byte first. `tests/test_run65.py`
//! compares the results with those of sim65.
#![tactic(auto)]

mod ram;
mod state;

use isa65::Cpu;
use map65::{TakeFault, Told, take_up_to};
use ram::Ram;
use run65::{Machine, Registers};
use state::{STATE, put_result};
use std::alloc::AllocError;
use std::env;
use std::io::Write;
use std::process::ExitCode;

/// The most that is read.
const LIMIT: usize = 16_777_216;

/// The CPU that the first argument names, or the 6502.
fn cpu(rt: &HostRuntime) -> Cpu {
    if let Ok(words) = env::args(rt) {
        for word in words {
            if let Some(cpu) = Cpu::from_bytes(word.as_bytes()) {
                return cpu;
            }
        }
    }
    Cpu::M6502
}

/// The results of these states.
fn results(rt: &HostRuntime, cpu: Cpu, states: &[u8]) -> Result<Vec<u8>, AllocError> {
    let mut machine = Machine::new(cpu, Registers::at(0), Ram::new(rt.alloc())?);
    let mut results = Vec::new(rt.alloc());
    let mut rest = states;
    for _ in 0..states.len() / STATE {
        let Some((state, after)) = rest.split_at_checked(STATE) else {
            break;
        };
        put_result(&mut results, &mut machine, state)?;
        rest = after;
    }
    Ok(results)
}

fn program(rt: &HostRuntime) -> Result<bool, AllocError> {
    let states = match take_up_to(rt.alloc(), &mut Told::new(rt.stdin()), LIMIT) {
        Ok(states) => states,
        Err(TakeFault::Memory) => return Err(AllocError),
        Err(TakeFault::Read) => return Ok(false),
    };
    let results = results(rt, cpu(rt), &states)?;
    Ok(rt.stdout().write_all(&results).is_ok())
}

fn main(rt: HostRuntime) -> ExitCode {
    match program(&rt) {
        Ok(true) => ExitCode::SUCCESS,
        _ => ExitCode::FAILURE,
    }
}
