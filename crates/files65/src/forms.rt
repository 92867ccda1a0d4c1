//! Which operands an operation has, for a line with another one. It is advice.

use crate::lines::line_at;
use isa65::{Cpu, Mnemonic, Mode, OpcodeSet, Pattern};
use std::alloc::{AllocError, Global};
use stmt65::{Form, Notation, Operation, Source, SourceLine, read_line};
use text65::first_line;

/// How operands are written, and the modes that are written so.
const WRITTEN: [(&[u8], &[Mode]); 10] = [
    (b"no operand", &[Mode::Imp]),
    (b"a", &[Mode::Acc]),
    (b"#n", &[Mode::Imm]),
    (b"n", &[Mode::Zp, Mode::Abs, Mode::Rel]),
    (b"n,x", &[Mode::Zpx, Mode::Absx]),
    (b"n,y", &[Mode::Zpy, Mode::Absy]),
    (b"(n)", &[Mode::Ind, Mode::Zpind]),
    (b"(n,x)", &[Mode::Indx, Mode::Absindx]),
    (b"(n),y", &[Mode::Indy]),
    (b"n,n", &[Mode::Zprel]),
];

/// Whether a CPU has a mnemonic in one of these modes.
fn has_mode(cpu: Cpu, mnemonic: Mnemonic, modes: &[Mode]) -> bool {
    modes
        .iter()
        .any(|mode| cpu.encode(mnemonic, *mode).is_some())
}

/// The modes that are written like these operands.
fn modes_of(form: &Form<'_>) -> &'static [Mode] {
    match form {
        Form::Empty => &[Mode::Imp, Mode::Acc],
        Form::Accumulator => &[Mode::Acc],
        Form::Two(_, _) => &[Mode::Zprel],
        Form::One(Notation::Absolute, _) => &[Mode::Abs],
        Form::One(Notation::AbsoluteX, _) => &[Mode::Absx],
        Form::One(Notation::AbsoluteY, _) => &[Mode::Absy],
        Form::One(Notation::Half(_) | Notation::Plain(Pattern::Immediate), _) => &[Mode::Imm],
        Form::One(Notation::Plain(Pattern::Direct), _) => &[Mode::Zp, Mode::Abs, Mode::Rel],
        Form::One(Notation::Plain(Pattern::DirectX), _) => &[Mode::Zpx, Mode::Absx],
        Form::One(Notation::Plain(Pattern::DirectY), _) => &[Mode::Zpy, Mode::Absy],
        Form::One(Notation::Plain(Pattern::Indirect), _) => &[Mode::Ind, Mode::Zpind],
        Form::One(Notation::Plain(Pattern::IndirectX), _) => &[Mode::Indx, Mode::Absindx],
        Form::One(Notation::Plain(Pattern::IndirectY), _) => &[Mode::Indy],
    }
}

/// The CPU of a line, by the lines above it.
fn cpu_at(alloc: Global, source: &Source<'_, '_, '_>, number: usize) -> Result<Cpu, AllocError> {
    let mut cpu = Cpu::M6502;
    let mut rest = source.text;
    let mut above = 1usize;
    'lines: while let Some((line, after)) = first_line(rest) {
        if number <= above {
            break;
        }
        if let Some(
            SourceLine::Statement {
                operation: Operation::SetCpu(name),
                ..
            },
        ) = read_line(alloc, source.language, line)?
        {
            cpu = Cpu::from_bytes(name).unwrap_or(cpu);
        }
        above = above.saturating_add(1);
        rest = after;
    }
    Ok(cpu)
}

/// Appends how the operands of a mnemonic are written for a CPU.
fn put_written(out: &mut Vec<u8>, cpu: Cpu, mnemonic: Mnemonic) -> Result<(), AllocError> {
    out.extend_from_slice(mnemonic.text())?;
    out.extend_from_slice(b" has")?;
    let mut is_first = true;
    for (text, modes) in &WRITTEN {
        if has_mode(cpu, mnemonic, *modes) {
            out.extend_from_slice(if is_first {
                b" ".as_slice()
            } else {
                b" or ".as_slice()
            })?;
            out.extend_from_slice(*text)?;
            is_first = false;
        }
    }
    Ok(())
}

/// Appends which CPU has what the line of this number has, or which operands there are.
pub(crate) fn put_forms(
    alloc: Global,
    out: &mut Vec<u8>,
    source: &Source<'_, '_, '_>,
    number: usize,
) -> Result<(), AllocError> {
    let line = line_at(source.text, number);
    let Some(
        SourceLine::Statement {
            operation: Operation::Instr(mnemonic, form),
            ..
        },
    ) = read_line(alloc, source.language, line)?
    else {
        return Ok(());
    };
    for cpu in [Cpu::M65SC02, Cpu::M65C02] {
        if has_mode(cpu, mnemonic, modes_of(&form)) {
            out.extend_from_slice(b"after .setcpu \"")?;
            out.extend_from_slice(cpu.text())?;
            return out.extend_from_slice(b"\" there is one");
        }
    }
    put_written(out, cpu_at(alloc, source, number)?, mnemonic)
}
