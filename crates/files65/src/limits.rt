//! Which number of a line is out of range, or what to write for a half of an address. It is advice.

use isa65::Pattern;
use std::alloc::{AllocError, Global};
use stmt65::{
    Datum, Directive, Form, Language, Notation, Numeral, Operation, Places, SourceLine, Value,
    read_line,
};
use text65::is_word_byte;

/// Appends that a number is greater than it may be, if it is.
fn put_large(out: &mut Vec<u8>, number: Numeral<'_>, most: u64) -> Result<(), AllocError> {
    if number.value() <= most {
        return Ok(());
    }
    out.extend_from_slice(number.text)?;
    out.extend_from_slice(match most {
        255 => b" is not from 0 to 255".as_slice(),
        65_535 => b" is not from 0 to 65535".as_slice(),
        _ => b" has more than 32 bits".as_slice(),
    })
}

/// Appends a half of what is written here, in parentheses unless it is a name.
fn put_half(out: &mut Vec<u8>, mark: &[u8], half: &[u8], text: &[u8]) -> Result<(), AllocError> {
    out.extend_from_slice(mark)?;
    out.extend_from_slice(half)?;
    if text.iter().all(|byte| is_word_byte(*byte)) {
        return out.extend_from_slice(text);
    }
    out.extend_from_slice(b"(")?;
    out.extend_from_slice(text)?;
    out.extend_from_slice(b")")
}

/// Appends the text of both halves.
fn put_both(out: &mut Vec<u8>, mark: &[u8], text: &[u8]) -> Result<(), AllocError> {
    put_half(out, mark, b"<", text)?;
    out.extend_from_slice(b" or ")?;
    put_half(out, mark, b">", text)
}

/// Appends the halves of the only address among the operands of a line.
fn put_halves(
    out: &mut Vec<u8>,
    language: Language,
    mark: &[u8],
    line: &[u8],
) -> Result<(), AllocError> {
    let mut places = Places::new(language, line);
    let _ = places.head();
    let mut only = None;
    for _ in 0..=line.len() {
        let Some(operand) = places.operand() else {
            break;
        };
        if let Datum::Value(Value::Name(_, _, _)) = operand.datum {
            if only.is_some() {
                return Ok(());
            }
            only = Some(operand.span);
        }
    }
    match only {
        Some(span) => put_both(out, mark, line.get(span.from..span.to).unwrap_or(&[])),
        None => Ok(()),
    }
}

/// Appends what is wrong with a number that has to be a byte, or else with the address in its place.
fn put_bytes(
    out: &mut Vec<u8>,
    language: Language,
    operation: &Operation<'_>,
    line: &[u8],
) -> Result<(), AllocError> {
    match operation {
        Operation::Instr(_, Form::One(Notation::Plain(Pattern::Immediate), Value::Number(number)))
        | Operation::Instr(_, Form::One(Notation::Plain(Pattern::IndirectY), Value::Number(number)))
        | Operation::Instr(_, Form::Two(Value::Number(number), _)) => put_large(out, *number, 255),
        Operation::Instr(_, Form::One(Notation::Plain(Pattern::Immediate), _)) => {
            put_halves(out, language, b"#", line)
        }
        Operation::Data(data) => {
            for datum in data {
                if let (Datum::Number(number), true) = (*datum, out.is_empty()) {
                    put_large(out, number, 255)?;
                }
            }
            if out.is_empty() {
                put_halves(out, language, b"", line)?;
            }
            Ok(())
        }
        _ => Ok(()),
    }
}

/// Appends which number of a line is out of range and what it may be, if it is written there.
pub(crate) fn put_limits(
    alloc: Global,
    out: &mut Vec<u8>,
    language: Language,
    line: &[u8],
) -> Result<(), AllocError> {
    match read_line(alloc, language, line)? {
        Some(SourceLine::Assignment(_, number)) => put_large(out, number, 65_535),
        Some(
            SourceLine::Statement {
                operation: Operation::Values(directive, values),
                ..
            },
        ) => {
            let most = if directive == Directive::Dword {
                0xFFFF_FFFF
            } else {
                65_535
            };
            for value in &values {
                if let (Value::Number(number), true) = (*value, out.is_empty()) {
                    put_large(out, number, most)?;
                }
            }
            Ok(())
        }
        Some(SourceLine::Statement { operation, .. }) => {
            put_bytes(out, language, &operation, line)
        }
        _ => Ok(()),
    }
}
