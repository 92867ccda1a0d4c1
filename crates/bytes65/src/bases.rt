//! Operands that lie in code right before a table, which they are likely counted from.

use crate::survey::{Survey, writes};
use entries65::declared::tagged;
use info65::TagKind;
use isa65::Mode;
use reach65::Step;
use reach65::image::{address, ends};
use std::alloc::AllocError;

/// How far a table may lie behind the operand that is counted from it.
const FAR: u16 = 256;

/// An operand that is counted from a table, and the instruction that has it.
#[derive(Clone, Copy)]
pub struct Base {
    pub reader: u16,
    pub operand: u16,
    pub table: u16,
}

/// The operand of an instruction that reads with an index, if it lies in code.
fn operand_in_code(survey: &Survey<'_>, step: &Step) -> Option<u16> {
    let operand = step.operand?;
    let reads = matches!(step.op.mode, Mode::Absx | Mode::Absy) && !writes(step.op.mnemonic);
    (reads && survey.code.get(operand)).then_some(operand)
}

/// Where code ends in the image behind the first of these operands, but not far behind the last: the addresses right
/// behind it that no code has, in order.
fn code_ends(survey: &Survey<'_>, operands: &[(u16, u16)]) -> Result<Vec<u16>, AllocError> {
    let (_, end) = ends(survey.steps.image());
    let mut found = Vec::new(survey.steps.alloc());
    let (mut first, mut last) = (u16::MAX, 0u16);
    for &(_, operand) in operands {
        first = first.min(operand);
        last = last.max(operand);
    }
    // Code has each operand.
    let mut was_code = true;
    let behind = last.saturating_add(FAR);
    for at in usize::from(first)..end.min(usize::from(behind) + 1) {
        let is_code = survey.code.get_at(at);
        if was_code
            && !is_code
            && let Some(place) = address(at)
        {
            found.push(place)?;
        }
        was_code = is_code;
    }
    Ok(found)
}

/// The first of these places behind the operand, unless it is far.
fn table_of(code_ends: &[u16], operand: u16) -> Option<u16> {
    let (Ok(index) | Err(index)) = code_ends.binary_search(&operand);
    let table = *code_ends.get(index)?;
    (table.saturating_sub(operand) < FAR).then_some(table)
}

/// Returns the operands with an index that are likely counted from a table behind them, but for those of groups BASE.
pub fn bases_of(survey: &Survey<'_>) -> Result<Vec<Base>, AllocError> {
    let (steps, alloc) = (survey.steps, survey.steps.alloc());
    let (mut operands, mut found) = (Vec::new(alloc), Vec::new(alloc));
    for &reader in &survey.users {
        if let Some(step) = steps.at(reader)
            && let Some(operand) = operand_in_code(survey, step)
        {
            operands.push((reader, operand))?;
        }
    }
    if operands.is_empty() {
        return Ok(found);
    }
    let given = tagged(alloc, steps.tags(), TagKind::Base)?;
    let code_ends = code_ends(survey, &operands)?;
    for &(reader, operand) in &operands {
        if let Some(table) = table_of(&code_ends, operand)
            && !given.get(reader)
        {
            found.push(Base {
                reader,
                operand,
                table,
            })?;
        }
    }
    Ok(found)
}
