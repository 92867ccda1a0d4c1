//! First words of data that code loads in halves, which lead to other data.

use crate::ground::Ground;
use crate::survey::Survey;
use entries65::pairs::Pair;
use isa65::Mode;
use map65::Marks;
use std::alloc::AllocError;

/// Marks the absolute operands of reached instructions with an index.
fn indexed(survey: &Survey<'_>) -> Result<Marks, AllocError> {
    let mut marks = Marks::none(survey.steps.alloc())?;
    for &at in &survey.users {
        if let Some(step) = survey.steps.at(at)
            && matches!(step.op.mode, Mode::Absx | Mode::Absy)
            && let Some(operand) = step.operand
        {
            marks.set(operand);
        }
    }
    Ok(marks)
}

/// Marks the word at the address of a pair, if it leads to data that nothing speaks for and that reached code reads or
/// writes with an index: a block of parameters begins with the address of a buffer.
pub fn mark_firsts(
    ground: &mut Ground<'_>,
    survey: &Survey<'_>,
    pairs: &[Pair],
) -> Result<(), AllocError> {
    let mut found = Vec::new(survey.steps.alloc());
    for pair in pairs {
        let at = usize::from(pair.address);
        if let Some(word) = ground.word(at)
            && survey.operands.get(word)
            && ground.is_plain(usize::from(word))
        {
            found.push((at, word))?;
        }
    }
    if found.is_empty() {
        return Ok(());
    }
    let indexed = indexed(survey)?;
    for &(at, word) in &found {
        if indexed.get(word) && ground.word(at).is_some() {
            ground.put_words(0, at, at.saturating_add(2));
        }
    }
    Ok(())
}
