//! What a line that cannot be read may have meant: the first row that fits. It is advice.

use crate::guesses::numbers::guess_number;
use crate::guesses::operands::guess_operand;
use crate::guesses::operations::{guess_directive, guess_operation};
use crate::guesses::texts::guess_text;
use crate::words::Row;
use std::alloc::{AllocError, Global};
use stmt65::Language;

/// A text, a part of the line or of what should be there, and a text.
#[derive(Clone, Copy)]
pub(crate) struct Guess<'a>(pub &'static str, pub &'a [u8], pub &'static str);

/// A guess that is a text alone, if something holds.
pub(crate) fn plain<'a>(holds: bool, text: &'static str) -> Option<Guess<'a>> {
    holds.then_some(Guess(text, &[], ""))
}

/// Appends what a line may have meant.
pub(crate) fn put_guess(
    alloc: Global,
    out: &mut Vec<u8>,
    language: Language,
    line: &[u8],
) -> Result<(), AllocError> {
    let row = Row::of(alloc, language, line)?;
    let found = guess_text(&row)
        .or(guess_directive(&row))
        .or(guess_number(&row))
        .or(guess_operand(&row))
        .or(guess_operation(&row));
    let Guess(before, part, after) = found.unwrap_or(Guess("not a line of a listing", &[], ""));
    out.extend_from_slice(before.as_bytes())?;
    out.extend_from_slice(part)?;
    out.extend_from_slice(after.as_bytes())
}
