//! What a line says.

ghost use Rattle.std.specs.Prelude.{◌≡◌, None, Some};
ghost use Rattle.std.specs.Option.{option_copied, option_map};
ghost use Rattle.stmt65.specs.Words.{Gives, GivesIfOk, constant_of, line_at, number_of_name, operation_at, parts, reading_of, source_of, stated};
ghost use Rattle.stmt65.specs.Code.SourceLineViews.{operation_of};

use crate::language::Language;
use crate::reading::lexer::Part;
use crate::reading::names::is_name;
use crate::reading::operations::{operation_at, operation_of};
use crate::reading::parts::Parts;
use crate::source_line::{Operation, SourceLine};
use std::alloc::{AllocError, Allocator};

/// After the name, to which a number is given.
fn number_of_name<'a, A: Allocator>(
    name: &'a [u8],
    parts: &mut Parts<'a>,
) -> Option<SourceLine<'a, A>>
    ensures { Gives source_of result (number_of_name name.now parts.old) }
{
    let value = parts.number()?;
    parts
        .is_done()
        .then_some(SourceLine::Assignment(name, value))
}

/// After the name and `:=`.
#[tactic(auto, unfolding(crate::specs::Reading::constant_of))]
fn constant_of<'a, A: Allocator>(name: &'a [u8], parts: &mut Parts<'a>) -> Option<SourceLine<'a, A>>
    ensures { Gives source_of result (constant_of name.now parts.old) }
{
    if parts.eat(b'*') {
        if !parts.eat(b'+') {
            return None;
        }
        let plus = parts.number()?;
        return parts
            .is_done()
            .then_some(SourceLine::PlaceAssignment(name, plus));
    }
    number_of_name(name, parts)
}

/// The operation, if there is one, after the optional label.
fn stated<'a, A: Allocator>(
    label: Option<&'a [u8]>,
    operation: Option<Operation<'a, A>>,
) -> Option<SourceLine<'a, A>>
    ensures { Gives source_of result (stated (option_copied label.entry) (option_map operation_of operation.entry)) }
{
    let operation = operation?;
    Some(SourceLine::Statement { label, operation })
}

/// A line that begins with the word. In a repair `=` is as good as `:=` before a number.
#[tactic(auto, unfolding(crate::specs::Reading::line_at))]
fn line_at<'a, A: Allocator>(
    alloc: A,
    language: Language,
    word: &'a [u8],
    parts: &mut Parts<'a>,
) -> Result<Option<SourceLine<'a, A>>, AllocError>
    ensures { GivesIfOk source_of result (line_at language word.now parts.old) }
{
    if parts.eat(b':') {
        if !is_name(word) {
            return Ok(None);
        }
        return Ok(stated(Some(word), operation_of(alloc, language, parts)?));
    }
    if parts.eat_define() {
        return Ok(if is_name(word) {
            constant_of(word, parts)
        } else {
            None
        });
    }
    if language == Language::Repair && parts.eat(b'=') {
        return Ok(if is_name(word) {
            number_of_name(word, parts)
        } else {
            None
        });
    }
    Ok(stated(None, operation_at(alloc, language, word, parts)?))
}

/// What the parts say.
#[tactic(auto, unfolding(crate::specs::Reading::reading_of))]
fn read_parts<'a, A: Allocator>(
    alloc: A,
    language: Language,
    parts: &mut Parts<'a>,
) -> Result<Option<SourceLine<'a, A>>, AllocError>
    ensures { GivesIfOk source_of result (reading_of language parts.old) }
{
    match parts.next() {
        None => Ok(Some(SourceLine::Statement {
            label: None,
            operation: Operation::Nothing,
        })),
        Some(Part::Word(word)) => line_at(alloc, language, word, parts),
        Some(_) => Ok(None),
    }
}

/// What a line, without its line feed, says in a language; `None` if it is no line of it. The
/// names and strings of the answer are borrowed from the line.
///
/// Fails if an allocation for a list of operands is refused.
pub fn read_line<'a, A: Allocator>(
    alloc: A,
    language: Language,
    line: &'a [u8],
) -> Result<Option<SourceLine<'a, A>>, AllocError>
    /// Returns what a line says in a language, with its numbers as written, of any size; `None` if it is not a line
    /// of that language; or out of memory.
    ensures { GivesIfOk source_of result (reading_of language (parts language line.now)) }
{
    let mut parts = Parts::new(language, line);
    read_parts(alloc, language, &mut parts)
}
