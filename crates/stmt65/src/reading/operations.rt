//! Operations: a mnemonic with its operand, or an operation of the assembler.

ghost use Rattle.std.specs.Prelude.{◌≡◌, List, Option, map};
ghost use Rattle.stmt65.specs.Words.{Gives, GivesIfOk, Part, Reads, data_of, datum_of, further_at, half_datum, list_of, mark_datum, next_datum, next_half, number_datum, numeral_of, operand_in, operation_at, other_at, reserve_of, segment_of, takes_accumulator, text_in, word_datum};
ghost use Rattle.stmt65.specs.Code.SourceLineViews.{form_of as form_of_code, operation_of as operation_of_code};
ghost use Rattle.stmt65.specs.Reading.{instruction_of, operation_of};

use crate::directive::Directive;
use crate::language::Language;
use crate::reading::expressions::{halved_in, mark_value, named_at, next_value};
use crate::reading::lexer::Part;
use crate::reading::names::{is_name, is_word};
use crate::reading::numeral::Numeral;
use crate::reading::operands::form_of;
use crate::reading::parts::Parts;
use crate::source_line::{Datum, Form, Half, Operation, Value};
use isa65::Mnemonic;
use std::alloc::{AllocError, Allocator};
use text65::has_name_form;

/// What stands in a list. The rule says how it is read.
trait Listed<'a, R>: Sized {
    /// What it is in the definitions.
    ghost Seen: { Type 0 };
    /// As that.
    ghost seen: { Self → Seen };
    /// The first of it in some parts, and the parts after it.
    ghost first_in: { R → List Part → Option (Seen × List Part) };

    /// Takes the next of it.
    fn next_in(rule: R, parts: &mut Parts<'a>) -> Option<Self>
        ensures { Reads seen result (first_in rule) parts.old parts.new };
}

impl<'a> Listed<'a, Language> for Datum<'a> {
    ghost use Rattle.stmt65.specs.Words.{Datum as ADatum, datum_of, next_datum};

    ghost Seen = { ADatum };

    ghost seen = { datum_of };

    ghost first_in = { next_datum };

    #[tactic(auto, unfolding(crate::specs::Reading::next_datum))]
    fn next_in(language: Language, parts: &mut Parts<'a>) -> Option<Self> {
        match parts.next()? {
            Part::Number(text) => number_datum(language, Numeral { text }, parts),
            Part::Text(text) => Some(Datum::String(text)),
            Part::Word(word) => word_datum(language, word, parts),
            Part::Mark(mark) => mark_datum(language, mark, parts),
            Part::Define => None,
        }
    }
}

impl<'a> Listed<'a, Language> for Value<'a> {
    ghost use Rattle.stmt65.specs.Words.{Value as AValue, value_of, next_value};

    ghost Seen = { AValue };

    ghost seen = { value_of };

    ghost first_in = { next_value };

    fn next_in(language: Language, parts: &mut Parts<'a>) -> Option<Self> {
        next_value(language, parts)
    }
}

impl<'a> Listed<'a, Half> for Datum<'a> {
    ghost use Rattle.stmt65.specs.Words.{Datum as ADatum, datum_of, next_half};

    ghost Seen = { ADatum };

    ghost seen = { datum_of };

    ghost first_in = { next_half };

    #[tactic(auto, unfolding(crate::specs::Reading::next_half))]
    fn next_in(half: Half, parts: &mut Parts<'a>) -> Option<Self> {
        let value = next_value(Language::Repair, parts)?;
        Some(Datum::Half(half, value))
    }
}

/// After a word as an operand of `.byte`: in a repair an expression with this name.
#[tactic(auto, unfolding(crate::specs::Reading::word_datum))]
fn word_datum<'a>(language: Language, word: &'a [u8], parts: &mut Parts<'a>) -> Option<Datum<'a>>
    ensures { Reads datum_of result (word_datum language word.now) parts.old parts.new }
{
    if language == Language::Listing || !is_name(word) {
        return None;
    }
    let value = named_at(Language::Repair, word, parts)?;
    Some(Datum::Value(value))
}

/// After `<` or `>`.
fn half_datum<'a>(half: Half, parts: &mut Parts<'a>) -> Option<Datum<'a>>
    ensures { Reads datum_of result (half_datum half) parts.old parts.new }
{
    let value = halved_in(parts)?;
    Some(Datum::Half(half, value))
}

/// After a byte by itself as an operand of `.byte`: in a repair a half, or an expression with `*`.
#[tactic(auto, unfolding(crate::specs::Reading::mark_datum))]
fn mark_datum<'a>(language: Language, mark: u8, parts: &mut Parts<'a>) -> Option<Datum<'a>>
    ensures { Reads datum_of result (mark_datum language mark) parts.old parts.new }
{
    if language == Language::Listing {
        return None;
    }
    match mark {
        b'<' => half_datum(Half::Low, parts),
        b'>' => half_datum(Half::High, parts),
        mark => {
            let value = mark_value(Language::Repair, mark, parts)?;
            Some(Datum::Value(value))
        }
    }
}

/// After a number as an operand of `.byte`: in a repair what is added to it makes it an expression.
fn number_datum<'a>(
    language: Language,
    number: Numeral<'a>,
    parts: &mut Parts<'a>,
) -> Option<Datum<'a>>
    ensures { Reads datum_of result (number_datum language (numeral_of number.entry))
        parts.old parts.new }
{
    if language == Language::Listing || !parts.eat(b'+') {
        return Some(Datum::Number(number));
    }
    let plus = parts.number()?;
    Some(Datum::Value(Value::Sum(number, plus)))
}

/// Values or data joined by commas, with nothing after them.
#[tactic(auto, using(crate::proofs::ListLemmas::lists))]
fn list_in<'a, R: Copy, T: Listed<'a, R> + Drop, A: Allocator>(
    alloc: A,
    rule: R,
    parts: &mut Parts<'a>,
) -> Result<Option<Vec<T, A>>, AllocError>
    ensures { GivesIfOk (λ v. map T.seen v.items) result (list_of (T.first_in rule) parts.old) }
{
    let mut found = Vec::new(alloc);
    'reads: loop {
        let Some(item) = T::next_in(rule, parts) else {
            return Ok(None);
        };
        found.push(item)?;
        if !parts.eat(b',') {
            if parts.is_done() {
                return Ok(Some(found));
            }
            return Ok(None);
        }
    }
}

/// The one string that is left.
#[tactic(auto, unfolding(crate::specs::Reading::text_in))]
fn text_in<'a>(parts: &mut Parts<'a>) -> Option<&'a [u8]>
    ensures { Gives (λ t. t.now) result (text_in parts.old) }
{
    match parts.next()? {
        Part::Text(text) => parts.is_done().then_some(text),
        _ => None,
    }
}

fn segment<'a, A: Allocator>(parts: &mut Parts<'a>) -> Option<Operation<'a, A>>
    ensures { Gives operation_of_code result (segment_of parts.old) }
{
    let name = text_in(parts)?;
    has_name_form(name).then_some(Operation::Segment(name))
}

/// An instruction that can work on the accumulator.
fn takes_accumulator(mnemonic: Mnemonic) -> bool
    ensures { result ≡ takes_accumulator mnemonic }
{
    matches!(
        mnemonic,
        Mnemonic::Asl
            | Mnemonic::Lsr
            | Mnemonic::Rol
            | Mnemonic::Ror
            | Mnemonic::Inc
            | Mnemonic::Dec
    )
}

/// The operand; without one, in a repair, such an instruction works on the accumulator.
fn operand_in<'a>(language: Language, mnemonic: Mnemonic, form: Form<'a>) -> Form<'a>
    ensures { form_of_code result ≡ operand_in language mnemonic (form_of_code form.entry) }
{
    match (language, form) {
        (Language::Repair, Form::Empty) if takes_accumulator(mnemonic) => Form::Accumulator,
        (_, form) => form,
    }
}

fn instruction<'a, A: Allocator>(
    language: Language,
    word: &[u8],
    parts: &mut Parts<'a>,
) -> Option<Operation<'a, A>>
    ensures { Gives operation_of_code result (instruction_of language word.now parts.old) }
{
    let mnemonic = Mnemonic::from_bytes(word)?;
    let form = form_of(language, parts)?;
    Some(Operation::Instr(mnemonic, operand_in(language, mnemonic, form)))
}

/// A number of bytes, and after a comma their value.
fn reserve<'a, A: Allocator>(parts: &mut Parts<'a>) -> Option<Operation<'a, A>>
    ensures { Gives operation_of_code result (reserve_of parts.old) }
{
    let count = parts.number()?;
    let value = if parts.eat(b',') {
        parts.number()?
    } else {
        Numeral::zero()
    };
    parts.is_done().then_some(Operation::Reserve(count, value))
}

/// A list of halves or reserved bytes in a repair, or an instruction.
#[tactic(auto, unfolding(crate::specs::Reading::further_at))]
fn further_at<'a, A: Allocator>(
    alloc: A,
    language: Language,
    word: &'a [u8],
    parts: &mut Parts<'a>,
) -> Result<Option<Operation<'a, A>>, AllocError>
    ensures { GivesIfOk operation_of_code result (further_at language word.now parts.old) }
{
    if language == Language::Listing {
        return Ok(instruction(Language::Listing, word, parts));
    }
    if is_word(word, b".lobytes") {
        return Ok(list_in(alloc, Half::Low, parts)?.map(|data| Operation::Data(data)));
    }
    if is_word(word, b".hibytes") {
        return Ok(list_in(alloc, Half::High, parts)?.map(|data| Operation::Data(data)));
    }
    if is_word(word, b".res") {
        return Ok(reserve(parts));
    }
    Ok(instruction(Language::Repair, word, parts))
}

/// The operation that begins with the word, which is none of the directives that give numbers.
#[tactic(auto, unfolding(crate::specs::Reading::other_at))]
fn other_at<'a, A: Allocator>(
    alloc: A,
    language: Language,
    word: &'a [u8],
    parts: &mut Parts<'a>,
) -> Result<Option<Operation<'a, A>>, AllocError>
    ensures { GivesIfOk operation_of_code result (other_at language word.now parts.old) }
{
    if is_word(word, b".byte") {
        return Ok(list_in(alloc, language, parts)?.map(|data| Operation::Data(data)));
    }
    if is_word(word, b".segment") {
        return Ok(segment(parts));
    }
    if is_word(word, b".code") {
        return Ok(parts.is_done().then_some(Operation::Code));
    }
    if is_word(word, b".setcpu") {
        return Ok(text_in(parts).map(|text| Operation::SetCpu(text)));
    }
    further_at(alloc, language, word, parts)
}

/// The operation that begins with the word.
#[tactic(auto, unfolding(crate::specs::Reading::operation_at))]
pub fn operation_at<'a, A: Allocator>(
    alloc: A,
    language: Language,
    word: &'a [u8],
    parts: &mut Parts<'a>,
) -> Result<Option<Operation<'a, A>>, AllocError>
    ensures { GivesIfOk operation_of_code result (operation_at language word.now parts.old) }
{
    match Directive::from_word(word) {
        Some(directive) => {
            let values = list_in(alloc, language, parts)?;
            Ok(values.map(|values| Operation::Values(directive, values)))
        }
        None => other_at(alloc, language, word, parts),
    }
}

/// The operation: everything that is left, or nothing.
#[tactic(auto, unfolding(crate::specs::Reading::operation_of))]
pub fn operation_of<'a, A: Allocator>(
    alloc: A,
    language: Language,
    parts: &mut Parts<'a>,
) -> Result<Option<Operation<'a, A>>, AllocError>
    ensures { GivesIfOk operation_of_code result (operation_of language parts.old) }
{
    match parts.next() {
        None => Ok(Some(Operation::Nothing)),
        Some(Part::Word(word)) => operation_at(alloc, language, word, parts),
        Some(_) => Ok(None),
    }
}
