//! Expressions: a number, the sum of two, a name with an optional number added and an optional `-1`, a name less a
//! number, or the difference of two names; and what is an address or is halved. In a repair `*` is a name.

ghost use Rattle.stmt65.specs.Words.{Reads, bracketed_in, halved_in, less_at, less_one, mark_value, named_at, next_address, next_value, number_at, numeral_of, value_of};

use crate::language::Language;
use crate::reading::lexer::Part;
use crate::reading::names::{HERE, is_name};
use crate::reading::numeral::Numeral;
use crate::reading::parts::Parts;
use crate::source_line::{Minus, Value};

/// After a name and `-`: in a repair a number or another name.
fn less_at<'a>(language: Language, name: &'a [u8], parts: &mut Parts<'a>) -> Option<Value<'a>>
    ensures { Reads value_of result (less_at language name.now) parts.old parts.new }
{
    if language == Language::Listing {
        return None;
    }
    match parts.next()? {
        Part::Number(text) => Some(Value::Less(name, Numeral { text })),
        Part::Word(word) if is_name(word) => Some(Value::Difference(name, word)),
        _ => None,
    }
}

/// After a name and what is added to it: `-1`; in a repair more that is subtracted; or nothing.
#[tactic(auto, unfolding(crate::specs::Reading::less_one))]
fn less_one<'a>(
    language: Language,
    name: &'a [u8],
    plus: Numeral<'a>,
    parts: &mut Parts<'a>,
) -> Option<Value<'a>>
    ensures { Reads value_of result (less_one language name.now (numeral_of plus.entry))
        parts.old parts.new }
{
    if !parts.eat(b'-') {
        return Some(Value::Name(name, plus, Minus::Zero));
    }
    if !parts.eat_number(b"1") {
        return less_at(language, name, parts);
    }
    Some(Value::Name(name, plus, Minus::One))
}

/// After a name.
#[tactic(auto, unfolding(crate::specs::Reading::named_at))]
pub fn named_at<'a>(language: Language, name: &'a [u8], parts: &mut Parts<'a>) -> Option<Value<'a>>
    ensures { Reads value_of result (named_at language name.now) parts.old parts.new }
{
    if !parts.eat(b'+') {
        return less_one(language, name, Numeral::zero(), parts);
    }
    let plus = parts.number()?;
    less_one(Language::Listing, name, plus, parts)
}

/// After a number: in a repair `+` and a number that is added to it, or nothing.
fn number_at<'a>(
    language: Language,
    number: Numeral<'a>,
    parts: &mut Parts<'a>,
) -> Option<Value<'a>>
    ensures { Reads value_of result (number_at language (numeral_of number.entry))
        parts.old parts.new }
{
    if language == Language::Listing || !parts.eat(b'+') {
        return Some(Value::Number(number));
    }
    let plus = parts.number()?;
    Some(Value::Sum(number, plus))
}

/// After a byte by itself: in a repair `*` is a name.
pub fn mark_value<'a>(language: Language, mark: u8, parts: &mut Parts<'a>) -> Option<Value<'a>>
    ensures { Reads value_of result (mark_value language mark) parts.old parts.new }
{
    if language == Language::Repair && mark == b'*' {
        named_at(Language::Repair, HERE, parts)
    } else {
        None
    }
}

/// The next expression.
#[tactic(auto, unfolding(crate::specs::Reading::next_value))]
pub fn next_value<'a>(language: Language, parts: &mut Parts<'a>) -> Option<Value<'a>>
    ensures { Reads value_of result (next_value language) parts.old parts.new }
{
    match parts.next()? {
        Part::Number(text) => number_at(language, Numeral { text }, parts),
        Part::Word(word) if is_name(word) => named_at(language, word, parts),
        Part::Mark(mark) => mark_value(language, mark, parts),
        _ => None,
    }
}

/// The address in an operand: any expression but a difference of names.
pub fn next_address<'a>(language: Language, parts: &mut Parts<'a>) -> Option<Value<'a>>
    ensures { Reads value_of result (next_address language) parts.old parts.new }
{
    let value = next_value(language, parts)?;
    if language == Language::Repair && matches!(value, Value::Difference(_, _)) {
        return None;
    }
    Some(value)
}

/// An expression and `)`.
fn bracketed_in<'a>(parts: &mut Parts<'a>) -> Option<Value<'a>>
    ensures { Reads value_of result bracketed_in parts.old parts.new }
{
    let value = next_value(Language::Repair, parts)?;
    parts.eat(b')').then_some(value)
}

/// What `<` and `>` take: a number, a name, `*`, or an expression in parentheses.
#[tactic(auto, unfolding(crate::specs::Reading::halved_in))]
pub fn halved_in<'a>(parts: &mut Parts<'a>) -> Option<Value<'a>>
    ensures { Reads value_of result halved_in parts.old parts.new }
{
    match parts.next()? {
        Part::Number(text) => Some(Value::Number(Numeral { text })),
        Part::Word(word) if is_name(word) => Some(Value::Name(word, Numeral::zero(), Minus::Zero)),
        Part::Mark(b'(') => bracketed_in(parts),
        Part::Mark(b'*') => Some(Value::Name(HERE, Numeral::zero(), Minus::Zero)),
        _ => None,
    }
}
