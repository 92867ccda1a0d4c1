//! The written forms of an operand.

ghost use Rattle.std.specs.Prelude.{◌≡◌};
ghost use Rattle.stmt65.specs.Words.{Gives, half_form, immediate_of, inner_at, sized, tail_at, value_of, whole};
ghost use Rattle.stmt65.specs.Code.SourceLineViews.{form_of as form_of_code};
ghost use Rattle.stmt65.specs.Reading.{form_of};

use crate::language::Language;
use crate::reading::expressions::{halved_in, next_address, next_value};
use crate::reading::parts::Parts;
use crate::source_line::{AddressSize, Form, Half, Notation, Value};
use isa65::Pattern;

/// The form, if nothing is left.
fn whole<'a>(form: Form<'a>, parts: &Parts<'a>) -> Option<Form<'a>>
    ensures { Gives form_of_code result (whole (form_of_code form.entry) parts.now) }
{
    parts.is_done().then_some(form)
}

/// A pattern, after `a:` if the operand is absolute.
fn sized(size: AddressSize, pattern: Pattern) -> Notation
    ensures { result ≡ sized size pattern }
{
    match (size, pattern) {
        (AddressSize::Absolute, Pattern::Direct) => Notation::Absolute,
        (AddressSize::Absolute, Pattern::DirectX) => Notation::AbsoluteX,
        (AddressSize::Absolute, Pattern::DirectY) => Notation::AbsoluteY,
        (_, pattern) => Notation::Plain(pattern),
    }
}

/// After the first expression; `size` says whether `a:` stands before it.
#[tactic(auto, unfolding(crate::specs::Reading::tail_at))]
fn tail_at<'a>(
    language: Language,
    size: AddressSize,
    value: Value<'a>,
    parts: &mut Parts<'a>,
) -> Option<Form<'a>>
    ensures { Gives form_of_code result (tail_at language size (value_of value.entry) parts.old) }
{
    if !parts.eat(b',') {
        return whole(Form::One(sized(size, Pattern::Direct), value), parts);
    }
    if parts.eat_word(b"x") {
        return whole(Form::One(sized(size, Pattern::DirectX), value), parts);
    }
    if parts.eat_word(b"y") {
        return whole(Form::One(sized(size, Pattern::DirectY), value), parts);
    }
    if size == AddressSize::Absolute {
        return None;
    }
    let second = next_address(language, parts)?;
    whole(Form::Two(value, second), parts)
}

/// After `(` and an expression.
#[tactic(auto, unfolding(crate::specs::Reading::inner_at))]
fn inner_at<'a>(value: Value<'a>, parts: &mut Parts<'a>) -> Option<Form<'a>>
    ensures { Gives form_of_code result (inner_at (value_of value.entry) parts.old) }
{
    if parts.eat(b')') {
        if !parts.eat(b',') {
            return whole(Form::One(Notation::Plain(Pattern::Indirect), value), parts);
        }
        if !parts.eat_word(b"y") {
            return None;
        }
        return whole(Form::One(Notation::Plain(Pattern::IndirectY), value), parts);
    }
    if !parts.eat(b',') || !parts.eat_word(b"x") || !parts.eat(b')') {
        return None;
    }
    whole(Form::One(Notation::Plain(Pattern::IndirectX), value), parts)
}

/// After `#` and `<` or `>`.
fn half_form<'a>(half: Half, parts: &mut Parts<'a>) -> Option<Form<'a>>
    ensures { Gives form_of_code result (half_form half parts.old) }
{
    let value = halved_in(parts)?;
    whole(Form::One(Notation::Half(half), value), parts)
}

/// After `#`.
#[tactic(auto, unfolding(crate::specs::Reading::immediate_of))]
fn immediate_of<'a>(language: Language, parts: &mut Parts<'a>) -> Option<Form<'a>>
    ensures { Gives form_of_code result (immediate_of language parts.old) }
{
    if language == Language::Repair {
        if parts.eat(b'<') {
            return half_form(Half::Low, parts);
        }
        if parts.eat(b'>') {
            return half_form(Half::High, parts);
        }
    }
    let value = next_value(language, parts)?;
    whole(Form::One(Notation::Plain(Pattern::Immediate), value), parts)
}

/// The operand: everything after a mnemonic.
#[tactic(auto, unfolding(crate::specs::Reading::form_of))]
pub fn form_of<'a>(language: Language, parts: &mut Parts<'a>) -> Option<Form<'a>>
    ensures { Gives form_of_code result (form_of language parts.old) }
{
    if parts.eat(b'#') {
        return immediate_of(language, parts);
    }
    if parts.eat(b'(') {
        let value = next_address(language, parts)?;
        return inner_at(value, parts);
    }
    if parts.eat_word(b"a") {
        if !parts.eat(b':') {
            return whole(Form::Accumulator, parts);
        }
        let value = next_address(language, parts)?;
        return tail_at(language, AddressSize::Absolute, value, parts);
    }
    if parts.is_done() {
        return Some(Form::Empty);
    }
    let value = next_address(language, parts)?;
    tail_at(language, AddressSize::Automatic, value, parts)
}
