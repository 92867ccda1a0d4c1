//! Values of attributes.

ghost use Rattle.std.specs.Prelude.{◌≡◌, option_map};
ghost use Rattle.info65.specs.Words.{Sees, address_value, are_printable, boolean_of, boolean_value, comment_value, cpu_value, is_file_name, is_on_command_line, label_value, name_value, number_value, seen, type_value, value_of, value_seen};

use crate::fault::{InfoFault, InfoFaultKind};
use crate::information::options::Options;
use crate::information::range::RangeType;
use crate::syntax::assignment::Value;
use crate::syntax::attribute::{Attribute, ValueForm, boolean_named, form_of, type_named};
use crate::syntax::names::has_comment_form;
use crate::syntax::token::{Token, TokenKind};
use isa65::Cpu;
use std::alloc::Allocator;
use text65::has_name_form;

#[tactic(auto, unfolding(crate::specs::Values::is_on_command_line))]
fn is_on_command_line<A: Allocator>(options: &Options<A>, attribute: Attribute) -> bool
    ensures { result ≡ is_on_command_line options.now attribute }
{
    match attribute {
        Attribute::InputName => options.input.is_some(),
        Attribute::OutputName => options.output.is_some(),
        _ => false,
    }
}

fn are_printable(text: &[u8]) -> bool
    ensures { result ≡ are_printable text.now }
{
    text.iter().all(|byte| *byte >= 0x20 && *byte <= 0x7E)
}

#[tactic(auto, unfolding(crate::specs::Values::is_file_name))]
fn is_file_name(text: &[u8]) -> bool
    ensures { result ≡ is_file_name text.now }
{
    text.len() >= 1 && text.len() <= 255 && are_printable(text)
}

#[tactic(auto, unfolding(crate::specs::Values::name_value))]
fn name_value<'a, A: Allocator>(
    options: &Options<A>,
    attribute: Attribute,
    line: u32,
    text: &'a [u8],
) -> Result<Value<'a>, InfoFault>
    ensures { Sees value_seen result (name_value options.now attribute line text.entry.now) }
{
    if !is_file_name(text) {
        return Err(InfoFault::new(line, InfoFaultKind::BadName));
    }
    if is_on_command_line(options, attribute) {
        return Err(InfoFault::new(line, InfoFaultKind::NameConflict));
    }
    Ok(Value::Name(text))
}

fn label_value<'a>(line: u32, text: &'a [u8]) -> Result<Value<'a>, InfoFault>
    ensures { Sees value_seen result (label_value line text.entry.now) }
{
    if has_name_form(text) {
        Ok(Value::Name(text))
    } else {
        Err(InfoFault::new(line, InfoFaultKind::BadName))
    }
}

fn comment_value<'a>(line: u32, text: &'a [u8]) -> Result<Value<'a>, InfoFault>
    ensures { Sees value_seen result (comment_value line text.entry.now) }
{
    if has_comment_form(text) {
        Ok(Value::Comment(text))
    } else {
        Err(InfoFault::new(line, InfoFaultKind::BadName))
    }
}

fn number_value<'a>(low: u32, high: u32, line: u32, number: u32) -> Result<Value<'a>, InfoFault>
    ensures { Sees value_seen result (number_value low high line number) }
{
    if low <= number && number <= high {
        Ok(Value::Number(number))
    } else {
        Err(InfoFault::new(line, InfoFaultKind::OutOfRange))
    }
}

fn address_value<'a>(line: u32, number: u32) -> Result<Value<'a>, InfoFault>
    ensures { Sees value_seen result (address_value line number) }
{
    if number <= 0xFFFF {
        Ok(Value::Address(number as u16))
    } else {
        Err(InfoFault::new(line, InfoFaultKind::OutOfRange))
    }
}

fn cpu_value<'a>(line: u32, cpu: Option<Cpu>) -> Result<Value<'a>, InfoFault>
    ensures { Sees value_seen result (cpu_value line cpu) }
{
    match cpu {
        Some(cpu) => Ok(Value::Cpu(cpu)),
        None => Err(InfoFault::new(line, InfoFaultKind::OutOfRange)),
    }
}

fn type_value<'a>(line: u32, role: Option<RangeType>) -> Result<Value<'a>, InfoFault>
    ensures { Sees value_seen result (type_value line role) }
{
    match role {
        Some(role) => Ok(Value::Role(role)),
        None => Err(InfoFault::new(line, InfoFaultKind::Expected)),
    }
}

fn boolean_value<'a>(line: u32, on: Option<bool>) -> Result<Value<'a>, InfoFault>
    ensures { Sees value_seen result (boolean_value line on) }
{
    match on {
        Some(on) => Ok(Value::Boolean(on)),
        None => Err(InfoFault::new(line, InfoFaultKind::Expected)),
    }
}

fn boolean_of(number: u32) -> Option<bool>
    ensures { result ≡ boolean_of number }
{
    match number {
        0 => Some(false),
        1 => Some(true),
        _ => None,
    }
}

/// The value of an attribute, or the first of its faults.
#[tactic(auto, unfolding(crate::specs::Values::value_of))]
pub fn value_of<'a, A: Allocator>(
    options: &Options<A>,
    attribute: Attribute,
    token: Token<'a>,
) -> Result<Value<'a>, InfoFault>
    ensures { Sees value_seen result (value_of options.now attribute (seen token.entry)) }
{
    let line = token.line;
    match (form_of(attribute), token.kind) {
        (ValueForm::FileName, TokenKind::Text(text)) => name_value(options, attribute, line, text),
        (ValueForm::CpuText, TokenKind::Text(text)) => cpu_value(line, Cpu::from_bytes(text)),
        (ValueForm::Address, TokenKind::Number(number)) => address_value(line, number),
        (ValueForm::Number { low, high }, TokenKind::Number(number)) => {
            number_value(low, high, line, number)
        }
        (ValueForm::Name, TokenKind::Text(text)) => label_value(line, text),
        (ValueForm::Comment, TokenKind::Text(text)) => comment_value(line, text),
        (ValueForm::Boolean, TokenKind::Word) => boolean_value(line, boolean_named(token.text)),
        (ValueForm::Boolean, TokenKind::Number(number)) => boolean_value(line, boolean_of(number)),
        (ValueForm::TypeWord, TokenKind::Word) => type_value(line, type_named(token.text)),
        (ValueForm::Character, TokenKind::Character(byte)) => Ok(Value::Character(byte)),
        _ => Err(InfoFault::new(line, InfoFaultKind::Expected)),
    }
}
