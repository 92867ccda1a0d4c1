//! What is given in a group.

ghost use Rattle.std.specs.Prelude.{◌≡◌, option_copied, option_map};
ghost use Rattle.info65.specs.Words.{as_boolean, as_character, as_comment, as_cpu, as_name, as_number, as_type, value_seen};
ghost use Rattle.info65.specs.Values.{as_address};

use crate::information::range::RangeType;
use crate::syntax::attribute::{Attribute, GroupKind};
use isa65::Cpu;
use std::alloc::Allocator;

/// The value of an attribute.
#[derive(Clone, Copy)]
pub enum Value<'a> {
    /// The bytes of a file name, or of the name of an address or a segment.
    Name(&'a [u8]),
    /// The bytes of a comment, which may be none.
    Comment(&'a [u8]),
    /// A number in the limits of its attribute.
    Number(u32),
    /// An address.
    Address(u16),
    /// A CPU, by its text.
    Cpu(Cpu),
    /// On or off.
    Boolean(bool),
    /// A type, by its word.
    Role(RangeType),
    /// The byte of a character constant.
    Character(u8),
}

/// An attribute and its value.
#[derive(Clone, Copy)]
pub struct Assignment<'a> {
    pub attribute: Attribute,
    pub value: Value<'a>,
}

/// A group, and what is given in it, in its order.
#[derive(Drop)]
pub struct Group<'a, A: Allocator> {
    pub kind: GroupKind,
    pub given: Vec<Assignment<'a>, A>,
}

pub fn as_name<'a>(value: Option<Value<'a>>) -> Option<&'a [u8]>
    ensures { option_copied result ≡ as_name (option_map value_seen value.entry) }
{
    match value {
        Some(Value::Name(name)) => Some(name),
        _ => None,
    }
}

pub fn as_comment<'a>(value: Option<Value<'a>>) -> Option<&'a [u8]>
    ensures { option_copied result ≡ as_comment (option_map value_seen value.entry) }
{
    match value {
        Some(Value::Comment(text)) => Some(text),
        _ => None,
    }
}

pub fn as_number(value: Option<Value>) -> Option<u32>
    ensures { result ≡ as_number (option_map value_seen value.entry) }
{
    match value {
        Some(Value::Number(number)) => Some(number),
        _ => None,
    }
}

pub fn as_address(value: Option<Value>) -> Option<u16>
    ensures { result ≡ as_address (option_map value_seen value.entry) }
{
    match value {
        Some(Value::Address(address)) => Some(address),
        _ => None,
    }
}

pub fn as_cpu(value: Option<Value>) -> Option<Cpu>
    ensures { result ≡ as_cpu (option_map value_seen value.entry) }
{
    match value {
        Some(Value::Cpu(cpu)) => Some(cpu),
        _ => None,
    }
}

pub fn as_boolean(value: Option<Value>) -> Option<bool>
    ensures { result ≡ as_boolean (option_map value_seen value.entry) }
{
    match value {
        Some(Value::Boolean(on)) => Some(on),
        _ => None,
    }
}

pub fn as_type(value: Option<Value>) -> Option<RangeType>
    ensures { result ≡ as_type (option_map value_seen value.entry) }
{
    match value {
        Some(Value::Role(role)) => Some(role),
        _ => None,
    }
}

pub fn as_character(value: Option<Value>) -> Option<u8>
    ensures { result ≡ as_character (option_map value_seen value.entry) }
{
    match value {
        Some(Value::Character(byte)) => Some(byte),
        _ => None,
    }
}
