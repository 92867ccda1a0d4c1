//! What a line of assembler source says.

use crate::directive::Directive;
use crate::reading::numeral::Numeral;
use isa65::{Mnemonic, Pattern};
use std::alloc::{Allocator, Global};

/// What is subtracted at the end of an expression.
#[derive(Clone, Copy, Debug, PartialEq, Eq)]
pub enum Minus {
    /// Nothing.
    Zero,
    /// `-1`.
    One,
}

/// An expression.
#[derive(Clone, Copy, Debug)]
pub enum Value<'a> {
    /// A number.
    Number(Numeral<'a>),
    /// A number, and the number that is added to it. Only a repair has it.
    Sum(Numeral<'a>, Numeral<'a>),
    /// A name, the number that is added to its value, and what is subtracted. In a repair `*` is a name too.
    Name(&'a [u8], Numeral<'a>, Minus),
    /// A name, and the number that is subtracted from its value. Only a repair has it.
    Less(&'a [u8], Numeral<'a>),
    /// The difference of two names. Only a repair has it.
    Difference(&'a [u8], &'a [u8]),
}

/// Which byte of a word is meant.
#[derive(Clone, Copy, Debug, PartialEq, Eq)]
pub enum Half {
    /// `<`: the low byte.
    Low,
    /// `>`: the high byte.
    High,
}

/// Which size an operand's address has.
#[derive(Clone, Copy, Debug, PartialEq, Eq)]
pub enum AddressSize {
    /// That of the expression: zero page if the expression has that size.
    Automatic,
    /// 16 bits: `a:` stands before the expression.
    Absolute,
}

/// How one expression is written as an operand, with E for it.
#[derive(Clone, Copy, Debug, PartialEq, Eq)]
pub enum Notation {
    /// In a pattern and no more.
    Plain(Pattern),
    /// `#<E` or `#>E`. Only a repair has it.
    Half(Half),
    /// `a:E`.
    Absolute,
    /// `a:E,x`.
    AbsoluteX,
    /// `a:E,y`.
    AbsoluteY,
}

/// The written forms of an operand, with E for an expression.
#[derive(Clone, Copy, Debug)]
pub enum Form<'a> {
    /// No operand.
    Empty,
    /// `a`.
    Accumulator,
    /// One expression.
    One(Notation, Value<'a>),
    /// `E,E`.
    Two(Value<'a>, Value<'a>),
}

/// An operand of `.byte`.
#[derive(Clone, Copy, Debug)]
pub enum Datum<'a> {
    /// A number.
    Number(Numeral<'a>),
    /// The bytes between the quotes of a string.
    String(&'a [u8]),
    /// An expression that is no number. Only a repair has it.
    Value(Value<'a>),
    /// `<E`, `>E`, or an expression of `.lobytes` or `.hibytes`. Only a repair has it.
    Half(Half, Value<'a>),
}

/// An operation with its operands.
#[derive(Drop)]
pub enum Operation<'a, A: Allocator = Global> {
    /// No operation.
    Nothing,
    /// An instruction.
    Instr(Mnemonic, Form<'a>),
    /// `.byte`, `.lobytes` or `.hibytes` and its operands.
    Data(Vec<Datum<'a>, A>),
    /// A directive that gives numbers, and its operands.
    Values(Directive, Vec<Value<'a>, A>),
    /// `.res`, the number of bytes, and the value of each. Only a repair has it.
    Reserve(Numeral<'a>, Numeral<'a>),
    /// `.segment` and the segment's name.
    Segment(&'a [u8]),
    /// `.code`.
    Code,
    /// `.setcpu` and the name that it gives.
    SetCpu(&'a [u8]),
}

/// What a line of source says.
#[derive(Drop)]
pub enum SourceLine<'a, A: Allocator = Global> {
    /// `name := number`, or `name = number` in a repair.
    Assignment(&'a [u8], Numeral<'a>),
    /// `name := * + number`.
    PlaceAssignment(&'a [u8], Numeral<'a>),
    /// An optional label, `name:`, and an operation after it.
    Statement {
        label: Option<&'a [u8]>,
        operation: Operation<'a, A>,
    },
}
