//! From the bytes of an information file to tokens, and from tokens to groups.

pub(crate) mod assignment;
pub(crate) mod attribute;
pub(crate) mod digits;
pub(crate) mod lexeme;
pub(crate) mod lexer;
pub(crate) mod names;
pub(crate) mod parser;
pub(crate) mod token;
mod values;
pub(crate) mod words;
