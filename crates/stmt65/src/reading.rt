//! From a line to what it says.

mod expressions;
pub(crate) mod lexer;
pub(crate) mod names;
pub(crate) mod numeral;
mod operands;
mod operations;
mod parts;
pub(crate) mod places;
pub(crate) mod whole_line;
