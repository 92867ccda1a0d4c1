//! From a statement to the line that says it.

pub(crate) mod columns;
mod definitions;
mod digits;
mod fields;
mod levels;
pub(crate) mod line;
mod operand;
pub(crate) mod remarks;
mod tables;
