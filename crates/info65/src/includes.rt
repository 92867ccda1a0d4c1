//! The names of include files.

pub(crate) mod include;
mod include_lines;
pub(crate) mod included;
