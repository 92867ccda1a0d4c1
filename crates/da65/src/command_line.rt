//! The table of the options, and from the words of a command line to their values.

pub(crate) mod command;
pub(crate) mod usage;
