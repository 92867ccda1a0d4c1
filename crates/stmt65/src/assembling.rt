//! From a text to its bytes, or to its first fault.

pub(crate) mod about;
pub(crate) mod addresses;
pub(crate) mod assembler;
mod coding;
mod emit;
mod entries;
pub(crate) mod fault;
mod fragment_bytes;
pub(crate) mod known;
pub(crate) mod late;
pub(crate) mod layout;
pub(crate) mod line_ends;
mod line_faults;
mod placed;
mod state;
pub(crate) mod symbols;
mod values;
