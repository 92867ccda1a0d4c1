//! Where ranges and segments are found by address, and names by address and by text.

pub(crate) mod index;
pub(crate) mod marks;
pub(crate) mod numbers;
pub(crate) mod pages;
pub mod texts;
