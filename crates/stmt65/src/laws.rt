//! The laws of reading and of assembling.

pub(crate) mod meaning_laws;
pub(crate) mod reading_laws;
