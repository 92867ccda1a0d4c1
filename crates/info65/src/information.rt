//! What an information file says under the options, merged and kept.

pub(crate) mod info;
pub(crate) mod merge;
pub(crate) mod name;
pub(crate) mod options;
pub(crate) mod pool;
pub(crate) mod range;
pub(crate) mod segment;
mod segment_table;
pub(crate) mod settings;
