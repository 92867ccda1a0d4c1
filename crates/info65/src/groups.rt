//! What closed groups say.

pub(crate) mod closed;
mod comments;
pub(crate) mod contents;
mod group_list;
pub(crate) mod group_values;
pub(crate) mod include_groups;
pub(crate) mod label_groups;
pub(crate) mod range_groups;
pub(crate) mod segment_groups;
