//! From an information file, include files and an input to a listing and messages.

pub(crate) mod files;
mod messages;
pub(crate) mod needs;
pub(crate) mod outcome;
mod preparing;
pub(crate) mod running;
mod segment_reentry;
