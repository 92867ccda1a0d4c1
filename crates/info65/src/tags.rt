//! The lines `#: ..` of an information file: groups for programs beside da65, which takes them as comments.

mod numbers;
mod reader;
mod tag;
mod tagged_text;

pub use numbers::without_numbers;
pub use reader::read_tags;
pub use tag::{Tag, TagKind};
