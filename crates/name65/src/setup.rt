//! What a listing is named under.

use crate::request::Naming;
use info65::{Info, Tag};

/// What the text by names is made under: the command line, and the information file with its groups in lines `#: ..`.
#[derive(Clone, Copy)]
pub struct Setup<'a> {
    pub naming: &'a Naming,
    pub info: &'a Info,
    pub tags: &'a [Tag],
}
