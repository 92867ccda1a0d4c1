//! What a line holds besides its statement.

use crate::printing::columns::Level;

/// What a line holds besides its statement.
#[derive(Clone, Copy, Debug, PartialEq, Eq)]
pub struct Remarks<'a> {
    /// What stands after a statement that has bytes: from level 2 on `; ` and its address at the comment
    /// column, from level 3 on its bytes in hex digits too, and at level 4 its bytes as characters at the
    /// text column.
    pub level: Level,
    /// Whether offsets are written in hex digits.
    pub hexoffs: bool,
    /// The address of the statement, remarked from level 2 on.
    pub address: u16,
    /// The statement's bytes, at most 16, remarked from level 3 on.
    pub bytes: &'a [u8],
    /// The label that stands before the statement, without its colon.
    pub label: Option<&'a [u8]>,
}
