//! A name that an information file gives to addresses.

/// A given name, lent by an `Info`.
#[derive(Clone, Copy, Debug)]
pub struct Given<'a> {
    /// The address of the name's own.
    pub address: u16,
    /// How many addresses the name is for, 1 to 65,536, from its own on.
    pub size: u32,
    /// The name: 1 to 80 bytes, a letter or `_` and then letters, digits and `_`.
    pub text: &'a [u8],
    /// The comment of the name, without what begins a comment.
    pub comment: Option<&'a [u8]>,
}
