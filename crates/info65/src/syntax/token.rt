//! The tokens of an information file.

/// What a token is, with its value.
#[derive(Clone, Copy, Debug, PartialEq, Eq)]
pub enum TokenKind<'a> {
    /// A letter or `_`, then letters, digits and `_`.
    Word,
    /// Decimal digits, or `$` and hexadecimal digits, by their value.
    Number(u32),
    /// A string, by the bytes between its quotes.
    Text(&'a [u8]),
    /// A character constant, by the byte between its apostrophes.
    Character(u8),
    /// `{`
    OpenBrace,
    /// `}`
    CloseBrace,
    /// `;`
    Semicolon,
}

/// A token of a file: the slice of the file that it takes, quotes and apostrophes among it, and the line
/// where it begins, counted from 1 by line feeds.
#[derive(Clone, Copy, Debug)]
pub struct Token<'a> {
    pub kind: TokenKind<'a>,
    pub text: &'a [u8],
    pub line: u32,
}
