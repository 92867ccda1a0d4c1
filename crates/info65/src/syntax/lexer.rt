//! The tokens of an information file, one by one.

ghost use Rattle.std.specs.Prelude.{◌≡◌, ◌+◌, ◌≤◌, ◌<◌, ◌^◌, ℕ, length, true};
ghost use Rattle.info65.specs.Words.{opens_comment, stops, tokens_after, tokens_of};

use crate::fault::InfoFault;
use crate::syntax::lexeme::{begins_gap, is_blank, lexeme_at};
use crate::syntax::token::Token;
use memchr::memchr;
use std::marker::Model;

/// The most bytes that an information file or an include file may have: 1 MiB.
pub const MOST_BYTES: usize = 1_048_576;

/// What comes next: a token, or the end, on this line.
#[derive(Clone, Copy)]
pub(crate) enum Next<'a> {
    Token(Token<'a>),
    End(u32),
}

/// The tokens of an information file that are left, and how they end: on a line, or with the first fault
/// of a token. Tokens, comments and their faults are those of the da65 Users Guide, with the limits that
/// `TokenKind` names. It allocates nothing.
#[derive(Drop)]
pub struct Lexer<'a> {
    bytes: &'a [u8],
    line: u32,
}

impl<'a> Model for Lexer<'a> {
    ghost use Rattle.std.specs.Prelude.{◌+◌, ◌<◌, ◌^◌, length};
    ghost use Rattle.info65.specs.Tokens.{Stream, tokens_of};

    ghost Value = { Stream };

    ghost view = { λ a. tokens_of a.line a.bytes.now };

    ghost invariant = { λ a. a.line + length a.bytes.now < 2 ^ 32 };
}

impl<'a> Lexer<'a> {
    ghost use Rattle.info65.specs.Code.Steps.{Hands, Steps, Takes};
    ghost use Rattle.info65.specs.Lexemes.{semicolon};

    /// The tokens of these bytes, of which there are at most 1,048,576.
    pub fn new(bytes: &'a [u8]) -> Self
        requires { length bytes.now ≤ 1_048_576 }
        /// A lexer returns the tokens of the given text, whose first line is line 1.
        ensures { result ≡ tokens_of 1 bytes.entry.now }
    {
        Lexer { bytes, line: 1 }
    }

    /// The next token, or the end and its line: the end of a file has the line that follows its last line
    /// feed. A fault stays.
    // A caller that wants one kind of token makes no other, since this is inlined.
    #[inline(always)]
    pub(crate) fn next(&mut self) -> Result<Next<'a>, InfoFault>
        ensures { Steps self.old result self.new }
    {
        let (rest, line) = after_blanks(self.bytes, self.line);
        if rest.is_empty() {
            return Ok(Next::End(line));
        }
        let lexeme = lexeme_at(line, rest)?;
        let (text, after) = rest.split_at(lexeme.more + 1);
        self.bytes = after;
        self.line = line;
        Ok(Next::Token(Token {
            kind: lexeme.kind,
            text,
            line,
        }))
    }

    /// Takes a `;` that comes next, unless a blank or a comment stands before it, and returns whether it did. Most
    /// values have a `;` right behind them, for which nothing else is tried then.
    #[inline(always)]
    #[tactic(auto, using(crate::proofs::TokenLemmas::at_semicolon))]
    pub(crate) fn takes_semicolon(&mut self) -> bool
        ensures { Takes semicolon self.old result self.new }
    {
        match self.bytes.split_first() {
            Some((b';', after)) => {
                self.bytes = after;
                true
            }
            _ => false,
        }
    }

    /// The next token, and None at the end.
    ///
    /// Refuses BadByte, OpenString and BadNumber at the line of the first token that has such a fault; that
    /// fault is answered again at every later call.
    pub fn next_token(&mut self) -> Result<Option<Token<'a>>, InfoFault>
        /// Returns the tokens of the text one by one, then None. At the first fault it returns that fault, and at
        /// every later call too. The call is given no allocator.
        ensures { Hands self.old result self.new }
    {
        match self.next()? {
            Next::Token(token) => Ok(Some(token)),
            Next::End(_) => Ok(None),
        }
    }
}

#[inline(always)]
fn opens_comment(bytes: &[u8]) -> bool
    requires { 0 < length bytes.now }
    ensures { result ≡ opens_comment bytes.now }
{
    bytes[0] == b'#' || bytes[0] == b'/' && bytes.len() > 1 && bytes[1] == b'/'
}

// What is left of a text that begins in a comment: from the line feed on that ends it.
fn after_comment(bytes: &[u8]) -> &[u8]
    ensures tokens { (line : ℕ) → tokens_after 0 true line bytes.now ≡ tokens_of line result.now }
    ensures len { length result.now ≤ length bytes.now }
{
    match memchr(b'\n', bytes) {
        Some(len) => {
            let (_, rest) = bytes.split_at(len);
            rest
        }
        None => &[],
    }
}

// What is left after blanks and comments, and its line.
#[tactic(auto, using(crate::proofs::TokenLemmas::passed_over))]
#[inline(always)]
fn after_blanks(bytes: &[u8], first_line: u32) -> (&[u8], u32)
    requires { first_line + length bytes.now < 2 ^ 32 }
    ensures tokens { tokens_of result.1 result.0.now ≡ tokens_of first_line bytes.now }
    ensures stops { stops result.0.now }
    ensures room { result.1 + length result.0.now ≤ first_line + length bytes.now }
{
    let mut rest = bytes;
    let mut line = first_line;
    'bytes: while let Some((byte, after)) = rest.split_first() {
        if is_blank(*byte) {
            rest = after;
        } else if !begins_gap(*byte) {
            return (rest, line);
        } else if *byte == b'\n' {
            line += 1;
            rest = after;
        } else if opens_comment(rest) {
            rest = after_comment(after);
        } else {
            return (rest, line);
        }
    }
    (rest, line)
}
