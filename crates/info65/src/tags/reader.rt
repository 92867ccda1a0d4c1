//! Reads the groups of the lines `#: ..`, in the grammar of the file itself.

use crate::fault::{InfoFault, InfoFaultKind};
use crate::syntax::lexer::{Lexer, MOST_BYTES, Next};
use crate::syntax::parser::{due, is_semicolon};
use crate::syntax::token::{Token, TokenKind};
use crate::tags::tag::{Tag, TagAttribute, TagKind, is_value, tag_attribute, tag_named};
use crate::tags::tagged_text::tagged_text;
use std::alloc::Allocator;

/// The most that can be given in a group.
const ATTRIBUTES: usize = 6;

/// This fault of a token.
fn fault<T>(token: Token<'_>, kind: InfoFaultKind) -> Result<T, InfoFault> {
    Err(InfoFault::new(token.line, kind))
}

/// Reads a `{`, and returns its line.
#[inline(always)]
fn open_brace(lexer: &mut Lexer<'_>) -> Result<u32, InfoFault> {
    let token = due(lexer)?;
    match token.kind {
        TokenKind::OpenBrace => Ok(token.line),
        _ => fault(token, InfoFaultKind::Expected),
    }
}

/// Reads the `;` behind a value.
#[inline(always)]
fn semicolon(lexer: &mut Lexer<'_>) -> Result<(), InfoFault> {
    if lexer.takes_semicolon() {
        return Ok(());
    }
    let token = due(lexer)?;
    match token.kind {
        TokenKind::Semicolon => Ok(()),
        _ => fault(token, InfoFaultKind::Expected),
    }
}

/// The kind of the group that a token names.
fn kind_of(name: Token<'_>) -> Result<TagKind, InfoFault> {
    match (name.kind, tag_named(name.text)) {
        (TokenKind::Word, Some(kind)) => Ok(kind),
        (TokenKind::Word, None) => fault(name, InfoFaultKind::UnknownGroup),
        _ => fault(name, InfoFaultKind::Expected),
    }
}

/// Reads the value of an attribute.
fn value(lexer: &mut Lexer<'_>, attribute: TagAttribute) -> Result<u16, InfoFault> {
    let token = due(lexer)?;
    match token.kind {
        TokenKind::Number(number) if is_value(attribute, number) => Ok((number % 0x1_0000) as u16),
        TokenKind::Number(_) => fault(token, InfoFaultKind::OutOfRange),
        _ => fault(token, InfoFaultKind::Expected),
    }
}

/// Reads what is given in a group, of which this token is the name.
#[inline(always)]
fn assignment(lexer: &mut Lexer<'_>, tag: &mut Tag, name: Token<'_>) -> Result<(), InfoFault> {
    let Some(attribute) = tag_attribute(tag.kind, name.text) else {
        return fault(name, InfoFaultKind::UnknownAttribute);
    };
    let given = tag.given(attribute);
    if given.is_some() {
        return fault(name, InfoFaultKind::GivenTwice);
    }
    *given = Some(value(lexer, attribute)?);
    semicolon(lexer)
}

/// Reads the group of this name.
fn group(lexer: &mut Lexer<'_>, name: Token<'_>) -> Result<Tag, InfoFault> {
    let kind = kind_of(name)?;
    let mut tag = Tag::new(kind, open_brace(lexer)?);
    for _ in 0..=ATTRIBUTES {
        let token = due(lexer)?;
        match token.kind {
            TokenKind::CloseBrace if tag.lacks() => return fault(token, InfoFaultKind::Missing),
            TokenKind::CloseBrace if tag.is_backward() => {
                return fault(token, InfoFaultKind::OutOfRange);
            }
            TokenKind::CloseBrace => return Ok(tag),
            TokenKind::Word => assignment(lexer, &mut tag, token)?,
            _ => return fault(token, InfoFaultKind::Expected),
        }
    }
    fault(name, InfoFaultKind::Expected)
}

/// Returns the groups of the lines of an information file that begin with `#:`, in order: ENTRY, INLINE, HALVES, AFTER,
/// DIFFERENCE, BASE and NUMBER. Such a line may hold part of a group. Refuses the first fault, at its line of the file;
/// `Memory` is returned only if memory ran out.
pub fn read_tags<A: Allocator + Copy>(alloc: A, bytes: &[u8]) -> Result<Vec<Tag, A>, InfoFault> {
    let text = tagged_text(alloc, bytes)?;
    if MOST_BYTES < bytes.len().max(text.len()) {
        return Err(InfoFault::new(1, InfoFaultKind::TooLarge));
    }
    let mut lexer = Lexer::new(&text);
    let mut found = Vec::new(alloc);
    let mut after_group = false;
    for _ in 0..=text.len() {
        match lexer.next()? {
            Next::End(_) => break,
            Next::Token(token) if after_group && is_semicolon(token.kind) => after_group = false,
            Next::Token(token) => {
                found.push(group(&mut lexer, token)?)?;
                after_group = true;
            }
        }
    }
    Ok(found)
}
