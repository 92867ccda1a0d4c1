//! The groups of an information file, token by token.

ghost use Rattle.std.specs.Prelude.{◌≡◌, ◌≤◌, ◌∷◌, ◌++◌, IfErr, IfOk, List, [], length};
ghost use Rattle.info65.specs.Words.{Advances, AssignmentView, Attribute, Expected, Gives, GroupKind, GroupView, Grows, Moves, ReadsGroup, Sees, TakesToken, Word, assigned, assigned_seen, attribute_at, fault, groups_of, inside, is_semicolon, kind_seen, one, opening, outside, read, read_token, seen, value_seen, valued, wanted, with_token};
ghost use Rattle.info65.specs.Reader.{value_at};

use crate::fault::{InfoFault, InfoFaultKind};
use crate::groups::closed::Closed;
use crate::groups::group_values::is_given;
use crate::groups::include_groups::has_room;
use crate::information::options::Options;
use crate::syntax::assignment::{Assignment, Value};
use crate::syntax::attribute::{Attribute, GroupKind, attribute_named, group_named};
use crate::syntax::lexer::{Lexer, Next};
use crate::syntax::token::{Token, TokenKind};
use crate::syntax::values::value_of;
use std::alloc::Allocator;

/// The groups of an information file, or its first fault.
pub fn read_groups<'a, A: Allocator + Copy, B: Allocator>(
    alloc: A,
    options: &Options<B>,
    bytes: &'a [u8],
) -> Result<Closed<'a, A>, InfoFault>
    requires { length bytes.now ≤ 1_048_576 }
    ensures { Gives (λ groups. groups) result (groups_of options.now bytes.entry.now) }
{
    let mut lexer = Lexer::new(bytes);
    let mut groups = Closed::new(alloc, bytes.len())?;
    // One list for what is given in each group: that of most groups is not read again.
    let mut spare = Vec::new(alloc);
    let mut after_group = false;
    'groups: loop {
        match lexer.next()? {
            Next::End(_) => return Ok(groups),
            Next::Token(token) => {
                if after_group && is_semicolon(token.kind) {
                    after_group = false;
                } else {
                    spare = group(alloc, options, &mut lexer, &mut groups, token, spare)?;
                    after_group = !lexer.takes_semicolon();
                }
            }
        }
    }
}

pub(crate) fn is_semicolon(kind: TokenKind) -> bool
    ensures { result ≡ is_semicolon (kind_seen kind.entry) }
{
    matches!(kind, TokenKind::Semicolon)
}

fn expected(line: u32) -> InfoFault
    ensures { result ≡ fault line Expected }
{
    InfoFault::new(line, InfoFaultKind::Expected)
}

// The token that is due.
#[inline(always)]
pub(crate) fn due<'a>(lexer: &mut Lexer<'a>) -> Result<Token<'a>, InfoFault>
    ensures shorter { length lexer.new.tokens ≤ length lexer.old.tokens }
    ensures ok { IfOk result (λ t. lexer.old ≡ with_token (seen t) lexer.new) }
    ensures err { IfErr result (λ e. (lexer.old.tokens ≡ []) × (wanted lexer.old.ending ≡ e)) }
{
    match lexer.next()? {
        Next::Token(token) => Ok(token),
        Next::End(line) => Err(expected(line)),
    }
}

// Adds a group, of which this token is the name. What is given in it replaces what the list has, and the result is a
// list for what is given in the next group.
fn group<'a, A: Allocator + Copy, B: Allocator>(
    alloc: A,
    options: &Options<B>,
    lexer: &mut Lexer<'a>,
    groups: &mut Closed<'a, A>,
    name: Token<'a>,
    list: Vec<Assignment<'a>, A>,
) -> Result<Vec<Assignment<'a>, A>, InfoFault>
    ensures read { ReadsGroup options.now
        (read_token options.now outside groups.old (seen name.entry) lexer.old) result groups.new lexer.new }
    ensures shorter { length lexer.new.tokens ≤ length lexer.old.tokens }
{
    let kind = group_kind(name)?;
    brace(lexer)?;
    attributes(alloc, options, lexer, groups, kind, list)
}

#[tactic(auto, using(crate::proofs::ReaderLemmas::group_taken, crate::proofs::ReaderLemmas::group_unknown))]
fn group_kind(name: Token) -> Result<GroupKind, InfoFault>
    ensures { (b : List GroupView) → TakesToken b outside (seen name.entry) result opening }
{
    match name.kind {
        TokenKind::Word => match group_named(name.text) {
            Some(kind) => Ok(kind),
            None => Err(InfoFault::new(name.line, InfoFaultKind::UnknownGroup)),
        },
        _ => Err(expected(name.line)),
    }
}

fn brace(lexer: &mut Lexer) -> Result<(), InfoFault>
    ensures read { (k : GroupKind) → Advances (opening k) lexer.old result (inside k []) lexer.new }
    ensures shorter { length lexer.new.tokens ≤ length lexer.old.tokens }
{
    let token = due(lexer)?;
    match token.kind {
        TokenKind::OpenBrace => Ok(()),
        _ => Err(expected(token.line)),
    }
}

// The `;` after a value.
fn separator(lexer: &mut Lexer) -> Result<(), InfoFault>
    ensures read { (k : GroupKind) (given : List AssignmentView) →
        Advances (assigned k given) lexer.old result (inside k given) lexer.new }
    ensures shorter { length lexer.new.tokens ≤ length lexer.old.tokens }
{
    if lexer.takes_semicolon() {
        return Ok(());
    }
    due_separator(lexer)
}

fn due_separator(lexer: &mut Lexer) -> Result<(), InfoFault>
    ensures read { (k : GroupKind) (given : List AssignmentView) → Advances (assigned k given) lexer.old result (inside k given) lexer.new }
    ensures shorter { length lexer.new.tokens ≤ length lexer.old.tokens }
{
    let token = due(lexer)?;
    match token.kind {
        TokenKind::Semicolon => Ok(()),
        _ => Err(expected(token.line)),
    }
}

fn value<'a, A: Allocator + Copy, B: Allocator>(
    options: &Options<B>,
    lexer: &mut Lexer<'a>,
    before: &Closed<'a, A>,
    attribute: Attribute,
) -> Result<Value<'a>, InfoFault>
    ensures read { (k : GroupKind) (given : List AssignmentView) → Moves options.now before.now (valued k given attribute) lexer.old result
        (λ v. assigned k (given ++ one attribute (value_seen v) ∷ [])) lexer.new }
    ensures shorter { length lexer.new.tokens ≤ length lexer.old.tokens }
{
    let token = due(lexer)?;
    value_at(options, before, attribute, token)
}

// The value of an attribute, if there is room for one more.
#[tactic(auto, using(crate::proofs::KeptLemmas::room_kept), unfolding(crate::specs::Reader::value_at))]
fn value_at<'a, A: Allocator + Copy, B: Allocator>(
    options: &Options<B>,
    before: &Closed<'a, A>,
    attribute: Attribute,
    token: Token<'a>,
) -> Result<Value<'a>, InfoFault>
    ensures { Sees value_seen result (value_at options.now before.now attribute (seen token.entry)) }
{
    let value = value_of(options, attribute, token)?;
    if has_room(before.kept(), attribute) {
        Ok(value)
    } else {
        Err(InfoFault::new(token.line, InfoFaultKind::TooLarge))
    }
}

// Adds a group of this kind, of which the opening brace is taken. What is given in it replaces what the list has, and
// the result is a list for what is given in the next group.
fn attributes<'a, A: Allocator + Copy, B: Allocator>(
    alloc: A,
    options: &Options<B>,
    lexer: &mut Lexer<'a>,
    groups: &mut Closed<'a, A>,
    kind: GroupKind,
    list: Vec<Assignment<'a>, A>,
) -> Result<Vec<Assignment<'a>, A>, InfoFault>
    ensures read { ReadsGroup options.now
        (read options.now (inside kind []) groups.old lexer.old) result groups.new lexer.new }
    ensures shorter { length lexer.new.tokens ≤ length lexer.old.tokens }
{
    let mut given = list;
    given.clear();
    'attributes: loop {
        let name = due(lexer)?;
        match name.kind {
            TokenKind::CloseBrace => return groups.close(alloc, kind, given, name.line),
            TokenKind::Word => {
                attribute(options, lexer, groups, kind, &mut given, name)?;
            }
            _ => return Err(expected(name.line)),
        }
    }
}

// Adds an attribute to what is given, of which this word is the name, with its value and the `;` after it.
#[tactic(auto, using(crate::proofs::GroupLemmas::assigned_push))]
fn attribute<'a, A: Allocator + Copy, B: Allocator>(
    options: &Options<B>,
    lexer: &mut Lexer<'a>,
    before: &Closed<'a, A>,
    kind: GroupKind,
    given: &mut Vec<Assignment<'a>, A>,
    name: Token<'a>,
) -> Result<(), InfoFault>
    requires { name.kind ≡ Word }
    ensures read { Grows (read_token options.now (inside kind (assigned_seen given.old.items)) before.now (seen name.entry) lexer.old) result
        (λ _. read options.now (inside kind (assigned_seen given.new.items)) before.now lexer.new) }
    ensures shorter { length lexer.new.tokens ≤ length lexer.old.tokens }
{
    let attribute = attribute_name(before, kind, given.as_slice(), name)?;
    let value = value(options, lexer, before, attribute)?;
    separator(lexer)?;
    given.push(Assignment { attribute, value })?;
    Ok(())
}

#[tactic(auto, using(crate::proofs::ReaderLemmas::attribute_read))]
fn attribute_name<'a, A: Allocator + Copy>(
    before: &Closed<'a, A>,
    kind: GroupKind,
    given: &[Assignment],
    name: Token,
) -> Result<Attribute, InfoFault>
    requires { name.kind ≡ Word }
    ensures { TakesToken before.now (inside kind (assigned_seen given.now)) (seen name.entry) result (valued kind (assigned_seen given.now)) }
{
    attribute_at(before, kind, given, name)
}

#[tactic(auto, using(crate::proofs::KeptLemmas::given_kept), unfolding(crate::specs::Reader::attribute_at))]
fn attribute_at<'a, A: Allocator + Copy>(
    before: &Closed<'a, A>,
    kind: GroupKind,
    given: &[Assignment],
    name: Token,
) -> Result<Attribute, InfoFault>
    ensures { result ≡ attribute_at before.now kind (assigned_seen given.now) (seen name.entry) }
{
    match attribute_named(kind, name.text) {
        Some(attribute) => {
            if is_given(before.kept(), kind, given, attribute) {
                Err(InfoFault::new(name.line, InfoFaultKind::GivenTwice))
            } else {
                Ok(attribute)
            }
        }
        None => Err(InfoFault::new(name.line, InfoFaultKind::UnknownAttribute)),
    }
}
