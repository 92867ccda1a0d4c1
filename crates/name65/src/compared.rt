//! Whether a line differs from what it was only where groups name its bytes.

ghost use Rattle.std.specs.Prelude.{◌≡◌, ◌++◌, ◌∷◌, [], IfOk, IfSome, IsTrue, MatchOption, drop};
ghost use Rattle.std.specs.Bool.{OnTrue};
ghost use Rattle.stmt65.specs.Words.{begins_with, is_mark, part_of, parts, parts_left};
ghost use Rattle.name65.specs.Compared.{IsHead, after_part, become_halves, cursor_of, is_of_operand, may_change, width_of, word_of};
ghost use Rattle.name65.specs.Written.{IsPiece, IsRenamed, LeadsTo, scope_seen};

use crate::complaint::{Refusal, after, need};
use crate::plan::{PlacedLine, Plan};
use crate::rewriting::{are_blank, blank_len, cut_at};
use stmt65::{Language, Part, PlacedPart, Places};

/// How far a line was read: how many parts have to stay yet, how many bytes an operand has, and from which address to
/// before which the operand gives bytes that was come to.
#[derive(Clone, Copy)]
pub struct Cursor {
    pub stay: u64,
    pub width: u64,
    pub from: u64,
    pub to: u64,
}

/// Two lines from a place on, as they were and as they are.
#[derive(Clone, Copy)]
pub struct Compared<'l> {
    pub cursor: Cursor,
    pub old: &'l [u8],
    pub new: &'l [u8],
}

/// The next part of a line: the blanks before it, its text, and what stands after it.
#[derive(Clone, Copy)]
pub struct Piece<'l> {
    pub part: Part<'l>,
    pub blanks: &'l [u8],
    pub text: &'l [u8],
    pub rest: &'l [u8],
}

/// The next part of a line.
#[inline(always)]
fn next_piece(language: Language, line: &[u8]) -> Result<Option<Piece<'_>>, Refusal>
    ensures { IfOk result (λ found. MatchOption found (parts language line.now ≡ [])
        (IsPiece language line.now)) }
{
    let Some(PlacedPart { part, span }) = Places::new(language, line).next() else {
        return Ok(None);
    };
    let found = cut_at(line, span.from, span.to)?;
    need(are_blank(found.before))?;
    Ok(Some(Piece {
        part,
        blanks: found.before,
        text: found.within,
        rest: found.after,
    }))
}

/// The next part that was not passed over, if there is one.
#[inline(always)]
fn take_part<'l>(places: &mut Places<'l>) -> Result<Part<'l>, Refusal>
    ensures { IfOk result
        (λ p. parts_left places.old ≡ part_of p ∷ parts_left places.new) }
{
    match places.next() {
        Some(PlacedPart { part, .. }) => Ok(part),
        None => Err(Refusal::Changed),
    }
}

/// Whether the next part that was not passed over is a `:`. It is passed over.
#[inline(always)]
fn take_colon(places: &mut Places<'_>) -> bool
    ensures is { result ≡ is_mark 58 (parts_left places.old) }
    ensures left { OnTrue result (parts_left places.new ≡ drop 1 (parts_left places.old)) }
{
    matches!(
        places.next(),
        Some(PlacedPart {
            part: Part::Mark(b':'),
            ..
        },)
    )
}

/// The word that a part is.
fn word_of(part: Part<'_>) -> &[u8]
    ensures { result.now ≡ word_of (part_of part.entry) }
{
    match part {
        Part::Word(word) => word,
        _ => b"",
    }
}

/// How many parts of a line stand before its operands, and the word of its operation.
fn head_of(language: Language, line: &[u8]) -> Result<(u64, &[u8]), Refusal>
    ensures { IfOk result (λ head. IsHead (parts language line.now) head.0 head.1.now) }
{
    let mut places = Places::new(language, line);
    let first = take_part(&mut places)?;
    if take_colon(&mut places) {
        return Ok((3, word_of(take_part(&mut places)?)));
    }
    Ok((1, word_of(first)))
}

/// How many bytes an operand of a list has.
fn width_of(operation: &[u8]) -> u64
    ensures { result ≡ width_of operation.now }
{
    if operation.eq_ignore_ascii_case(b".byte") {
        1
    } else if operation.eq_ignore_ascii_case(b".word") {
        2
    } else {
        0
    }
}

/// Whether a word is a directive.
fn is_directive(word: &[u8]) -> bool
    ensures { result ≡ begins_with 46 word.now }
{
    matches!(word, [b'.', ..])
}

/// Where the operands of a line are that gives the bytes from `at` to before `end`.
pub fn cursor_of(placed: &PlacedLine<'_, '_>) -> Result<Cursor, Refusal>
    ensures { IfOk result (λ c. c ≡ cursor_of
        (parts placed.now.plan.now.language placed.now.line.now) placed.now.at placed.now.end) }
{
    let PlacedLine {
        plan,
        line,
        at,
        end,
    } = *placed;
    let (stay, operation) = head_of(plan.language, line)?;
    let width = width_of(operation);
    let to = if is_directive(operation) {
        after(at, width)?
    } else {
        end
    };
    Ok(Cursor {
        stay,
        width,
        from: at,
        to,
    })
}

/// The cursor after a part that stays.
#[inline(always)]
fn after_part(part: Part<'_>, cursor: Cursor) -> Result<Cursor, Refusal>
    ensures { IfOk result (λ c. c ≡ after_part (part_of part.entry) cursor) }
{
    let cursor = Cursor {
        stay: cursor.stay.saturating_sub(1),
        ..cursor
    };
    Ok(match part {
        Part::Mark(b',') => Cursor {
            from: cursor.to,
            to: after(cursor.to, cursor.width)?,
            ..cursor
        },
        Part::Text(text) => Cursor {
            to: after(cursor.from, text.len() as u64)?,
            ..cursor
        },
        _ => cursor,
    })
}

/// Whether a part may be one of an operand: a word, a number, an operator, or one of `<>()*`.
fn is_of_operand(part: Part<'_>) -> bool
    ensures { result ≡ is_of_operand (part_of part.entry) }
{
    match part {
        Part::Word(_) | Part::Number(_) | Part::Define => true,
        Part::Text(_) => false,
        Part::Mark(mark) => matches!(mark, b'(' | b')' | b'*' | b'+' | b'-' | b'<' | b'=' | b'>'),
    }
}

/// Whether a directive is `.byte`, and became one of halves.
fn become_halves(old: &[u8], new: &[u8]) -> bool
    ensures { result ≡ become_halves old.now new.now }
{
    old.eq_ignore_ascii_case(b".byte")
        && (new.eq_ignore_ascii_case(b".lobytes") || new.eq_ignore_ascii_case(b".hibytes"))
}

/// Whether a group names a byte of the operand that was come to.
#[inline(always)]
fn may_change(plan: &Plan<'_, '_>, cursor: Cursor) -> bool
    ensures { result ≡ may_change (scope_seen plan.now) cursor }
{
    cursor.stay == 0 && plan.named.names_one(cursor.from, cursor.to)
}

/// What stands in a line after a front.
#[inline(always)]
fn after_front<'l>(line: &'l [u8], front: &[u8]) -> Option<&'l [u8]>
    ensures { IfSome result (λ rest. line.now ≡ front.now ++ rest.now) }
{
    if line.len() < front.len() {
        return None;
    }
    let (first, rest) = line.split_at(front.len());
    if first == front { Some(rest) } else { None }
}

/// The lines after a part of the first, if it stays.
#[inline(always)]
fn after_same<'l>(
    plan: &Plan<'_, '_>,
    lines: Compared<'l>,
    old: Piece<'l>,
) -> Result<Option<Compared<'l>>, Refusal>
    requires { IsPiece plan.now.language lines.old.now old }
    ensures { IfOk result (λ found. IfSome found (LeadsTo (scope_seen plan.now) lines.entry)) }
{
    let Some(text) = after_front(lines.new, old.blanks) else {
        return Ok(None);
    };
    let Some(new) = after_front(text, old.text) else {
        return Ok(None);
    };
    Ok(Some(Compared {
        cursor: after_part(old.part, lines.cursor)?,
        old: old.rest,
        new,
    }))
}

/// The lines after a `.byte` that became a directive of halves.
fn after_directive<'l>(
    plan: &Plan<'_, '_>,
    lines: Compared<'l>,
    old: Piece<'l>,
) -> Result<Option<Compared<'l>>, Refusal>
    requires { IsPiece plan.now.language lines.old.now old }
    ensures { IfOk result (λ found. IfSome found (LeadsTo (scope_seen plan.now) lines.entry)) }
{
    if lines.cursor.stay != 1 {
        return Ok(None);
    }
    let Some(new) = next_piece(plan.language, lines.new)? else {
        return Ok(None);
    };
    if old.blanks != new.blanks {
        return Ok(None);
    }
    if !become_halves(old.text, new.text) {
        return Ok(None);
    }
    Ok(Some(Compared {
        cursor: after_part(old.part, lines.cursor)?,
        old: old.rest,
        new: new.rest,
    }))
}

/// The lines after the next part of the first, if it goes.
#[inline(always)]
fn after_gone<'l>(plan: &Plan<'_, '_>, lines: Compared<'l>, old: Piece<'l>) -> Option<Compared<'l>>
    requires { IsPiece plan.now.language lines.old.now old }
    ensures { IfSome result (LeadsTo (scope_seen plan.now) lines.entry) }
{
    if !may_change(plan, lines.cursor) {
        return None;
    }
    if !is_of_operand(old.part) {
        return None;
    }
    Some(Compared {
        old: old.rest,
        ..lines
    })
}

/// The lines after the next part of the second, if it comes.
#[inline(always)]
fn after_come<'l>(plan: &Plan<'_, '_>, lines: Compared<'l>) -> Result<Option<Compared<'l>>, Refusal>
    ensures { IfOk result (λ found. IfSome found (LeadsTo (scope_seen plan.now) lines.entry)) }
{
    if !may_change(plan, lines.cursor) {
        return Ok(None);
    }
    let Some(new) = next_piece(plan.language, lines.new)? else {
        return Ok(None);
    };
    if !is_of_operand(new.part) {
        return Ok(None);
    }
    Ok(Some(Compared {
        new: new.rest,
        ..lines
    }))
}

/// The lines after the next part of one or both, if it may be there.
#[inline(always)]
fn next_compared<'l>(
    plan: &Plan<'_, '_>,
    lines: Compared<'l>,
) -> Result<Option<Compared<'l>>, Refusal>
    ensures { IfOk result (λ found. IfSome found (LeadsTo (scope_seen plan.now) lines.entry)) }
{
    let Some(old) = next_piece(plan.language, lines.old)? else {
        return after_come(plan, lines);
    };
    let same = after_same(plan, lines, old)?;
    if same.is_some() {
        return Ok(same);
    }
    let directive = after_directive(plan, lines, old)?;
    if directive.is_some() {
        return Ok(directive);
    }
    let gone = after_gone(plan, lines, old);
    if gone.is_some() {
        return Ok(gone);
    }
    after_come(plan, lines)
}

/// Whether nothing but blanks and the same comment is left of both lines.
fn are_done(plan: &Plan<'_, '_>, lines: Compared<'_>) -> Result<bool, Refusal>
    ensures { IfOk result (λ done. IsTrue done → IsRenamed (scope_seen plan.now) lines.entry) }
{
    if next_piece(plan.language, lines.old)?.is_some() {
        return Ok(false);
    }
    let (blanks, comment) = lines.old.split_at(blank_len(lines.old));
    let (others, same) = lines.new.split_at(blank_len(lines.new));
    if !are_blank(blanks) {
        return Ok(false);
    }
    if !are_blank(others) {
        return Ok(false);
    }
    Ok(comment == same)
}

/// Whether the lines differ only where groups name bytes.
pub fn are_renamed(plan: &Plan<'_, '_>, lines: Compared<'_>) -> Result<bool, Refusal>
    ensures { IfOk result (λ are. IsTrue are → IsRenamed (scope_seen plan.now) lines.entry) }
{
    let mut left = lines;
    'parts: loop {
        let Some(next) = next_compared(plan, left)? else {
            return are_done(plan, left);
        };
        left = next;
    }
}
