//! What a line of an include file says.

ghost use Rattle.std.specs.Prelude.{◌≡◌, ◌≤◌, ◌==◌, [], drop, length, option_map};
ghost use Rattle.std.specs.Io.BufRead.{strip_last};
ghost use Rattle.std.specs.List.{list_all, position_or_len, prefix_len, suffix_len};
ghost use Rattle.text65.specs.Names.{is_blank};
ghost use Rattle.info65.specs.Words.{MayName, address_written, assignment_in, given_seen, is_identifier, line_in, trimmed, trimmed_end, without_comment};
ghost use Rattle.info65.specs.Includes.{as_address};

use crate::fault::InfoFaultKind;
use crate::information::name::Given;
use crate::syntax::lexeme::number_in;
use text65::{are_word_bytes, is_blank};

// How many bytes stand before the first of this value.
fn until(bytes: &[u8], end: u8) -> usize
    ensures value { result ≡ position_or_len (λ b. b == end) bytes.now }
    ensures fits { result ≤ length bytes.now }
{
    bytes.iter().take_while(|b| !(**b == end)).count()
}

// The bytes from this place on.
fn after(bytes: &[u8], place: usize) -> &[u8]
    ensures { result.now ≡ drop place bytes.now }
{
    if place <= bytes.len() {
        let (_, rest) = bytes.split_at(place);
        rest
    } else {
        &[]
    }
}

// The bytes without the last, if it has this value.
fn without_last(bytes: &[u8], last: u8) -> &[u8]
    ensures { result.now ≡ strip_last last bytes.now }
{
    match bytes.split_last() {
        Some((byte, rest)) => { if *byte == last { rest } else { bytes } }
        None => bytes,
    }
}

// The line without the one carriage return at its end, up to where its comment begins.
#[tactic(auto, unfolding(crate::specs::Includes::without_comment))]
fn without_comment(comment_start: u8, line: &[u8]) -> &[u8]
    ensures { result.now ≡ without_comment comment_start line.now }
{
    let line = without_last(line, b'\r');
    &line[..until(line, comment_start)]
}

fn are_blank(bytes: &[u8]) -> bool
    ensures { result ≡ list_all is_blank bytes.now }
{
    bytes.iter().all(|b| is_blank(*b))
}

fn blanks_before(bytes: &[u8]) -> usize
    ensures value { result ≡ prefix_len is_blank bytes.now }
    ensures fits { result ≤ length bytes.now }
{
    bytes.iter().take_while(|b| is_blank(**b)).count()
}

fn blanks_after(bytes: &[u8]) -> usize
    ensures value { result ≡ suffix_len is_blank bytes.now }
    ensures fits { result ≤ length bytes.now }
{
    bytes.iter().rev().take_while(|b| is_blank(**b)).count()
}

fn trimmed_end(bytes: &[u8]) -> &[u8]
    ensures { result.now ≡ trimmed_end bytes.now }
{
    &bytes[..bytes.len() - blanks_after(bytes)]
}

// The bytes without the blanks around them.
#[tactic(auto, unfolding(crate::specs::Includes::trimmed))]
fn trimmed(bytes: &[u8]) -> &[u8]
    ensures { result.now ≡ trimmed bytes.now }
{
    trimmed_end(after(bytes, blanks_before(bytes)))
}

// A letter or `_`, then letters, digits and `_`.
#[tactic(auto, unfolding(crate::specs::Includes::is_identifier))]
fn is_identifier(text: &[u8]) -> bool
    ensures { result ≡ is_identifier text.now }
{
    match text {
        [] => false,
        [first, rest @ ..] => {
            (first.is_ascii_alphabetic() || *first == b'_') && are_word_bytes(rest)
        }
    }
}

fn as_address(number: Option<u32>) -> Option<u16>
    ensures { result ≡ as_address number }
{
    match number {
        Some(number) => {
            if number <= 0xFFFF {
                Some(number as u16)
            } else {
                None
            }
        }
        None => None,
    }
}

// The address that a value writes, in decimal, in hex after `$`, or in binary after `%`.
#[tactic(auto, unfolding(crate::specs::Includes::address_written))]
fn address_written(text: &[u8]) -> Option<u16>
    ensures { result ≡ address_written text.now }
{
    match text {
        [] => None,
        [first, rest @ ..] => {
            if *first == b'$' {
                as_address(number_in(rest, 16))
            } else if *first == b'%' {
                as_address(number_in(rest, 2))
            } else {
                as_address(number_in(text, 10))
            }
        }
    }
}

// `name = value` or `name := value`, with blanks around each part.
#[tactic(auto, unfolding(crate::specs::Includes::assignment_in))]
fn assignment_in(text: &[u8]) -> Option<Given<'_>>
    ensures { option_map given_seen result ≡ assignment_in text.now }
{
    let size = until(text, b'=');
    let name = trimmed(without_last(&text[..size], b':'));
    let value = trimmed(after(text, size + 1));
    if !is_identifier(name) {
        return None;
    }
    match address_written(value) {
        Some(address) => Some(Given {
            address,
            size: 1,
            text: name,
            comment: None,
        }),
        None => None,
    }
}

/// What a line says: nothing, or a name of an address. Any other line is BadInclude.
#[tactic(auto, unfolding(crate::specs::Includes::line_in))]
pub fn line_in(comment_start: u8, line: &[u8]) -> Result<Option<Given<'_>>, InfoFaultKind>
    ensures { MayName result (line_in comment_start line.now) }
{
    let text = without_comment(comment_start, line);
    if are_blank(text) {
        return Ok(None);
    }
    match assignment_in(text) {
        Some(name) => Ok(Some(name)),
        None => Err(InfoFaultKind::BadInclude),
    }
}
