//! The operands of tables: numbers, and bytes as text.

ghost use Rattle.std.specs.Prelude.{◌*◌, ◌+◌, ◌<◌, ◌≡◌, ◌≤◌, length, reverse};
ghost use Rattle.std.specs.List.{flat_map, prefix_len};
ghost use Rattle.stmt65.specs.Words.{Appends, AreBytes, Extends, Lists, array_vec_len, cut_text, data_text, datum_text, digits2, entries, entry_len, entry_text, is_plain, len_with, numbers_text};

use crate::directive::Directive;
use crate::printing::digits::{put_digits2, put_hex2};
use crate::printing::fields::put;
use crate::printing::line::Line;
use isa65::ByteOrder;

/// Appends the digits of bytes whose low one is first, the high one first.
fn put_reversed(out: &mut Line, bytes: &[u8])
    requires room { len_with out.old 2 bytes.now ≤ 512 }
    ensures { Appends out.old (flat_map digits2
        (reverse bytes.now)) out.new (2 * length bytes.now) }
{
    if let [low, rest @ ..] = bytes {
        put_reversed(out, rest);
        put_digits2(out, *low);
    }
}

/// Appends the digits of bytes whose high one is first.
fn put_all(out: &mut Line, bytes: &[u8])
    requires room { len_with out.old 2 bytes.now ≤ 512 }
    ensures { Appends out.old (flat_map digits2 bytes.now) out.new (2 * length bytes.now) }
{
    for byte in bytes {
        put_digits2(out, *byte);
    }
}

fn put_entry(out: &mut Line, directive: Directive, bytes: &[u8])
    requires room { array_vec_len out.old + 1 + 2 * length bytes.now ≤ 512 }
    ensures { Appends out.old (entry_text directive bytes.now) out.new (1 + 2 * length bytes.now) }
{
    out.push(b'$');
    match directive.order() {
        ByteOrder::LittleEndian => put_reversed(out, bytes),
        ByteOrder::BigEndian => put_all(out, bytes),
    }
}

/// Appends the entries of the bytes, joined by commas.
#[tactic(auto, using(crate::proofs::TableTexts::entries_put))]
pub(super) fn put_entries(out: &mut Line, directive: Directive, bytes: &[u8])
    requires some { entry_len directive ≤ length bytes.now }
    requires room { len_with out.old 3 bytes.now ≤ 512 }
    ensures { Appends out.old (numbers_text directive bytes.now) out.new (3 * length bytes.now) }
{
    let (entry, rest) = bytes.split_at(directive.entry_len());
    put_entry(out, directive, entry);
    if rest.len() >= directive.entry_len() {
        out.push(b',');
        put_entries(out, directive, rest);
    }
}

fn is_plain(b: u8) -> bool
    ensures { result ≡ is_plain b }
{
    b > 0x1F && b < 0x7F && b != b'"' && b != b'\\'
}

fn stretch_len(bytes: &[u8]) -> usize
    ensures value { result ≡ prefix_len is_plain bytes.now }
    ensures fits { result ≤ length bytes.now }
{
    bytes.iter().take_while(|b| is_plain(**b)).count()
}

/// Appends the longest stretch that the text begins with, or one byte, and returns the bytes after
/// it.
fn put_first_datum<'a>(out: &mut Line, bytes: &'a [u8]) -> &'a [u8]
    requires some { 1 ≤ length bytes.now }
    requires room { len_with out.old 4 bytes.now ≤ 512 }
    ensures items { Lists datum_text out.old (cut_text bytes.now) out.new (cut_text result.now) }
    ensures len { len_with out.new 4 result.now < len_with out.old 4 bytes.now }
    ensures fewer { length result.now < length bytes.now }
{
    let len = stretch_len(bytes);
    if len == 0 {
        let [first, rest @ ..] = bytes else {
            unreachable!()
        };
        put_hex2(out, *first);
        return rest;
    }
    let (stretch, rest) = bytes.split_at(len);
    out.push(b'"');
    put(out, stretch);
    out.push(b'"');
    rest
}

/// Appends the bytes as text.
#[tactic(auto, using(crate::proofs::TableTexts::each_in_width))]
pub(super) fn put_text(out: &mut Line, bytes: &[u8])
    requires some { 1 ≤ length bytes.now }
    requires room { len_with out.old 4 bytes.now ≤ 512 }
    ensures text { Appends out.old (data_text (cut_text bytes.now)) out.new (4 * length bytes.now) }
    ensures width { AreBytes bytes.now }
{
    let rest = put_first_datum(out, bytes);
    if !rest.is_empty() {
        out.push(b',');
        put_text(out, rest);
    }
}
