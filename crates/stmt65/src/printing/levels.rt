//! What stands after a statement that has bytes, by the comment level.

ghost use Rattle.std.specs.Prelude.{◌*◌, ◌+◌, ◌≡◌, ◌≤◌, length, map};
ghost use Rattle.std.specs.List.{flat_map};
ghost use Rattle.stmt65.specs.Words.{Appends, Extends, Prints, array_vec_len, character, fields_after, len_with, level_fields, remarks_seen, spaced_byte, statement_seen};

use crate::printing::columns::Columns;
use crate::printing::digits::{put_digits2, put_digits4};
use crate::printing::fields::{put, start_field};
use crate::printing::line::Line;
use crate::printing::remarks::Remarks;
use crate::statement::Statement;

/// Appends the bytes in hex digits, each after a blank.
fn put_spaced_bytes(out: &mut Line, bytes: &[u8])
    requires { len_with out.old 3 bytes.now ≤ 512 }
    ensures { Appends out.old (flat_map spaced_byte bytes.now) out.new (3 * length bytes.now) }
{
    for byte in bytes {
        out.push(b' ');
        put_digits2(out, *byte);
    }
}

/// The byte if it is from $20 to $7E, else a dot.
fn character(byte: u8) -> u8
    ensures { result ≡ character byte }
{
    if byte > 0x1F && byte < 0x7F {
        byte
    } else {
        b'.'
    }
}

/// Appends the bytes as characters.
fn put_characters(out: &mut Line, bytes: &[u8])
    requires { array_vec_len out.old + length bytes.now ≤ 512 }
    ensures { Appends out.old (map character bytes.now) out.new (length bytes.now) }
{
    for byte in bytes {
        out.push(character(*byte));
    }
}

/// Appends what stands after a statement from level 2 on, with the statement's address and bytes.
#[inline(never)]
fn put_remarked(out: &mut Line, columns: &Columns, remarks: &Remarks)
    requires level { 2 ≤ (remarks_seen remarks.now).level }
    requires room { array_vec_len out.old ≤ 340 }
    requires few { length remarks.now.bytes.now ≤ 16 }
    ensures { Prints out.old (level_fields columns.now (remarks_seen remarks.now).level
        remarks.now.address remarks.now.bytes.now) out.new 511 }
{
    let level = remarks.level.get();
    start_field(out, columns.comment);
    put(out, b"; ");
    put_digits4(out, remarks.address);
    if level < 3 {
        return;
    }
    put_spaced_bytes(out, remarks.bytes);
    if level < 4 {
        return;
    }
    start_field(out, columns.text);
    put_characters(out, remarks.bytes);
}

/// Appends what stands after the statement. Below level 2 that is nothing.
#[inline(always)]
pub(super) fn put_after(out: &mut Line, columns: &Columns, statement: &Statement, remarks: &Remarks)
    requires room { array_vec_len out.old ≤ 340 }
    requires few { length remarks.now.bytes.now ≤ 16 }
    ensures { Prints out.old (fields_after columns.now (statement_seen statement.now)
        (remarks_seen remarks.now)) out.new 511 }
{
    if statement.has_bytes() && 2 <= remarks.level.get() {
        put_remarked(out, columns, remarks);
    }
}
