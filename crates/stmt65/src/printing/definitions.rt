//! Names that a line defines.

ghost use Rattle.std.specs.Prelude.{◌++◌, ◌+◌, ◌≤◌, Some, [], codes};
ghost use Rattle.stmt65.specs.Words.{IsNameLong, Prints, array_vec_len, definition_fields, distance_text, hex4, in_hex, label_fields};

use crate::printing::columns::{Column, Columns};
use crate::printing::digits::{Offsets, put_distance, put_hex4};
use crate::printing::fields::{put, start_field};
use crate::printing::line::Line;

/// Appends a name and `:`.
pub(super) fn put_label(out: &mut Line, name: &[u8])
    requires room { array_vec_len out.old ≤ 82 }
    requires name { IsNameLong name.now }
    ensures { Prints out.old (label_fields (Some name.now)) out.new (array_vec_len out.old + 82) }
{
    start_field(out, Column::first());
    put(out, name);
    out.push(b':');
}

/// Appends a name, and `:=` at the argument column.
fn start_definition(out: &mut Line, columns: &Columns, name: &[u8])
    requires room { array_vec_len out.old ≤ 82 }
    requires name { IsNameLong name.now }
    ensures { Prints out.old (definition_fields columns.now name.now []) out.new 256 }
{
    start_field(out, Column::first());
    put(out, name);
    start_field(out, columns.argument);
    put(out, b":= ");
}

/// Appends a name and its number.
pub(super) fn put_const(out: &mut Line, columns: &Columns, name: &[u8], number: u16)
    requires room { array_vec_len out.old ≤ 82 }
    requires name { IsNameLong name.now }
    ensures { Prints out.old (definition_fields columns.now name.now (hex4 number)) out.new 340 }
{
    start_definition(out, columns, name);
    put_hex4(out, number);
}

/// Appends a name and its distance from this line.
pub(super) fn put_forward(
    out: &mut Line,
    columns: &Columns,
    offsets: Offsets,
    name: &[u8],
    distance: u16,
)
    requires room { array_vec_len out.old ≤ 82 }
    requires name { IsNameLong name.now }
    ensures { Prints out.old (definition_fields columns.now name.now
        (codes "* + " ++ distance_text (in_hex offsets) distance)) out.new 340 }
{
    start_definition(out, columns, name);
    put(out, b"* + ");
    put_distance(out, offsets, distance);
}
