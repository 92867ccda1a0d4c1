//! The fields of a line.

ghost use Rattle.std.specs.Prelude.{◌+◌, ◌<◌, ◌≡◌, ◌≤◌, length, max, replicate};
ghost use Rattle.stmt65.specs.Words.{Extends, array_vec_len, filled};

use crate::printing::columns::Column;
use crate::printing::line::Line;

/// Appends the bytes.
pub(super) fn put(out: &mut Line, bytes: &[u8])
    requires { array_vec_len out.old + length bytes.now ≤ 512 }
    ensures { Extends out.old bytes.now out.new }
{
    if bytes.is_empty() {
        return;
    }
    let taken = out.try_extend_from_slice(bytes);
    prove!(taken.is_ok());
}

/// Appends fewer than eight blanks: four if there are so many, then two, then one.
#[inline(always)]
fn put_few_blanks(out: &mut Line, count: usize)
    requires few { count < 8 }
    requires room { array_vec_len out.old + count ≤ 512 }
    ensures { Extends out.old (replicate count 32) out.new }
{
    let mut left = count;
    if 4 <= left {
        put(out, b"    ");
        left -= 4;
    }
    if 2 <= left {
        put(out, b"  ");
        left -= 2;
    }
    if left != 0 {
        out.push(b' ');
    }
}

/// Appends this many blanks, eight at a time.
#[inline(always)]
fn put_blanks(out: &mut Line, count: usize)
    requires { array_vec_len out.old + count ≤ 512 }
    ensures { Extends out.old (replicate count 32) out.new }
{
    let mut left = count;
    'eights: while 8 <= left {
        put(out, b"        ");
        left -= 8;
    }
    put_few_blanks(out, left);
}

/// Makes the line ready for a field at the column.
#[inline(always)]
#[tactic(auto, unfolding(crate::specs::Line::filled))]
pub(super) fn start_field(out: &mut Line, column: Column)
    requires { array_vec_len out.old < 512 }
    ensures items { out.new.items ≡ filled out.old.items column }
    ensures len { array_vec_len out.new ≤ max (array_vec_len out.old + 1) 120 }
    ensures short { array_vec_len out.new ≤ array_vec_len out.old + column }
{
    let len = out.len();
    let before = column.get() as usize - 1;
    if len < before {
        put_blanks(out, before - len);
    } else if len != 0 {
        out.push(b' ');
    }
}
