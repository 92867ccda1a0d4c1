//! Numbers in hex digits and in decimal.

ghost use Rattle.std.specs.Prelude.{decimal, ◌+◌, ◌≡◌, ◌≤◌};
ghost use Rattle.stmt65.specs.Words.{Appends, Extends, array_vec_len, digits2, digits4, distance_text, hex2, hex4, in_hex, offset_text};

use crate::printing::fields::put;
use crate::printing::line::Line;
use itoa::Buffer;
use text65::hex_digit;

/// How offsets and distances are written.
#[derive(Clone, Copy)]
pub enum Offsets {
    /// In decimal.
    Decimal,
    /// In hex digits.
    Hexadecimal,
}

impl Offsets {
    ghost use Rattle.std.specs.Prelude.{◌≡◌};
    ghost use Rattle.stmt65.specs.Code.StatementViews.{in_hex};

    /// In hex digits if `hexoffs` is set.
    #[inline(always)]
    pub fn of(hexoffs: bool) -> Self
        ensures { in_hex result ≡ hexoffs }
    {
        if hexoffs {
            Offsets::Hexadecimal
        } else {
            Offsets::Decimal
        }
    }
}

/// Appends two hex digits.
pub(super) fn put_digits2(out: &mut Line, number: u8)
    requires { array_vec_len out.old + 2 ≤ 512 }
    ensures { Extends out.old (digits2 number) out.new }
{
    out.push(hex_digit(number / 16));
    out.push(hex_digit(number % 16));
}

/// Appends four hex digits.
pub(super) fn put_digits4(out: &mut Line, number: u16)
    requires { array_vec_len out.old + 4 ≤ 512 }
    ensures { Extends out.old (digits4 number) out.new }
{
    out.push(hex_digit((number / 4096 % 16) as u8));
    out.push(hex_digit((number / 256 % 16) as u8));
    out.push(hex_digit((number / 16 % 16) as u8));
    out.push(hex_digit((number % 16) as u8));
}

/// Appends `$` and two hex digits.
pub(super) fn put_hex2(out: &mut Line, number: u8)
    requires { array_vec_len out.old + 3 ≤ 512 }
    ensures { Extends out.old (hex2 number) out.new }
{
    out.push(b'$');
    put_digits2(out, number);
}

/// Appends `$` and four hex digits.
pub(super) fn put_hex4(out: &mut Line, number: u16)
    requires { array_vec_len out.old + 5 ≤ 512 }
    ensures { Extends out.old (hex4 number) out.new }
{
    out.push(b'$');
    put_digits4(out, number);
}

fn put_decimal(out: &mut Line, number: u16)
    requires { array_vec_len out.old + 5 ≤ 512 }
    ensures { Appends out.old (decimal number) out.new 5 }
{
    let mut buffer = Buffer::new();
    put(out, buffer.format(number).as_bytes());
}

/// Appends what is added to a name: in hex digits two of them if it has no more, else four.
pub(super) fn put_offset(out: &mut Line, offsets: Offsets, offset: u16)
    requires { array_vec_len out.old + 5 ≤ 512 }
    ensures { Appends out.old (offset_text (in_hex offsets) offset) out.new 5 }
{
    match offsets {
        Offsets::Decimal => put_decimal(out, offset),
        Offsets::Hexadecimal if offset < 256 => put_hex2(out, offset as u8),
        Offsets::Hexadecimal => put_hex4(out, offset),
    }
}

/// Appends the distance of a name from its own line.
pub(super) fn put_distance(out: &mut Line, offsets: Offsets, distance: u16)
    requires { array_vec_len out.old + 5 ≤ 512 }
    ensures { Appends out.old (distance_text (in_hex offsets) distance) out.new 5 }
{
    match offsets {
        Offsets::Decimal => put_decimal(out, distance),
        Offsets::Hexadecimal => put_hex4(out, distance),
    }
}
