//! Numbers in a text.

ghost use Rattle.std.specs.Prelude.{◌≡◌, ◌++◌, OnOk, decimal};
ghost use Rattle.text65.specs.Digits.{digits4};

use crate::digits::hex_digit;
use itoa::Buffer;
use std::alloc::AllocError;

/// Appends a text, and an address in four hex digits.
pub fn put_address(out: &mut Vec<u8>, before: &[u8], address: usize) -> Result<(), AllocError>
    /// Appends a text and an address in four hex digits; or memory ran out.
    ensures { OnOk result (out.new.items ≡ out.old.items ++ (before.now ++ digits4 address)) }
{
    out.extend_from_slice(before)?;
    let text = [
        hex_digit((address / 4096 % 16) as u8),
        hex_digit((address / 256 % 16) as u8),
        hex_digit((address / 16 % 16) as u8),
        hex_digit((address % 16) as u8),
    ];
    out.extend_from_slice(&text)
}

/// Appends a text, and a number in decimal.
pub fn put_decimal(out: &mut Vec<u8>, before: &[u8], number: usize) -> Result<(), AllocError>
    /// Appends a text and a number in decimal; or memory ran out.
    ensures { OnOk result (out.new.items ≡ out.old.items ++ (before.now ++ decimal number)) }
{
    out.extend_from_slice(before)?;
    let mut buffer = Buffer::new();
    out.extend_from_slice(buffer.format(number).as_bytes())
}
