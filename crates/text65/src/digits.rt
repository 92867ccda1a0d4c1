//! Hex digits.

ghost use Rattle.std.specs.Prelude.{◌≡◌, ◌<◌};
ghost use Rattle.text65.specs.Digits.{hex_digit};

/// The hex digit of a number below 16, with letters in upper case.
#[inline]
pub fn hex_digit(digit: u8) -> u8
    requires { digit < 16 }
    /// Returns the hex digit of a number below 16, in upper case.
    ensures { result ≡ hex_digit digit }
{
    if digit < 10 {
        b'0' + digit
    } else {
        b'A' - 10 + digit
    }
}
