//! Numbers of a command line.

ghost use Rattle.std.specs.Prelude.{IfOk, ◌≡◌, ◌≤◌};
ghost use Rattle.usage65.specs.Words.{address_in, byte_in, decimal_in, number_in, numeral_in};

use crate::fault::UsageFault;
use info65::number_of_digits;

/// The number that the digits write. Fails if it is above `most`.
fn number_in(digits: &[u8], radix: u32, most: u32) -> Result<u32, UsageFault>
    requires low { 2 ≤ radix }
    requires high { radix ≤ 36 }
    ensures value { result ≡ number_in radix most digits.now }
    ensures small { IfOk result (λ n. n ≤ most) }
{
    match number_of_digits(digits, radix) {
        None => Err(UsageFault::BadNumber),
        Some(number) if number <= u64::from(most) => Ok(number as u32),
        Some(_) => Err(UsageFault::OutOfRange),
    }
}

/// The number that a text writes: hexadecimal after `$`, `0x` or `0X`, octal after `0`, else
/// decimal. Fails if it is above `most`.
#[tactic(auto, unfolding(crate::specs::Number::numeral_in))]
fn numeral_in(text: &[u8], most: u32) -> Result<u32, UsageFault>
    ensures value { result ≡ numeral_in most text.now }
    ensures small { IfOk result (λ n. n ≤ most) }
{
    let (radix, digits) = if text.starts_with(b"$") {
        (16, &text[1..])
    } else if text.starts_with(b"0x") || text.starts_with(b"0X") {
        (16, &text[2..])
    } else if text.starts_with(b"0") {
        (8, text)
    } else {
        (10, text)
    };
    number_in(digits, radix, most)
}

/// Returns the address that a text writes, as after `-S`: hexadecimal after `$`, `0x` or `0X`, octal after `0`, else
/// decimal. Fails with `BadNumber` if the text is not a number, and with `OutOfRange` if it is above $FFFF.
pub fn address_in(text: &[u8]) -> Result<u16, UsageFault>
    /// Returns the address that a text writes in hexadecimal, octal or decimal. Fails if it is not a number, or is
    /// above $FFFF.
    ensures { result ≡ address_in text.now }
{
    Ok(numeral_in(text, 0xFFFF)? as u16)
}

/// Returns the byte that a text writes in the same way. Fails with `BadNumber` if the text is not a number, and
/// with `OutOfRange` if it is above $FF.
pub fn byte_in(text: &[u8]) -> Result<u8, UsageFault>
    /// Returns the byte that a text writes in hexadecimal, octal or decimal. Fails if it is not a number, or is
    /// above $FF.
    ensures { result ≡ byte_in text.now }
{
    Ok(numeral_in(text, 0xFF)? as u8)
}

/// Returns the number from `least` to `most` that decimal digits write. Fails with `BadNumber` if the text is not a
/// number, and with `OutOfRange` if the number is not in these limits.
#[tactic(auto, unfolding(crate::specs::Number::decimal_in))]
pub fn decimal_in(text: &[u8], least: u8, most: u8) -> Result<u8, UsageFault>
    /// Returns the number that decimal digits write. Fails if the text is not a number, or the number is outside
    /// the limits.
    ensures value { result ≡ decimal_in least most text.now }
    ensures low { IfOk result (λ n. least ≤ n) }
    ensures high { IfOk result (λ n. n ≤ most) }
{
    let number = number_in(text, 10, u32::from(most))? as u8;
    if number < least {
        return Err(UsageFault::OutOfRange);
    }
    Ok(number)
}
