//! Numbers by their digits.

ghost use Rattle.std.specs.Prelude.{◌≡◌, ◌<◌, ◌≤◌, IfSome, length, min, take};
ghost use Rattle.std.specs.Char.{digit_value, is_digit};
ghost use Rattle.std.specs.List.{prefix_len};
ghost use Rattle.std.specs.Str.Parse.{digits_value};
ghost use Rattle.info65.specs.Words.{number_of_digits};

// What each byte is worth as a digit, which is 36 for a byte that is no digit of any radix.
const DIGITS: [u8; 256] = [
    36, 36, 36, 36, 36, 36, 36, 36, 36, 36, 36, 36, 36, 36, 36, 36, 36, 36, 36, 36, 36, 36, 36, 36,
    36, 36, 36, 36, 36, 36, 36, 36, 36, 36, 36, 36, 36, 36, 36, 36, 36, 36, 36, 36, 36, 36, 36, 36,
    0, 1, 2, 3, 4, 5, 6, 7, 8, 9, 36, 36, 36, 36, 36, 36, 36, 10, 11, 12, 13, 14, 15, 16, 17, 18,
    19, 20, 21, 22, 23, 24, 25, 26, 27, 28, 29, 30, 31, 32, 33, 34, 35, 36, 36, 36, 36, 36, 36, 10,
    11, 12, 13, 14, 15, 16, 17, 18, 19, 20, 21, 22, 23, 24, 25, 26, 27, 28, 29, 30, 31, 32, 33, 34,
    35, 36, 36, 36, 36, 36, 36, 36, 36, 36, 36, 36, 36, 36, 36, 36, 36, 36, 36, 36, 36, 36, 36, 36,
    36, 36, 36, 36, 36, 36, 36, 36, 36, 36, 36, 36, 36, 36, 36, 36, 36, 36, 36, 36, 36, 36, 36, 36,
    36, 36, 36, 36, 36, 36, 36, 36, 36, 36, 36, 36, 36, 36, 36, 36, 36, 36, 36, 36, 36, 36, 36, 36,
    36, 36, 36, 36, 36, 36, 36, 36, 36, 36, 36, 36, 36, 36, 36, 36, 36, 36, 36, 36, 36, 36, 36, 36,
    36, 36, 36, 36, 36, 36, 36, 36, 36, 36, 36, 36, 36, 36, 36, 36, 36, 36, 36, 36, 36, 36, 36, 36,
    36, 36, 36, 36, 36, 36, 36, 36, 36, 36, 36, 36, 36, 36,
];

#[tactic(auto, using(crate::proofs::NumberLemmas::digit_told))]
fn digit_of(byte: u8) -> u8
    ensures { result ≡ digit_value byte }
{
    DIGITS[usize::from(byte)]
}

/// How many digits of this radix the bytes begin with, and the number that these write, or 2^32 if it is greater.
#[inline(always)]
pub fn digits_at(bytes: &[u8], radix: u32) -> (usize, u64)
    requires low { 2 ≤ radix }
    requires high { radix ≤ 36 }
    ensures size { result.0 ≡ prefix_len (λ b. is_digit b radix) bytes.now }
    ensures bound { result.0 ≤ length bytes.now }
    ensures value { result.1 ≡ min (digits_value radix (take result.0 bytes.now)) 0x1_0000_0000 }
{
    let limit = u64::from(u32::MAX) + 1;
    let mut value: u64 = 0;
    for (size, byte) in bytes.iter().enumerate() {
        let digit = digit_of(*byte);
        if u32::from(digit) >= radix {
            return (size, value);
        }
        value = (value * u64::from(radix) + u64::from(digit)).min(limit);
    }
    (bytes.len(), value)
}

/// Returns the number that the digits write, or 2^32 if it is greater. Returns `None` if there is no digit, or a byte
/// that is not a digit of this radix.
#[inline(always)]
pub fn number_of_digits(digits: &[u8], radix: u32) -> Option<u64>
    requires low { 2 ≤ radix }
    requires high { radix ≤ 36 }
    /// Returns the number that digits of a radix write, or 2^32 if it is greater; None if there is no digit or
    /// another byte.
    ensures value { result ≡ number_of_digits radix digits.now }
    ensures some { IfSome result (λ _. 0 < length digits.now) }
{
    let (size, value) = digits_at(digits, radix);
    if 0 < size && size == digits.len() {
        Some(value)
    } else {
        None
    }
}
