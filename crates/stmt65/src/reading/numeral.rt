//! Numbers as they are written.

ghost use Rattle.std.specs.Prelude.{◌<◌, ◌≡◌, min};
ghost use Rattle.std.specs.Char.{digit_value};
ghost use Rattle.std.specs.Str.Parse.{digits_value};
ghost use Rattle.stmt65.specs.Words.{held, numeral_of};
ghost use Rattle.stmt65.specs.Parts.{number_of};

/// A number as it is written: decimal digits, `$` and hex digits, `%` and binary digits, or a character
/// between apostrophes. It may be of any size.
#[derive(Clone, Copy, Debug)]
pub struct Numeral<'a> {
    pub text: &'a [u8],
}

impl<'a> Numeral<'a> {
    /// The number 0.
    #[tactic(auto, unfolding(crate::specs::Parts::number_of))]
    pub fn zero() -> Self
        ensures { numeral_of result ≡ 0 }
    {
        Numeral { text: b"0" }
    }

    /// The number, or 2^64 - 1 if it is greater.
    #[tactic(auto, unfolding(crate::specs::Parts::number_of))]
    pub fn value(self) -> u64
        /// Returns the number, or 2^64 - 1 if it is greater.
        ensures { result ≡ held (numeral_of self.entry) }
    {
        match self.text {
            [b'$', digits @ ..] => value_of_digits(16, digits),
            [b'%', digits @ ..] => value_of_digits(2, digits),
            [b'\'', character, ..] => u64::from(*character),
            [b'\''] => 0,
            _ => value_of_digits(10, self.text),
        }
    }
}

#[tactic(auto, using(crate::proofs::NumberLemmas::capped_more))]
fn value_of_digits(radix: u64, digits: &[u8]) -> u64
    requires { 0 < radix }
    ensures { result ≡ min (digits_value radix digits.now) 18446744073709551615 }
{
    let mut n: u64 = 0;
    'digits: for d in digits {
        n = n
            .saturating_mul(radix)
            .saturating_add(u64::from(value_of_digit(*d)));
    }
    n
}

fn value_of_digit(d: u8) -> u8
    ensures { result ≡ digit_value d }
{
    match d {
        b'0'..=b'9' => d - b'0',
        b'A'..=b'Z' => d - b'A' + 10,
        b'a'..=b'z' => d - b'a' + 10,
        _ => 36,
    }
}
