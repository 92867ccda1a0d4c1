//! What an instruction does to bytes.

/// An operation on up to three bytes: a, b, and c, which is a bit.
#[derive(Clone, Copy, PartialEq, Eq)]
pub enum Operation {
    /// The bits of a and of b.
    And,
    /// The bits of a or of b.
    Or,
    /// The bits of a or of b, but not of both.
    Xor,
    /// The bits that a does not have. A difference is a sum with these.
    Not,
    /// a + b + c.
    Sum,
    /// Whether a + b + c is above $FF.
    SumCarry,
    /// Whether a + b + c is no signed byte.
    SumOverflow,
    /// a with its bits moved up by one, and the bit c below them.
    ShiftLeft,
    /// a with its bits moved down by one, and the bit c above them.
    ShiftRight,
    /// The bit of this number of a: 0 to 7.
    Bit(u8),
    /// Whether a is 0.
    IsZero,
    /// a + b + c in decimal digits.
    DecimalSum,
    /// Whether a + b + c has more than two decimal digits.
    DecimalCarry,
    /// Bit 7 of a + b + c in decimal digits, before the upper digit is corrected.
    DecimalNegative,
    /// Whether that sum is no signed byte.
    DecimalOverflow,
    /// a - b - 1 + c in decimal digits, as the later CPUs have it or as the 6502 has it.
    DecimalDifference { is_cmos: bool },
}

/// The lower eight bits.
fn low(n: u16) -> u8 {
    (n % 256) as u8
}

/// Whether the sum of two bytes is no signed byte.
fn overflow(a: u8, b: u8, sum: u8) -> u8 {
    ((a ^ sum) & (b ^ sum)) / 128
}

/// a + b + c in decimal digits, before the upper one is corrected: N and V come from it. Bytes whose halves are no
/// digits have sums too, and so do the flags that mean nothing: the CPUs are known to give these.
fn unfinished_sum(a: u8, b: u8, c: u8) -> u16 {
    let low = u16::from(a % 16) + u16::from(b % 16) + u16::from(c);
    let low = if 9 < low { (low + 6) % 16 + 16 } else { low };
    u16::from(a / 16) * 16 + u16::from(b / 16) * 16 + low
}

/// a + b + c in decimal digits.
fn decimal_sum(a: u8, b: u8, c: u8) -> u16 {
    let sum = unfinished_sum(a, b, c);
    if 0x9F < sum {
        sum.wrapping_add(0x60)
    } else {
        sum
    }
}

/// a - b - 1 + c in decimal digits, of which c is 0 if there is a borrow. The later CPUs correct the whole
/// difference, and the 6502 each digit.
fn decimal_difference(a: u8, b: u8, c: u8, is_cmos: bool) -> u8 {
    let borrow = 1 - c % 2;
    let low_is_less = a % 16 < b % 16 + borrow;
    let is_less = u16::from(a) < u16::from(b) + u16::from(borrow);
    let whole = a.wrapping_sub(b).wrapping_sub(borrow);
    let corrected = whole.wrapping_sub(if low_is_less { 6 } else { 0 });
    let upper = if is_cmos { corrected } else { whole };
    let upper = upper.wrapping_sub(if is_less { 0x60 } else { 0 });
    upper / 16 * 16 + corrected % 16
}

impl Operation {
    /// What the operation makes of three bytes.
    #[inline(always)]
    pub fn result(self, a: u8, b: u8, c: u8) -> u8 {
        let plain = u16::from(a) + u16::from(b) + u16::from(c);
        match self {
            Operation::And => a & b,
            Operation::Or => a | b,
            Operation::Xor => a ^ b,
            Operation::Not => !a,
            Operation::Sum => low(plain),
            Operation::SumCarry => u8::from(0xFF < plain),
            Operation::SumOverflow => overflow(a, b, low(plain)),
            Operation::ShiftLeft => a.wrapping_mul(2) | c,
            Operation::ShiftRight => a / 2 | c.wrapping_mul(128),
            Operation::Bit(number) => (a >> (number % 8)) & 1,
            Operation::IsZero => u8::from(a == 0),
            Operation::DecimalSum => low(decimal_sum(a, b, c)),
            Operation::DecimalCarry => u8::from(0xFF < decimal_sum(a, b, c)),
            Operation::DecimalNegative => low(unfinished_sum(a, b, c)) / 128,
            Operation::DecimalOverflow => overflow(a, b, low(unfinished_sum(a, b, c))),
            Operation::DecimalDifference { is_cmos } => decimal_difference(a, b, c, is_cmos),
        }
    }
}
