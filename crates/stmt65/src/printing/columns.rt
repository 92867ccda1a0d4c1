//! Where the fields of a line stand.

use std::marker::Model;
use thiserror::Error;

/// A number outside the limits of a type.
#[derive(Clone, Copy, Debug, PartialEq, Eq, Error)]
#[error("{0} is out of range")]
pub struct LimitError(pub u8);

/// A number from `LEAST` to `GREATEST`.
#[derive(Clone, Copy, Debug, PartialEq, Eq)]
pub struct Within<const LEAST: u8, const GREATEST: u8> {
    number: u8,
}

impl<const LEAST: u8, const GREATEST: u8> Model for Within<LEAST, GREATEST> {
    ghost use Rattle.std.specs.Prelude.{ℕ, ◌≤◌};

    ghost Value = { ℕ };

    ghost view = { λ w. w.number };

    /// A column is 1 to 120, a label break 0 to 120, a level 0 to 4.
    ghost invariant = { λ w. (LEAST ≤ w.number) × (w.number ≤ GREATEST) };

    ghost inverse = { λ n. record { number = n } };
}

impl<const LEAST: u8, const GREATEST: u8> Within<LEAST, GREATEST> {
    ghost use Rattle.std.specs.Prelude.{◌≡◌, ◌≤◌};

    /// The number.
    pub fn get(self) -> u8
        /// Returns the number, which is within the limits.
        ensures value { result ≡ self.entry }
        ensures least { LEAST ≤ result }
        ensures greatest { result ≤ GREATEST }
    {
        self.number
    }
}

impl<const LEAST: u8, const GREATEST: u8> TryFrom<u8> for Within<LEAST, GREATEST> {
    ghost use Rattle.stmt65.specs.Limits.{ConvertsWithin};

    type Error = LimitError;

    /// A number outside the limits is refused, and the error holds it.
    ghost try_from_gives = { ConvertsWithin LEAST GREATEST };

    fn try_from(number: u8) -> Result<Self, LimitError> {
        if LEAST <= number && number <= GREATEST {
            Ok(Within { number })
        } else {
            Err(LimitError(number))
        }
    }
}

/// A column of a line, 1 to 120.
pub type Column = Within<1, 120>;

/// The length of the longest label that stands on the line of its statement, 0 to 120 bytes.
pub type LabelBreak = Within<0, 120>;

/// How much a listing remarks: 0 nothing, 4 the most.
pub type Level = Within<0, 4>;

impl Column {
    ghost use Rattle.std.specs.Prelude.{◌≡◌};

    /// Column 1.
    pub fn first() -> Self
        ensures { result ≡ 1 }
    {
        Within { number: 1 }
    }
}

/// No remarks.
impl Default for Level {
    ghost use Rattle.std.specs.Prelude.{◌≡◌};

    /// By default the level is 0.
    ghost is_default = { λ l. l ≡ 0 };

    fn default() -> Self {
        Within { number: 0 }
    }
}

/// Where the fields of each line stand.
#[derive(Clone, Copy, Debug, PartialEq, Eq)]
pub struct Columns {
    /// Of mnemonics and other operations.
    pub mnemonic: Column,
    /// Of operands.
    pub argument: Column,
    /// Of the remark after a statement.
    pub comment: Column,
    /// Of the bytes as characters, after that remark.
    pub text: Column,
    /// A label with more bytes stands on a line of its own.
    pub label_break: LabelBreak,
}

impl Columns {
    ghost use Rattle.std.specs.Prelude.{◌≡◌};
    ghost use Rattle.stmt65.specs.Columns.{fits_label};

    /// Whether a label of this name stands on the line of its statement, if that is an instruction or
    /// data: the name has at most as many bytes as the label break, and their number plus 1 is below
    /// the mnemonic column.
    pub fn fits_label(&self, name: &[u8]) -> bool
        /// Returns whether a label stands on the line of its statement: its name has at most as many bytes as the
        /// label break, and their number plus 1 is below the mnemonic column.
        ensures { result ≡ fits_label self.now name.now }
    {
        name.len() <= self.label_break.get() as usize
            && name.len() + 1 < self.mnemonic.get() as usize
    }
}

/// The columns of a listing whose options set none: 9, 17, 49 and 81, and a label break of 7.
impl Default for Columns {
    ghost use Rattle.std.specs.Prelude.{◌≡◌};
    ghost use Rattle.stmt65.specs.Columns.{default_columns};

    /// By default the columns are 9, 17, 49 and 81, and the label break is 7.
    ghost is_default = { λ c. c ≡ default_columns };

    fn default() -> Self {
        Columns {
            mnemonic: Within { number: 9 },
            argument: Within { number: 17 },
            comment: Within { number: 49 },
            text: Within { number: 81 },
            label_break: Within { number: 7 },
        }
    }
}
