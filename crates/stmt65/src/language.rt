//! The language in which a line is read.

/// The language in which a line is read.
#[derive(Clone, Copy, Debug, PartialEq, Eq)]
pub enum Language {
    /// What a listing is written in.
    Listing,
    /// That, and what people write when they edit a listing: halves of values (`#<name`, `.lobytes`), `name-2`,
    /// differences of two names, `*` in a value (`bne *+5`), `.res`, numbers as `%1010` and `'A'`, sums of two numbers
    /// as `'D'+$80`, `name = 5`, and `asl` for `asl a`. Each means what it means to ca65.
    Repair,
}
