//! What follows from the role of an address alone.

ghost use Rattle.std.specs.Prelude.{◌≡◌};
ghost use Rattle.map65.specs.Words.{is_skip, is_wide, unit_of};

use info65::{Entry, RangeType};

/// Returns how many bytes an entry of a table of this role has, and 1 for what is no table.
pub fn unit_of(role: RangeType) -> u8
    /// Returns how many bytes an entry of a type has.
    ensures { result ≡ unit_of role }
{
    role.layout().unit
}

/// Returns whether entries of a table of this role have more than one byte.
pub fn is_wide(role: RangeType) -> bool
    ensures { result ≡ is_wide role }
{
    1 < unit_of(role)
}

/// Returns whether bytes of this role are skipped.
pub fn is_skip(role: RangeType) -> bool
    /// Returns whether bytes of a type are skipped.
    ensures { result ≡ is_skip role }
{
    matches!(role.layout().entry, Entry::Skipped)
}
