//! How an address is written by a name.

use crate::operands::Style;
use std::alloc::AllocError;
use stmt65::Half;
use text65::put_decimal;

/// How far an address is from the value of a name.
#[derive(Clone, Copy, PartialEq, Eq)]
pub enum Offset {
    Zero,
    Plus(u16),
    Minus(u16),
}

/// An address by a name of the listing: `NAME`, `NAME+n` or `NAME-n`.
#[derive(Clone, Copy, PartialEq, Eq)]
pub struct Reference<'t> {
    pub name: &'t [u8],
    pub offset: Offset,
}

/// Appends an address.
pub fn put_reference(out: &mut Vec<u8>, reference: Reference<'_>) -> Result<(), AllocError> {
    out.extend_from_slice(reference.name)?;
    match reference.offset {
        Offset::Zero => Ok(()),
        Offset::Plus(n) => put_decimal(out, b"+", usize::from(n)),
        Offset::Minus(n) => put_decimal(out, b"-", usize::from(n)),
    }
}

/// Appends an address as it stands in a list: this half of it among bytes, the address itself among halves or words.
/// Parentheses stand around a sum, since ca65 reads `<NAME+1` as one more than the half.
pub fn put_in_list(
    out: &mut Vec<u8>,
    style: Style,
    half: Half,
    reference: Reference<'_>,
) -> Result<(), AllocError> {
    if !matches!(style, Style::Bytes) {
        return put_reference(out, reference);
    }
    let sign: &[u8] = match half {
        Half::Low => b"<",
        Half::High => b">",
    };
    out.extend_from_slice(sign)?;
    if let Offset::Zero = reference.offset {
        return put_reference(out, reference);
    }
    out.extend_from_slice(b"(")?;
    put_reference(out, reference)?;
    out.extend_from_slice(b")")
}
