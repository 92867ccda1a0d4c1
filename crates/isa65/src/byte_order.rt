//! The order of the bytes of a number.

/// Which byte of a number comes first.
#[derive(Clone, Copy, Debug, PartialEq, Eq)]
pub enum ByteOrder {
    /// Low byte first.
    LittleEndian,
    /// High byte first.
    BigEndian,
}
