//! Where the next line of a listing comes from.

/// Where the next line comes from. An index is that of a byte in the image, and an address one from 0 to 65,536. A
/// group is known by the index of its first byte.
#[derive(Clone, Copy)]
pub enum ListingPlace {
    /// The line of this number of the header, 0 to 3.
    Header {
        number: usize,
    },
    /// The lines of the constant of this address, or of the next one that has any.
    Constant {
        address: usize,
        /// Whether a constant line was written before.
        after_another: bool,
    },
    /// The constant line of this address, after the comment of its name.
    Assignment {
        address: usize,
    },
    /// The group that begins with this byte, or after it if that is skipped, or the end.
    Group {
        index: usize,
    },
    /// What has this number among the lines that may stand before the label of this group, or what follows it.
    Heading {
        index: usize,
        number: usize,
    },
    /// The statement of this group, after its label.
    Statement {
        index: usize,
    },
    /// The empty line after a statement, before this byte.
    Ending {
        index: usize,
    },
}
