//! What a group says.

use crate::groups::segment_groups::SegmentParts;
use crate::information::name::Given;
use crate::information::range::RangeSpec;

/// The range, the name and the segment that a group says, where it says them. What else a group gives is read again.
#[derive(Clone, Copy)]
pub struct Contents<'a> {
    pub range: Option<RangeSpec>,
    pub name: Option<Given<'a>>,
    pub segment: Option<SegmentParts<'a>>,
}

/// What a group says that has no range, no name and no segment.
pub const NOTHING: Contents<'static> = Contents {
    range: None,
    name: None,
    segment: None,
};
