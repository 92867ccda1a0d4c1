//! What the code of an image reaches, and the ranges of the rest.
//!
//! [`Steps`] says where the instruction of an address leads. [`reached`] marks what is reached from given entries,
//! [`code_of`] the bytes of these instructions, and [`taken_of`] those and the ranges of the information file.
//! [`ranges_of`] cuts all other addresses of the image into ranges. Which entries to give it, and where and of which
//! type the ranges are, is for the caller to choose: `entries65` and `bytes65` have advice on that.
#![tactic(auto)]

mod flow;
pub mod image;
mod inlines;
mod ranges;
mod search;
mod steps;
mod taken;

pub use flow::is_last;
pub use ranges::ranges_of;
pub use search::reached;
pub use steps::{Placed, Step, Steps};
pub use taken::{code_of, taken_of};
