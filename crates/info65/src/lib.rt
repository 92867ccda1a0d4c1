//! The information file of da65: its tokens, its groups, and what they and a command line give together:
//! settings, ranges of addresses and names of addresses.
//!
//! [`read_info`] reads a whole file under the [`Options`] of a command line. It returns an [`Info`], whose
//! [`Settings`] are merged and in their limits, whose ranges, each a [`RangeSpec`], share no address, and
//! whose names, each a [`Given`], ascend by address. [`RangeType::layout`] is the table of what each type says of
//! its bytes. [`Lexer`] gives the tokens alone. A refusal is an
//! [`InfoFault`]: a line and an [`InfoFaultKind`].
//!
//! `syntax` reads tokens and groups, by the tables of groups, attributes and words in `attribute`. `groups`
//! keeps the closed groups and what each says, `lookup` finds their ranges and names. `information` is what is
//! left of a file that was read, and `includes` adds the names of include files. `laws` has the laws on which
//! files are accepted and why one is refused.
#![tactic(auto)]

mod fault;
mod groups;
mod includes;
mod information;
mod laws;
mod lookup;
mod syntax;
mod tags;

pub use fault::{InfoFault, InfoFaultKind};
pub use includes::include::IncludeSpec;
pub use includes::included::Inclusion;
pub use information::info::{Info, read_include, read_info};
pub use information::name::Given;
pub use information::options::Options;
pub use information::pool::NamePool;
pub use information::range::{Entry, Layout, RangeSpec, RangeType};
pub use information::segment::SegmentSpec;
pub use information::settings::Settings;
pub use laws::{
    accepts_files, covers_highest, covers_one, names_given, own_address_wins, ranges_apart,
    refuses_first, segments_apart, tokens_stand,
};
pub use syntax::digits::number_of_digits;
pub use syntax::lexer::{Lexer, MOST_BYTES};
pub use syntax::names::default_name;
pub use syntax::token::{Token, TokenKind};
pub use tags::{Tag, TagKind, read_tags, without_numbers};
