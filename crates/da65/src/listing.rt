//! From a map to the lines of its listing.

mod base_names;
mod comment_lines;
mod constant_lines;
mod group;
mod group_lines;
pub(crate) mod grouping;
pub(crate) mod heading_lines;
pub(crate) mod lines;
mod listed_image;
mod marks;
mod place;
mod plain_lines;
mod statements;
mod style;
