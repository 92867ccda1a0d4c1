//! Listings of binary images as ca65 source.
//!
//! [`run`] reads an information file, the [`File`]s that it includes and then an image from a [`Source`], lists it
//! on a [`Sink`] and reports refusals and warnings on a second one. [`options_of`] reads a command line,
//! [`address_in`] an address in one, and [`needs`] gives the names of the files that a run asks for. [`run_read`]
//! and [`needs_read`] take an information file that [`read_info`] has read, so that a program reads it once.
//! [`Told`] makes readers and writers of std such devices.
#![tactic(auto)]

mod command_line;
mod laws;
mod listing;
mod runs;

pub use command_line::command::this_program;
pub use command_line::usage::options_of;
pub use info65::{Info, InfoFault, Options, read_info};
pub use laws::{
    expressions_have_their_values, group_gives_its_bytes, groups_are_groups, item_gives_its_bytes,
    listing_gives_image, mode_is_chosen_back, names_are_defined_once, names_are_sound,
    target_is_in_range, text_gives_image, unwritten_is_bytes,
};
pub use listing::lines::{Lines, write_lines};
pub use map65::{DeviceFault, Sink, Source, Told, write_whole};
pub use runs::files::{File, Needs};
pub use runs::needs::{needs, needs_read};
pub use runs::outcome::{RunFault, Status};
pub use runs::running::{run, run_read};
pub use usage65::{UsageFault, address_in};
