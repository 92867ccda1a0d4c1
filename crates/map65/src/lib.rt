//! The image that is listed, what each of its bytes is, and the devices that are read and written.
//!
//! `devices` has what is read and written: input comes from a [`Source`], output goes to a [`Sink`], and [`Told`] makes
//! them from any `std::io::Read` or `Write`. [`take_up_to`] reads some bytes, and [`write_whole`] writes some.
//! [`read_image`] reads the [`Image`] that the settings of an `Info` ask for, and [`Map::build`] builds its [`Map`]:
//! the role and the name of each address, and the length of the item that begins there. `cells` packs these into 16
//! bits; `marking`, `borders` and `naming` write the cells of an image. [`Marks`] is a flag for each address. `laws`
//! states the laws of roles, runs, pieces, items, names and cells, and the worked examples.
#![tactic(auto)]

mod borders;
mod cells;
mod devices;
mod image;
mod laws;
mod map;
mod mapped_image;
mod marking;
mod marks;
mod name;
mod naming;
mod reading;
mod roles;
mod target;

pub use devices::{DeviceFault, Sink, Source, TakeFault, Told, take_up_to, write_whole};
pub use image::{ADDRESSES, Image, ImageFault};
pub use laws::{
    base_law, entry_start_law, item_law, name_law, piece_law, place_law, reference_law, run_law,
};
pub use map::Map;
pub use marks::Marks;
pub use name::{NameBuf, NameKind, Place};
pub use reading::read_image;
pub use roles::{is_skip, unit_of};
pub use target::{
    branch_target, entry_of, is_inside, is_jump, only_inside, operand_word, return_target,
    target_of,
};
