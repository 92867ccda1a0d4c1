//! Devices: what bytes are read from and written to.

mod device;
mod taking;
mod told;
mod writing;

pub use device::{DeviceFault, Sink, Source};
pub use taking::{TakeFault, pass_over, take_up_to};
pub use told::Told;
pub use writing::write_whole;
