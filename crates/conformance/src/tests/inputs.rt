// Information files, as the tests hand them in.
use info65::{Info, Options, read_info};
use std::alloc::{AllocGlobal, Global};
use std::process::Abort;

/// What an information file that is accepted says, without options.
pub fn info_of(rt: &(impl AllocGlobal + Abort), text: &[u8]) -> Info {
    read_info(rt.alloc(), &Options::<Global>::none(), text).expect(rt, "read_info")
}
