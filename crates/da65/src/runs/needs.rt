//! Which files a run needs, by its options and its information file.

ghost use Rattle.std.specs.Prelude.{◌≡◌, IfOk};
ghost use Rattle.info65.specs.Words.{information};
ghost use Rattle.da65.specs.Words.{OfRead, needs_in};

use crate::runs::files::{Needs, needs_of, nothing};
use info65::{Info, InfoFault, InfoFaultKind, Options, read_info};
use std::alloc::{AllocError, Allocator};

/// Returns the names of the files that a run needs: the input, the output, and the include files in the order of their
/// groups. A name that two groups have stands there twice. If the information file is refused there are none, and
/// no file is to be opened or created. Fails only if memory runs out.
pub fn needs<A: Allocator + Copy, B: Allocator>(
    alloc: A,
    options: &Options<B>,
    info: &[u8],
) -> Result<Needs<A>, AllocError>
    /// Returns the names of the input, the output and the include files from options and information file, the
    /// include files in the order of their groups. Returns none if the information file is refused. Or out of
    /// memory.
    ensures { IfOk result (λ n. n ≡ needs_in (information options.now info.now)) }
{
    needs_read(alloc, &read_info(alloc, options, info))
}

/// Returns what [`needs`] returns for an information file that `info65::read_info` has read or refused.
pub fn needs_read<A: Allocator + Copy>(
    alloc: A,
    read: &Result<Info<A>, InfoFault>,
) -> Result<Needs<A>, AllocError>
    /// Returns the same as `needs`, for an information file that was read or refused beforehand.
    ensures { OfRead read.now (λ defined. IfOk result (λ n. n ≡ needs_in defined)) }
{
    match read {
        Ok(info) => needs_of(alloc, info),
        Err(fault) => {
            if fault.kind == InfoFaultKind::Memory {
                Err(AllocError)
            } else {
                Ok(nothing(alloc))
            }
        }
    }
}
