//! Reading an image.

ghost use Rattle.std.specs.Prelude.{◌≡◌, ◌+◌, ◌-◌, ◌^◌, ◌<◌, ◌≤◌, OnOk, take, drop, IfSome, IfOk, length};
ghost use Rattle.map65.specs.Words.{AreBytes, GivesImage, IsPlaced, IsReadTo, ReadCount, StopsAt, TakeCount, TakesNoMore, TakesUpTo, has_failed, image_of, most_of, read_limit};

use crate::devices::{Source, TakeFault, pass_over, take_up_to};
use crate::image::{Image, ImageFault};
use info65::Info;
use std::alloc::Allocator;

/// The most that is read if no size is given: one byte more than an image may have.
const LIMIT: usize = 65_537;

/// The bytes after the first `offset`, up to the end or `limit` of them.
fn take_after<A: Allocator, R: Source>(
    alloc: A,
    input: &mut R,
    offset: usize,
    limit: usize,
) -> Result<Vec<u8, A>, TakeFault>
    ensures bytes { IfOk result (λ v. IfSome (R.left input.old) (λ xs. v.items ≡ take limit (drop offset xs))) }
    ensures rest { OnOk result (IsReadTo (offset + limit) (R.left input.old) (R.left input.new)) }
    ensures bound { TakesUpTo (offset + limit) (R.left input.old) (R.left input.new) }
    ensures count { TakeCount result (R.faults input.old) (R.faults input.new) }
    ensures last { TakesNoMore result (R.failed input.new) }
{
    if pass_over(input, offset)? {
        take_up_to(alloc, input, limit)
    } else {
        Ok(Vec::new(alloc))
    }
}

fn most_of(size: Option<u32>) -> usize
    ensures { result ≡ most_of size }
{
    match size {
        Some(size) => size as usize,
        None => LIMIT,
    }
}

/// Reads the image that the settings ask for: passes over INPUTOFFS bytes, then reads INPUTSIZE bytes, or
/// without a size everything up to the end.
///
/// Reading stops at the end, at a failed read, or after INPUTOFFS and INPUTSIZE bytes; without a size, one
/// byte more than an image may have is read. The faults, in their order: `Read` if a read failed, `Short`
/// if the input has fewer than INPUTSIZE bytes, `Empty`, `TooLarge`. `Memory` is returned only if memory
/// ran out.
#[tactic(auto, unfolding(crate::specs::Image::image_of), using(crate::proofs::ReadLemmas::read))]
pub fn read_image<A: Allocator, R: Source>(
    alloc: A,
    info: &Info<A>,
    input: &mut R,
) -> Result<Image<A>, ImageFault>
    /// The image is the INPUTSIZE bytes after the first INPUTOFFS, or all of them without a size. It is returned
    /// exactly if the reader did not fail, there are at least INPUTSIZE bytes, at least one and at most 65,536, and
    /// they end at or below $FFFF. Otherwise the result is the first of the faults Read, Short, Empty, TooLarge; or
    /// out of memory.
    ensures image { R.faults input.old < 2 ^ 64 - 1 → IfSome (R.left input.old) (λ xs.
        GivesImage result (image_of info.now.settings xs (has_failed (R.faults input.old) (R.faults input.new)))) }
    /// The last byte of an image lies at or below $FFFF, and it has at least one.
    ensures placed { IfOk result (λ image. IsPlaced image) }
    /// The numbers of an image are bytes.
    ensures are_bytes { IfOk result (λ image. AreBytes image.bytes) }
    /// Unless memory runs out, reading stops at the end of the input or at its limit, and not before; or at the
    /// first read that fails, after which nothing more is read.
    ensures rest { StopsAt result (read_limit info.now.settings) (R.left input.old) (R.left input.new) (R.failed input.new) }
    /// In every outcome at most INPUTOFFS plus INPUTSIZE bytes have been read, or without a size INPUTOFFS plus 65,537.
    /// At most one read fails, exactly if the result is Read. This holds for every device.
    ensures bound { TakesUpTo (read_limit info.now.settings) (R.left input.old) (R.left input.new) }
    ensures count { ReadCount result (R.faults input.old) (R.faults input.new) }
{
    let settings = info.settings();
    let offset = settings.offset as usize;
    let bytes = take_after(alloc, input, offset, most_of(settings.size))?;
    Image::from_bytes(settings.start, settings.size, bytes)
}
