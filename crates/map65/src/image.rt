//! The image.

ghost use Rattle.std.specs.Prelude.{◌≡◌, IfOk};
ghost use Rattle.map65.specs.Words.{AreBytes, IsPlaced, image_by, is_short, start_of};

use crate::devices::TakeFault;
use std::alloc::{Allocator, Global};
use std::marker::Model;
use thiserror::Error;

/// The number of addresses, $10000.
pub const ADDRESSES: usize = 65_536;

/// 1 to 65,536 bytes at consecutive addresses, the last at or below $FFFF.
#[derive(Debug, Drop)]
pub struct Image<A: Allocator = Global> {
    start: u16,
    bytes: Vec<u8, A>,
}

impl<A: Allocator> Model for Image<A> {
    ghost use Rattle.map65.specs.ImageView.{ImageView, IsPlaced};

    ghost Value = { ImageView };

    ghost view = { λ a. record { start = a.start; bytes = a.bytes.items } };

    /// An image has 1 to 65,536 bytes, the last at or below $FFFF.
    ghost invariant = { λ a. IsPlaced (record { start = a.start; bytes = a.bytes.items }) };
}

impl<A: Allocator> Image<A> {
    /// Returns the address of the first byte.
    pub fn start(&self) -> u16
        /// Returns the address of the first byte.
        ensures { result ≡ self.now.start }
    {
        self.start
    }

    /// Returns the bytes, the one at the start first.
    pub fn bytes(&self) -> &[u8]
        /// Returns the bytes: at least one, the last at or below $FFFF.
        ensures bytes { result.now ≡ self.now.bytes }
        ensures placed { IsPlaced self.now }
    {
        self.bytes.as_slice()
    }

    /// Makes an image of these bytes, the first at this start; without a start the last is at $FFFF. Fails with
    /// `Short` if there are fewer bytes than the size, then with `Empty` if there is none, then with `TooLarge`.
    /// All bytes are taken, also where the size is smaller.
    #[tactic(auto, unfolding(crate::specs::Image::image_by))]
    pub fn from_bytes(
        start: Option<u16>,
        size: Option<u32>,
        bytes: Vec<u8, A>,
    ) -> Result<Image<A>, ImageFault>
        /// Takes all bytes that it is given. Fails first if there are fewer than the size, then if there are none,
        /// then if they are too many or end above $FFFF.
        ensures value { result ≡ image_by start size bytes.items }
        /// The numbers of an image are bytes.
        ensures are_bytes { IfOk result (λ image. AreBytes image.bytes) }
    {
        let count = bytes.len();
        if is_short(size, count) {
            return Err(ImageFault::Short);
        }
        if count == 0 {
            return Err(ImageFault::Empty);
        }
        if count > ADDRESSES {
            return Err(ImageFault::TooLarge);
        }
        let start = match start {
            Some(start) => start,
            None => (ADDRESSES - count) as u16,
        };
        if start as usize + count > ADDRESSES {
            return Err(ImageFault::TooLarge);
        }
        Ok(Image { start, bytes })
    }
}

fn is_short(size: Option<u32>, count: usize) -> bool
    ensures { result ≡ is_short size count }
{
    match size {
        Some(size) => count < size as usize,
        None => false,
    }
}

/// Why an input gives no image. The texts are those of da65's messages.
#[derive(Clone, Copy, Debug, PartialEq, Eq, Error)]
pub enum ImageFault {
    /// The input has no byte.
    #[error("input is empty")]
    Empty,
    /// The input has more than 65,536 bytes, or its last byte would lie above $FFFF.
    #[error("input is too large")]
    TooLarge,
    /// The input has fewer bytes than INPUTSIZE asks for.
    #[error("input is too short")]
    Short,
    /// The reader failed.
    #[error("cannot read the input")]
    Read,
    /// An allocation was refused.
    #[error("out of memory")]
    Memory,
}

impl From<TakeFault> for ImageFault {
    ghost use Rattle.map65.specs.Image.{image_fault};

    ghost from_gives = { λ f e. e ≡ image_fault f };

    fn from(fault: TakeFault) -> ImageFault {
        match fault {
            TakeFault::Read => ImageFault::Read,
            TakeFault::Memory => ImageFault::Memory,
        }
    }
}
