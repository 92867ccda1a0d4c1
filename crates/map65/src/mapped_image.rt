//! An image as it is mapped.

ghost use Rattle.std.specs.Prelude.{◌≡◌};
ghost use Rattle.map65.specs.Words.{mapped};

use crate::image::Image;
use info65::Info;
use isa65::DecodeTable;
use std::alloc::Allocator;
use std::marker::Model;

/// An image as it is mapped: with the information on it, and the opcodes of its CPU. A contract sees the map.
#[derive(Drop)]
pub struct MappedImage<'a, A: Allocator> {
    info: &'a Info<A>,
    image: &'a Image<A>,
    opcodes: DecodeTable,
}

impl<'a, A: Allocator> Model for MappedImage<'a, A> {
    ghost use Rattle.std.specs.Prelude.{◌≡◌};
    ghost use Rattle.map65.specs.MapView.{MapView, mapped};

    ghost Value = { MapView };

    ghost view = { λ m. mapped m.info.now m.image.now };

    ghost invariant = { λ m. m.opcodes ≡ m.info.now.settings.cpu };
}

impl<'a, A: Allocator> MappedImage<'a, A> {
    pub fn new(info: &'a Info<A>, image: &'a Image<A>) -> MappedImage<'a, A>
        ensures { result ≡ mapped info.entry.now image.entry.now }
    {
        let opcodes = DecodeTable::new(info.settings().cpu);
        MappedImage {
            info,
            image,
            opcodes,
        }
    }

    pub fn image(&self) -> &'a Image<A>
        ensures { result.now ≡ self.now.image }
    {
        self.image
    }

    pub fn opcodes(&self) -> &DecodeTable
        ensures { result.now ≡ self.now.info.settings.cpu }
    {
        &self.opcodes
    }
}
