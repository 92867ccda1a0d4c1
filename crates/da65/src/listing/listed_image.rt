//! An image as it is listed.

ghost use Rattle.std.specs.Prelude.{◌≡◌, ◌+◌, ◌<◌, ◌≤◌, length, not};
ghost use Rattle.std.specs.List.{list_any};
ghost use Rattle.info65.specs.Words.{AreNames, AreSegments};
ghost use Rattle.map65.specs.Words.{IsPlaced};
ghost use Rattle.da65.specs.Words.{has_marks, is_skip_range, style_of};

use crate::listing::grouping::has_skip_range;
use crate::listing::marks::has_marks;
use crate::listing::style::{Style, style_of};
use info65::Info;
use isa65::DecodeTable;
use map65::Map;
use std::alloc::{Allocator, Global};
use std::marker::Model;

/// An image as it is listed: what its information and its map say, and how its lines
/// are written. A contract sees the map.
#[derive(Drop)]
pub struct ListedImage<'a, A: Allocator = Global> {
    map: &'a Map<'a, A>,
    style: Style,
    opcodes: DecodeTable,
    marked: bool,
    lists_all: bool,
}

impl<'a, A: Allocator> Model for ListedImage<'a, A> {
    ghost use Rattle.map65.specs.Words.{MapView};

    ghost Value = { MapView };

    ghost view = { λ l. l.map.now };

    ghost use Rattle.da65.specs.Lines.{IsListed};

    ghost invariant = { λ l. IsListed l.map.now l.style l.opcodes l.marked l.lists_all };
}

impl<'a, A: Allocator> ListedImage<'a, A> {
    /// The image of a map.
    #[tactic(auto, using(crate::proofs::NextLine::NextLemmas::style_cpu, std::proofs::lemmas::Grind::common_steps))]
    pub fn new(map: &'a Map<'a, A>) -> ListedImage<'a, A>
        ensures { result ≡ map.entry.now }
    {
        let info = map.info();
        let style = style_of(info.settings());
        let opcodes = DecodeTable::new(style.cpu);
        let marked = has_marks(info, &style);
        let lists_all = !has_skip_range(info.ranges());
        ListedImage {
            map,
            style,
            opcodes,
            marked,
            lists_all,
        }
    }

    /// The information of the map.
    pub fn info(&self) -> &'a Info<A>
        ensures info { result.now ≡ self.now.info }
        ensures names { AreNames result.now.names }
    {
        self.map.info()
    }

    /// The map.
    pub fn map(&self) -> &'a Map<'a, A>
        ensures map { result.now ≡ self.now }
        ensures names { AreNames result.now.info.names }
        ensures placed { IsPlaced result.now.image }
        ensures segments { AreSegments result.now.info.segments }
    {
        self.map
    }

    /// How lines are written.
    #[tactic(auto, using(crate::proofs::NextLine::NextLemmas::style_cpu))]
    pub fn style(&self) -> &Style
        ensures style { result.now ≡ style_of self.now.info.settings }
        ensures cpu { result.now.cpu ≡ self.now.info.settings.cpu }
    {
        &self.style
    }

    /// The opcodes of the CPU.
    pub fn opcodes(&self) -> &DecodeTable
        ensures { result.now ≡ self.now.info.settings.cpu }
    {
        &self.opcodes
    }

    /// Whether there may be separators, segments or comments.
    pub fn is_marked(&self) -> bool
        ensures { result ≡ has_marks self.now.info (style_of self.now.info.settings) }
    {
        self.marked
    }

    /// Whether each byte of the image is listed, since no range has the type SKIP.
    pub fn lists_all(&self) -> bool
        ensures { result ≡ not (list_any is_skip_range self.now.info.ranges) }
    {
        self.lists_all
    }

    /// The bytes of the image.
    pub fn bytes(&self) -> &'a [u8]
        ensures bytes { result.now ≡ self.now.image.bytes }
        ensures placed { IsPlaced self.now.image }
    {
        self.map.image().bytes()
    }

    /// The address of the first byte.
    pub fn start(&self) -> usize
        ensures start { result ≡ self.now.image.start }
        ensures bound { result ≤ 65536 }
        ensures placed { IsPlaced self.now.image }
    {
        usize::from(self.map.image().start())
    }

    /// The address of the byte of this index.
    pub fn address(&self, at: usize) -> u16
        requires { at < length self.now.image.bytes }
        ensures { result ≡ self.now.image.start + at }
    {
        (self.start() + at) as u16
    }
}
