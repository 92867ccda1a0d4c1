//! The map of an image.

ghost use Rattle.std.specs.Prelude.{◌≡◌, ◌≢◌, ◌+◌, ◌-◌, ◌/◌, ◌%◌, ◌<◌, ◌≤◌, ℕ, IfOk, IfSome, Some, length, option_copied, option_map, slice_index};
ghost use Rattle.std.specs.Bool.{OnTrue, OnFalse};
ghost use Rattle.info65.specs.Words.{covering, default_name, given_seen};
ghost use Rattle.map65.specs.Words.{AreCellsOf, IsBuilt, IsPlaced, IsSoundMap, bit, code_of, end_of, entry_base, entry_start, given_base, has_name, is_border, is_in_run, is_named, item_len, kind_at, kind_by, len_in_cell, mapped, place_in, place_of, role_at, role_in_cell, segment_at, text_at};

use crate::cells::{are_one_run, blank_cells, is_code, is_named, len_in, role_in};
use crate::image::{ADDRESSES, Image};
use crate::mapped_image::MappedImage;
use crate::marking::{mark_items, mark_roles};
use crate::name::{NameBuf, NameKind, Place, put_default, put_text};
use crate::naming::{entry_start_of, mark_covered, mark_own, mark_targets};
use crate::roles::is_skip;
use info65::{Given, Info, RangeType};
use std::alloc::{AllocError, Allocator, Global};
use std::marker::Model;

/// What each address of an image is. A map borrows the information and the image that it was built from.
#[derive(Drop)]
pub struct Map<'a, A: Allocator = Global> {
    info: &'a Info<A>,
    image: &'a Image<A>,
    cells: Vec<u16, A>,
}

impl<'a, A: Allocator> Model for Map<'a, A> {
    ghost use Rattle.map65.specs.MapView.{MapView, mapped};

    ghost Value = { MapView };

    ghost view = { λ m. record { info = m.info.now; image = m.image.now } };

    ghost use Rattle.map65.specs.Code.Cells.{IsBuilt};

    ghost invariant = { λ m. IsBuilt (mapped m.info.now m.image.now) m.cells.items };
}

impl<'a, A: Allocator> Map<'a, A> {
    /// Builds the map of an image. Fails if the allocation of its 65,536 cells fails.
    pub fn build(alloc: A, info: &'a Info<A>, image: &'a Image<A>) -> Result<Map<'a, A>, AllocError>
        /// Builds a map from the given information and image; or out of memory.
        ensures { IfOk result (λ m. m ≡ mapped info.entry.now image.entry.now) }
    {
        let mut cells = blank_cells(alloc, ADDRESSES)?;
        mark_all(cells.as_mut_slice(), info, image);
        Ok(Map { info, image, cells })
    }

    /// Returns the information that the map was built from.
    pub fn info(&self) -> &'a Info<A>
        /// Returns the information that the map was built from. Its names and its segments are sound.
        ensures info { result.now ≡ self.now.info }
        ensures sound { IsSoundMap self.now }
    {
        self.info
    }

    /// Returns the image that the map was built from.
    pub fn image(&self) -> &'a Image<A>
        /// Returns the image that the map was built from. It has at least one byte, the last at or below $FFFF.
        ensures image { result.now ≡ self.now.image }
        ensures placed { IsPlaced self.now.image }
    {
        self.image
    }

    /// Lends the cells of the map: one for each address from $0000 to $FFFF, in order.
    ///
    /// In the cell `c` of an address, `c % 16` is the code of its role: 0 outside the image, else 1 CODE, 2 BYTETABLE,
    /// 3 WORDTABLE, 4 DBYTETABLE, 5 ADDRTABLE, 6 RTSTABLE, 7 TEXTTABLE, 8 SKIP, 9 DWORDTABLE. `c / 16 % 8` is the
    /// length of the item that begins at the address, and 0 if none does. `c / 128 % 2` is 1 if the address has a name,
    /// else 0. The higher bits are private.
    pub fn cells(&self) -> &[u16]
        /// The 65,536 cells: of the cell c of an address, `c mod 16` is the code of its role (0 none, 1 CODE, 2
        /// BYTETABLE, 3 WORDTABLE, 4 DBYTETABLE, 5 ADDRTABLE, 6 RTSTABLE, 7 TEXTTABLE, 8 SKIP, 9 DWORDTABLE), `c /
        /// 16 mod 8` the length of the item that begins there, and `c / 128 mod 2` is 1 exactly when `Map::name`
        /// returns a name there. The rest is private.
        ensures { AreCellsOf self.now result.now }
    {
        self.cells.as_slice()
    }

    /// Returns the role of an address, and `None` outside the image.
    pub fn role(&self, address: u16) -> Option<RangeType>
        /// Returns the role of an address by the definition, for all 65,536 addresses. The call is given no
        /// allocator.
        ensures { result ≡ role_at self.now address }
    {
        role_in(self.cell(address))
    }

    /// Returns whether the role of an address is CODE.
    pub fn is_code(&self, address: u16) -> bool
        ensures code { OnTrue result (role_at self.now address ≡ Some RangeType.Code) }
        ensures other { OnFalse result (role_at self.now address ≢ Some RangeType.Code) }
    {
        is_code(self.cell(address))
    }

    /// Returns the length of the item that begins at the address, and 0 if none does.
    #[tactic(auto, using(crate::proofs::MarkingLemmas::item_fits))]
    pub fn item_len(&self, address: u16) -> u8
        /// Returns the length of the item that begins at an address by the definition, or 0, for all 65,536
        /// addresses. The call is given no allocator.
        ensures value { result ≡ item_len self.now address }
        /// An item ends in the image.
        ensures fits { 0 < result → address + result ≤ end_of self.now.image }
    {
        len_in(self.cell(address))
    }

    /// Returns whether the address lies in the run of the address before it: both lie in the image and have one role,
    /// and no segment begins or ends between them. A run begins at an address of the image for which this is false.
    #[tactic(auto, using(crate::proofs::RunLemmas::first_run, crate::proofs::RunLemmas::run_cells))]
    pub fn is_in_run(&self, address: u16) -> bool
        /// Returns whether an address lies in the run of the one before it, for all 65,536.
        ensures { result ≡ is_in_run self.now address }
    {
        if address == 0 {
            return false;
        }
        are_one_run(self.cell(address - 1), self.cell(address))
    }

    /// Returns the name of the segment that the address belongs to, and `None` outside all segments.
    #[tactic(auto, unfolding(crate::specs::Segments::segment_at))]
    pub fn segment_at(&self, address: u16) -> Option<&'a [u8]>
        /// The segment of an address is that of the group SEGMENT that it belongs to, for all 65,536 addresses.
        ensures { option_copied result ≡ segment_at self.now address }
    {
        self.info.segment_covering(address)
    }

    /// Returns whether the address has a name: whether [`Map::name`] returns one.
    pub fn has_name(&self, address: u16) -> bool
        /// Returns whether an address has a name.
        ensures { result ≡ has_name self.now address }
    {
        is_named(self.cell(address))
    }

    /// Returns where the base name of an address's name is defined and how far the address lies after the address of
    /// that name, and puts the base name in the buffer. If the address has no name, the buffer is empty.
    pub fn name(&self, address: u16, name: &mut NameBuf) -> Option<NameKind>
        /// Returns the name of an address by the definition, for all 65,536 addresses. The buffer is empty if the
        /// address has none. The call is given no allocator.
        ensures kind { result ≡ kind_at self.now address }
        ensures text { name.new.items ≡ text_at self.now address }
    {
        name.clear();
        if !is_named(self.cell(address)) {
            return None;
        }
        if let Some(given) = self.given(address) {
            return Some(self.put_given(given, address, name));
        }
        Some(self.put_entry_start(address, name))
    }

    /// The cell of the address.
    #[tactic(auto, using(crate::proofs::CellLemmas::named_test, crate::proofs::NamingLemmas::laid_cells))]
    fn cell(&self, address: u16) -> u16
        ensures role { role_in_cell result ≡ role_at self.now address }
        ensures len { len_in_cell result ≡ item_len self.now address }
        ensures named { is_named result ≡ has_name self.now address }
        ensures code { result % 16 ≡ code_of (role_at self.now address) }
        ensures border { result / 256 ≡ bit (is_border self.now.info.segments address) }
    {
        self.cells[usize::from(address)]
    }

    /// The first byte of the item that the address lies inside, in a table whose entries have more than one byte, and
    /// any other address itself.
    fn entry_start(&self, address: u16) -> u16
        ensures value { result ≡ entry_start self.now address }
        ensures below { result ≤ address }
    {
        entry_start_of(self.cells.as_slice(), address)
    }

    /// The name that is given to the address.
    fn given(&self, address: u16) -> Option<Given<'_>>
        ensures value { option_map given_seen result ≡ covering self.now.info.names address }
        ensures short { IfSome result (λ n. length n.text.now ≤ 80) }
        ensures below { IfSome result (λ n. n.address ≤ address) }
    {
        self.info.covering(address)
    }

    /// The place of a base at this address.
    #[tactic(auto, unfolding(crate::specs::Names::place_of))]
    fn place_of(&self, address: u16) -> Place
        ensures { result ≡ place_of self.now address }
    {
        let cell = self.cell(address);
        place_in(role_in(cell), len_in(cell))
    }

    /// Puts a given name in the buffer.
    fn put_given(&self, given: Given<'_>, address: u16, name: &mut NameBuf) -> NameKind
        requires short { length given.text.now ≤ 80 }
        requires below { given.address ≤ address }
        ensures kind { result ≡ kind_by self.now address (given_base (given_seen given.entry)) }
        ensures text { name.new.items ≡ given.entry.text.now }
    {
        put_text(name, given.text);
        NameKind {
            place: self.place_of(given.address),
            offset: address - given.address,
        }
    }

    /// Puts the name of the first byte of the address's item in the buffer.
    #[tactic(auto, using(crate::proofs::NameLemmas::entry_start_given, crate::proofs::NameLemmas::entry_start_default, std::proofs::lemmas::Grind::common_steps))]
    fn put_entry_start(&self, address: u16, name: &mut NameBuf) -> NameKind
        ensures kind { result ≡ kind_by self.now address (entry_base self.now address) }
        ensures text { name.new.items ≡ (entry_base self.now address).text }
    {
        let entry_start = self.entry_start(address);
        if let Some(given) = self.given(entry_start) {
            return self.put_given(given, address, name);
        }
        put_default(name, entry_start);
        NameKind {
            place: self.place_of(entry_start),
            offset: address - entry_start,
        }
    }
}

/// Writes roles, borders, items and names into cells that hold 0.
fn mark_all<A: Allocator>(cells: &mut [u16], info: &Info<A>, image: &Image<A>)
    requires count { length cells.old ≡ 65536 }
    requires blank { (a : ℕ) → a < 65536 → slice_index cells.old a ≡ 0 }
    ensures { IsBuilt (mapped info.now image.now) cells.new }
{
    mark_roles(cells, info, image);
    mark_own(cells, info);
    let mapped = MappedImage::new(info, image);
    mark_items(cells, &mapped);
    mark_covered(cells, info);
    mark_targets(cells, &mapped);
}

/// The place of a base, by the role of its address and the length of the item that begins there.
fn place_in(role: Option<RangeType>, len: u8) -> Place
    ensures { result ≡ place_in role len }
{
    let Some(role) = role else {
        return Place::Constant;
    };
    if is_skip(role) {
        Place::Constant
    } else if len == 0 {
        Place::Forward
    } else {
        Place::Label
    }
}
