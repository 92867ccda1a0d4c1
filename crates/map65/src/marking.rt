//! Writes roles, and then the lengths of items, into the cells of a map.

ghost use Rattle.std.specs.Prelude.{◌≡◌, ◌+◌, ◌-◌, ◌<◌, ◌≤◌, ◌&&◌, ℕ, [], length, slice_index};
ghost use Rattle.isa65.specs.Words.{decoded, table_of};
ghost use Rattle.info65.specs.Words.{AreSegments, has_address};
ghost use Rattle.map65.specs.Words.{AreMarkedBelow, AreNamed, ArePainted, Changes, IsLaid, IsPlaced, code_size, end_of, full_len_at, is_cut, is_inside, is_joined_in, is_own, is_within, item_start, mapped, nowhere, painted, role_of, size_at};

use crate::borders::mark_borders;
use crate::cells::{are_one_run, cell_of, is_named, is_wide_cell, role_in, with_len};
use crate::image::Image;
use crate::mapped_image::MappedImage;
use crate::roles::is_skip;
use info65::{Info, RangeSpec, RangeType};
use isa65::{DecodeTable, OpcodeSet};
use std::alloc::Allocator;

// ---- roles

/// Writes the role into the cells from `from` to before `to`.
#[tactic(auto, using(crate::proofs::ChangeLemmas::spans))]
fn paint(cells: &mut [u16], from: usize, to: usize, role: RangeType)
    requires count { length cells.old ≡ 65536 }
    requires room { to ≤ 65536 }
    ensures { Changes (painted role) (is_within from to) cells.old cells.new }
{
    let cell = cell_of(Some(role), 0);
    for at in from..to {
        cells[at] = cell;
    }
}

/// Writes the role of the range into the cells of those addresses of the image that belong to it.
#[tactic(auto, using(crate::proofs::ChangeLemmas::changes_as, crate::proofs::PaintLemmas::range_within))]
fn paint_range<A: Allocator>(cells: &mut [u16], image: &Image<A>, range: RangeSpec)
    requires { length cells.old ≡ 65536 }
    ensures { Changes (painted range.role)
        (λ a. is_inside image.now a && has_address range a) cells.old cells.new }
{
    let start = usize::from(image.start());
    let end = start + image.bytes().len();
    let from = usize::from(range.first).max(start);
    let to = (usize::from(range.last) + 1).min(end).max(from);
    paint(cells, from, to, range.role);
}

/// Writes CODE into the cells of the image.
fn paint_code<A: Allocator>(cells: &mut [u16], image: &Image<A>)
    requires count { length cells.old ≡ 65536 }
    requires blank { (a : ℕ) → a < 65536 → slice_index cells.old a ≡ 0 }
    ensures { ArePainted image.now [] cells.new }
{
    let start = usize::from(image.start());
    let end = start + image.bytes().len();
    paint(cells, start, end, RangeType::Code);
}

/// Writes the role of each address of the image into its cell, and marks the segment borders.
///
/// The ranges are written from the last to the first, each over what the cells held.
pub fn mark_roles<A: Allocator>(cells: &mut [u16], info: &Info<A>, image: &Image<A>)
    requires count { length cells.old ≡ 65536 }
    requires blank { (a : ℕ) → a < 65536 → slice_index cells.old a ≡ 0 }
    ensures marked { AreMarkedBelow (mapped info.now image.now) 0 cells.new }
    ensures named { AreNamed nowhere cells.new }
    ensures sound { AreSegments info.now.segments }
{
    paint_code(cells, image);
    let ranges = info.ranges();
    let mut left = ranges.len();
    'painting: while 0 < left {
        left -= 1;
        let range = ranges[left];
        paint_range(cells, image, range);
    }
    mark_borders(cells, info);
}

// ---- items

/// Whether a given name cuts the run before the address of this cell: in a table whose entries have more than one byte
/// it has the address as its own.
fn is_cut(cell: u16) -> bool
    ensures { result ≡ is_cut cell }
{
    is_named(cell) && is_wide_cell(cell)
}

/// Whether the address lies in the piece of the one before it, by their cells.
#[tactic(auto, unfolding(crate::specs::Code::Marking::is_joined_in))]
fn is_joined_in(cells: &[u16], at: usize) -> bool
    requires { 0 < at }
    ensures { result ≡ is_joined_in cells.now at }
{
    at < cells.len() && are_one_run(cells[at - 1], cells[at]) && !is_cut(cells[at])
}

/// The length of an instruction with this opcode, and 1 for an undefined one.
fn code_size(opcodes: &DecodeTable, byte: u8) -> u8
    ensures value { result ≡ code_size (decoded (table_of opcodes.now) byte) }
    ensures positive { 1 ≤ result }
    ensures small { result ≤ 3 }
{
    match opcodes.decode(byte) {
        Some(op) => op.mode.len(),
        None => 1,
    }
}

/// Returns the length of an item of this role that begins at the address, if its piece has room for it.
#[tactic(auto, unfolding(crate::specs::Items::full_len_at))]
fn full_len_at<A: Allocator>(mapped: &MappedImage<'_, A>, role: RangeType, address: u16) -> u8
    requires low { mapped.now.image.start ≤ address }
    requires high { address < end_of mapped.now.image }
    requires role { role ≡ role_of mapped.now.info address }
    ensures value { result ≡ full_len_at mapped.now address }
    ensures positive { 1 ≤ result }
    ensures small { result ≤ 4 }
{
    match role {
        RangeType::Code => {
            let image = mapped.image();
            let byte = image.bytes()[usize::from(address - image.start())];
            code_size(mapped.opcodes(), byte)
        }
        _ => role.layout().unit,
    }
}

/// Returns the length of the item that begins at the address: 1 if its piece ends before it would.
fn size_at<A: Allocator>(
    cells: &[u16],
    mapped: &MappedImage<'_, A>,
    role: RangeType,
    address: u16,
) -> u8
    requires placed { IsPlaced mapped.now.image }
    requires low { mapped.now.image.start ≤ address }
    requires high { address < end_of mapped.now.image }
    requires role { role ≡ role_of mapped.now.info address }
    requires marked { AreMarkedBelow mapped.now address cells.now }
    requires own { AreNamed (is_own mapped.now.info.names) cells.now }
    ensures value { result ≡ size_at mapped.now address }
    ensures positive { 1 ≤ result }
    ensures small { result ≤ 4 }
{
    let full_len = full_len_at(mapped, role, address);
    let first = usize::from(address);
    for i in 0..full_len - 1 {
        if !is_joined_in(cells, first + usize::from(i) + 1) {
            return 1;
        }
    }
    full_len
}

/// Writes the length of the item that begins at the address, and returns it. A skipped byte is no item, and
/// has length 1.
fn mark_item<A: Allocator>(cells: &mut [u16], mapped: &MappedImage<'_, A>, address: u16) -> u8
    requires placed { IsPlaced mapped.now.image }
    requires low { mapped.now.image.start ≤ address }
    requires high { address < end_of mapped.now.image }
    requires begins { item_start mapped.now address ≡ address }
    requires marked { AreMarkedBelow mapped.now address cells.old }
    requires own { AreNamed (is_own mapped.now.info.names) cells.old }
    ensures positive { 1 ≤ result }
    ensures small { result ≤ 4 }
    ensures begins { item_start mapped.now (address + result) ≡ address + result }
    ensures marked { AreMarkedBelow mapped.now (address + result) cells.new }
    ensures own { AreNamed (is_own mapped.now.info.names) cells.new }
{
    let at = usize::from(address);
    let role = role_in(cells[at]).unwrap();
    let len = size_at(cells, mapped, role, address);
    if !is_skip(role) {
        cells[at] = with_len(cells[at], len);
    }
    len
}

/// Writes the length of each item into the cell where it begins.
pub fn mark_items<A: Allocator>(cells: &mut [u16], mapped: &MappedImage<'_, A>)
    requires marked { AreMarkedBelow mapped.now 0 cells.old }
    requires own { AreNamed (is_own mapped.now.info.names) cells.old }
    ensures laid { IsLaid mapped.now cells.new }
    ensures own { AreNamed (is_own mapped.now.info.names) cells.new }
    ensures placed { IsPlaced mapped.now.image }
{
    let image = mapped.image();
    let mut at = usize::from(image.start());
    let end = at + image.bytes().len();
    'items: while at < end {
        let len = mark_item(cells, mapped, at as u16);
        at += usize::from(len);
    }
}
