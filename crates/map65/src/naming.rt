//! Marks the addresses that have a name in the cells of a map.

ghost use Rattle.std.specs.Prelude.{◌≡◌, ◌==◌, ◌+◌, ◌<◌, ◌≤◌, length, max};
ghost use Rattle.info65.specs.Words.{AreNames, given_seen, name_at};
ghost use Rattle.map65.specs.Words.{AreCells, AreNamed, Changes, IsLaid, IsPlaced, KeepsLay, MapView, end_of, entry_start, is_covered, is_own, is_within, nowhere, refers, with_name};

use crate::cells::{is_wide_cell, len_in, role_in, with_name};
use crate::mapped_image::MappedImage;
use crate::target::target_at;
use info65::{Given, Info};
use std::alloc::Allocator;

/// Sets the bit for a name in the address's cell.
#[tactic(auto, using(crate::proofs::ChangeLemmas::changes_one))]
fn mark(cells: &mut [u16], address: u16)
    requires { length cells.old ≡ 65536 }
    ensures { Changes with_name (λ a. address == a) cells.old cells.new }
{
    let at = usize::from(address);
    cells[at] = with_name(cells[at]);
}

// ---- given names

/// Marks the own address of each given name in cells without marks.
pub fn mark_own<A: Allocator>(cells: &mut [u16], info: &Info<A>)
    requires count { length cells.old ≡ 65536 }
    requires named { AreNamed nowhere cells.old }
    ensures keeps { KeepsLay cells.old cells.new }
    ensures named { AreNamed (is_own info.now.names) cells.new }
    ensures sound { AreNames info.now.names }
{
    for i in 0..info.given_count() {
        mark(cells, info.given(i).address);
    }
}

/// Marks the addresses from `from` to before `to`.
#[tactic(auto, using(crate::proofs::CellLemmas::with_name_again, crate::proofs::ChangeLemmas::spans))]
fn mark_span(cells: &mut [u16], from: usize, to: usize)
    requires count { length cells.old ≡ 65536 }
    requires room { to ≤ 65536 }
    ensures { Changes with_name (is_within from to) cells.old cells.new }
{
    for at in from..to {
        cells[at] = with_name(cells[at]);
    }
}

/// Marks the addresses that the name covers, but for those below `reach`, and returns how far it and the names
/// before it reach.
fn mark_name(cells: &mut [u16], name: Given<'_>, reach: usize) -> usize
    requires count { length cells.old ≡ 65536 }
    requires room { name.address + name.size ≤ 65536 }
    ensures marked { Changes with_name (is_within (max name.entry.address reach)
        (name.entry.address + name.entry.size)) cells.old cells.new }
    ensures reach { result ≡ max reach (name.entry.address + name.entry.size) }
{
    let first = usize::from(name.address);
    let end = first + name.size as usize;
    mark_span(cells, first.max(reach), end);
    reach.max(end)
}

/// Marks all addresses that a given name covers, besides the own addresses that are marked.
///
/// Names ascend by address, so an address below the reach of the names before is marked already, and the time
/// grows with the number of names and of marked addresses, however much the names overlap.
pub fn mark_covered<A: Allocator>(cells: &mut [u16], info: &Info<A>)
    requires count { length cells.old ≡ 65536 }
    requires named { AreNamed (is_own info.now.names) cells.old }
    ensures keeps { KeepsLay cells.old cells.new }
    ensures named { AreNamed (is_covered info.now.names) cells.new }
{
    let mut reach = 0;
    for i in 0..info.given_count() {
        reach = mark_name(cells, info.given(i), reach);
    }
}

// ---- targets

/// Returns the first byte of the item that the address lies inside, in a table whose entries have more than one
/// byte, and any other address itself.
pub fn entry_start_of(cells: &[u16], address: u16) -> u16
    requires { length cells.now ≡ 65536 }
    ensures value { (m : MapView) → IsLaid m cells.now → result ≡ entry_start m address }
    ensures below { result ≤ address }
{
    if !is_wide_cell(cells[usize::from(address)]) {
        return address;
    }
    let mut at = address;
    'back: while 0 < at && len_in(cells[usize::from(at)]) == 0 {
        at -= 1;
    }
    at
}

/// Marks the target of the item that begins at the address, and the first byte of the table's item that the target
/// lies inside.
fn mark_target<A: Allocator>(cells: &mut [u16], mapped: &MappedImage<'_, A>, address: u16)
    requires low { mapped.now.image.start ≤ address }
    requires high { address < end_of mapped.now.image }
    requires laid { IsLaid mapped.now cells.old }
    ensures { Changes with_name (λ a. refers mapped.now a address) cells.old cells.new }
{
    let cell = cells[usize::from(address)];
    let len = len_in(cell);
    // No item of one byte has a target.
    if len < 2 {
        return;
    }
    let role = role_in(cell).unwrap();
    if let Some(target) = target_at(mapped, role, len, address) {
        let first = entry_start_of(cells, target);
        mark(cells, target);
        mark(cells, first);
    }
}

/// Marks the targets of all items, besides the addresses that given names cover.
pub fn mark_targets<A: Allocator>(cells: &mut [u16], mapped: &MappedImage<'_, A>)
    requires laid { IsLaid mapped.now cells.old }
    requires named { AreNamed (is_covered mapped.now.info.names) cells.old }
    ensures { AreCells mapped.now cells.new }
{
    let image = mapped.image();
    let start = usize::from(image.start());
    for k in 0..image.bytes().len() {
        mark_target(cells, mapped, (start + k) as u16);
    }
}
