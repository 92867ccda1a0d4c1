//! Which items stand on one line.

ghost use Rattle.std.specs.Prelude.{◌≡◌, ◌+◌, ◌<◌, ◌≤◌, true};
ghost use Rattle.std.specs.List.{list_any};
ghost use Rattle.info65.specs.Words.{AreNames};
ghost use Rattle.map65.specs.Words.{IsPlaced, end_of, is_inside, is_skip, item_len, role_at, role_of};
ghost use Rattle.da65.specs.Words.{goes_on, group_len, is_skip_range, is_whole, limit_at, limit_of, more_at, skips};

use crate::listing::base_names::is_defined;
use info65::{RangeSpec, RangeType};
use map65::{ADDRESSES, Map, is_skip, unit_of};
use std::alloc::Allocator;

/// How many items a line of this role takes at most.
fn limit_of(role: RangeType) -> usize
    ensures limit { result ≡ limit_of role }
    ensures some { 1 ≤ result }
{
    usize::from(role.layout().per_line)
}

/// The role of an address, none outside the image.
#[tactic(auto, using(crate::proofs::Groups::RoleLemmas::role_outside))]
fn role_of<A: Allocator>(map: &Map<'_, A>, address: usize) -> Option<RangeType>
    requires { IsPlaced map.now.image }
    ensures { result ≡ role_at map.now address }
{
    if address < ADDRESSES {
        map.role(address as u16)
    } else {
        None
    }
}

/// How long the item is that begins at the address, and 0 where none does.
#[tactic(auto, using(crate::proofs::Groups::RoleLemmas::item_outside))]
fn item_len<A: Allocator>(map: &Map<'_, A>, address: usize) -> usize
    requires { IsPlaced map.now.image }
    ensures len { result ≡ item_len map.now address }
    ensures fits { 0 < result → address + result ≤ end_of map.now.image }
{
    if address < ADDRESSES {
        map.item_len(address as u16) as usize
    } else {
        0
    }
}

/// Whether the item at an address of this role is as long as those of the role's tables: it is not left
/// over.
fn is_whole<A: Allocator>(map: &Map<'_, A>, role: RangeType, address: usize) -> bool
    requires placed { IsPlaced map.now.image }
    requires role { role_of map.now.info address ≡ role }
    ensures { result ≡ is_whole map.now address }
{
    item_len(map, address) == unit_of(role) as usize
}

/// Whether the item at an address may stand on the line of the one before it: it is of the same piece,
/// whole, and not defined by name. A given name that cuts a run defines its address, so that the run is
/// looked at here, and not the piece.
#[tactic(auto, using(crate::proofs::Groups::RoleLemmas::outside_stops, crate::proofs::Groups::RoleLemmas::role_some, crate::proofs::Groups::RoleLemmas::role_low, crate::proofs::Groups::RoleLemmas::goes_run))]
fn goes_on<A: Allocator>(map: &Map<'_, A>, address: usize) -> bool
    requires placed { IsPlaced map.now.image }
    requires names { AreNames map.now.info.names }
    ensures { result ≡ goes_on map.now address }
{
    let Some(role) = role_of(map, address) else {
        return false;
    };
    map.is_in_run(address as u16)
        && is_whole(map, role, address)
        && !is_defined(map, address as u16)
}

/// How many bytes the items have that go on from an address, of so many at most.
#[inline(never)]
#[tactic(auto, using(crate::proofs::Rules::more_at_rules, std::proofs::lemmas::Grind::common_steps), unfolding(crate::specs::Groups::more_at))]
fn more_at<A: Allocator>(map: &Map<'_, A>, limit: usize, address: usize) -> usize
    requires placed { IsPlaced map.now.image }
    requires names { AreNames map.now.info.names }
    requires inside { address ≤ end_of map.now.image }
    ensures bytes { result ≡ more_at map.now limit address }
    ensures fits { address + result ≤ end_of map.now.image }
{
    let mut at = address;
    let mut left = limit;
    'items: while 0 < left {
        if !goes_on(map, at) {
            return at - address;
        }
        at += item_len(map, at);
        left -= 1;
    }
    at - address
}

/// How many items the line takes that begins with the item at an address of this role.
fn limit_at<A: Allocator>(map: &Map<'_, A>, role: RangeType, address: usize) -> usize
    requires placed { IsPlaced map.now.image }
    requires role { role_of map.now.info address ≡ role }
    ensures limit { result ≡ limit_at map.now address }
    ensures some { 1 ≤ result }
{
    if is_whole(map, role, address) {
        limit_of(role)
    } else {
        1
    }
}

/// How many bytes the group has that begins with the item at an address of the image: that item, and those that go on,
/// as many as the line takes. Allocates nothing.
#[inline(always)]
#[tactic(auto, using(crate::proofs::Rules::group_len_rules, std::proofs::lemmas::Grind::common_steps), unfolding(crate::specs::Groups::group_len))]
pub fn group_len<A: Allocator>(map: &Map<'_, A>, address: u16) -> usize
    requires placed { IsPlaced map.now.image }
    requires names { AreNames map.now.info.names }
    requires inside { is_inside map.now.image address ≡ true }
    requires begins { 0 < item_len map.now address }
    ensures len { result ≡ group_len map.now address }
    ensures fits { address + result ≤ end_of map.now.image }
{
    let first = usize::from(map.item_len(address));
    // Most items are of code, and each of them stands alone.
    if map.is_code(address) {
        return first;
    }
    let at = usize::from(address);
    let limit = limit_at(map, role_inside(map, address), at);
    first + more_at(map, limit - 1, at + first)
}

/// The role of an address of the image.
#[tactic(auto, using(crate::proofs::Groups::RoleLemmas::role_there))]
pub fn role_inside<A: Allocator>(map: &Map<'_, A>, address: u16) -> RangeType
    requires { is_inside map.now.image address ≡ true }
    ensures { result ≡ role_of map.now.info address }
{
    map.role(address).unwrap()
}

/// Whether the byte at an address of the image is skipped.
pub fn is_skipped<A: Allocator>(map: &Map<'_, A>, address: u16) -> bool
    requires { is_inside map.now.image address ≡ true }
    ensures { result ≡ is_skip (role_of map.now.info address) }
{
    is_skip(role_inside(map, address))
}

/// Whether a range has the type SKIP.
pub fn has_skip_range(ranges: &[RangeSpec]) -> bool
    ensures { result ≡ list_any is_skip_range ranges.now }
{
    ranges.iter().any(|range| is_skip(range.role))
}

/// Whether a byte of the image is skipped. Allocates nothing.
#[tactic(auto, using(crate::proofs::Groups::SkipLemmas::no_skips))]
pub fn has_skipped<A: Allocator>(map: &Map<'_, A>) -> bool
    ensures { result ≡ skips map.now }
{
    has_skip_range(map.info().ranges()) && is_any_skipped(map)
}

/// Whether a byte of the image is skipped, by each byte.
#[tactic(auto, using(crate::proofs::Rules::is_any_skipped_rules, std::proofs::lemmas::Grind::common_steps), unfolding(crate::specs::Groups::skips))]
fn is_any_skipped<A: Allocator>(map: &Map<'_, A>) -> bool
    ensures { result ≡ skips map.now }
{
    let image = map.image();
    let start = image.start() as usize;
    let end = start + image.bytes().len();
    for address in start..end {
        if is_skipped(map, address as u16) {
            return true;
        }
    }
    false
}
