//! The constant lines of a listing.

ghost use Rattle.std.specs.Prelude.{◌≡◌, ◌+◌, ◌-◌, ◌<◌, ◌≤◌, ℕ, IfSome, false, length};
ghost use Rattle.std.specs.Bool.{OnTrue};
ghost use Rattle.std.specs.List.{list_all};
ghost use Rattle.stmt65.specs.Words.{IsNameLong};
ghost use Rattle.map65.specs.Words.{has_name, place_of};
ghost use Rattle.da65.specs.Words.{IsAssignmentNext, IsConstant, IsConstantNext, MayBeConstantNext, PassesAll, PassesOver, PassesTo, base_name, has_constant_line, is_constant, is_unnamed, names_of, unnamed_len};

use crate::listing::base_names::put_base;
use crate::listing::comment_lines::comment_at;
use crate::listing::listed_image::ListedImage;
use crate::listing::place::ListingPlace;
use crate::listing::plain_lines::put_plain;
use map65::{ADDRESSES, Map, NameBuf, is_skip};
use std::alloc::Allocator;
use stmt65::{Line, Statement};

/// How many cells are looked at together: there are long stretches without a name.
const BLOCK: usize = 32;

/// Whether a constant line defines the base that stands for the address, if there is one: the address lies outside
/// the image, or its byte is skipped.
#[tactic(auto, using(crate::proofs::Names::BaseLemmas::constant_some, crate::proofs::Names::BaseLemmas::constant_none))]
fn has_constant<A: Allocator>(map: &Map<'_, A>, address: u16) -> bool
    ensures { result ≡ is_constant (place_of map.now address) }
{
    match map.role(address) {
        Some(role) => is_skip(role),
        None => true,
    }
}

/// Whether the address has a constant line. Then the buffer holds the name.
#[tactic(auto, using(crate::proofs::NextLine::NextLemmas::line_none, crate::proofs::Names::BaseLemmas::base_unnamed))]
fn is_named_constant<A: Allocator>(
    listed: &ListedImage<'_, A>,
    address: u16,
    name: &mut NameBuf,
) -> bool
    ensures is { result ≡ has_constant_line (names_of listed.now) address }
    ensures text { OnTrue result (name.new.items ≡ base_name (names_of listed.now) address) }
    ensures long { OnTrue result (IsNameLong name.new.items) }
{
    let map = listed.map();
    map.has_name(address) && has_constant(map, address) && put_base(map, address, name)
}

/// Whether the address of none of these cells of a map has a name. Each cell is looked at, so that the loop has no
/// second way out and takes many cells at a time.
fn are_unnamed(cells: &[u16]) -> bool
    ensures { result ≡ list_all is_unnamed cells.now }
{
    let mut unnamed = true;
    for cell in cells {
        unnamed = unnamed & (*cell / 128 % 2 == 0);
    }
    unnamed
}

/// The cells after a block of them without a name, if they begin with one.
fn after_unnamed(cells: &[u16]) -> Option<&[u16]>
    ensures len { IfSome result (λ after. length cells.now ≡ BLOCK + length after.now) }
    ensures unnamed { IfSome result (λ after. unnamed_len cells.now ≡ BLOCK + unnamed_len after.now) }
{
    if cells.len() < BLOCK {
        return None;
    }
    let (block, after) = cells.split_at(BLOCK);
    if are_unnamed(block) {
        Some(after)
    } else {
        None
    }
}

/// How many of these cells stand before the first whose address has a name, by each cell.
fn unnamed_in(cells: &[u16]) -> usize
    ensures value { result ≡ unnamed_len cells.now }
    ensures fits { result ≤ length cells.now }
{
    cells
        .iter()
        .take_while(|cell| **cell / 128 % 2 == 0)
        .count()
}

/// How many of these cells of a map stand before the first whose address has a name.
fn unnamed_before(cells: &[u16]) -> usize
    ensures value { result ≡ unnamed_len cells.now }
    ensures fits { result ≤ length cells.now }
{
    let mut rest = cells;
    'stretches: while let Some(after) = after_unnamed(rest) {
        rest = after;
    }
    cells.len() - rest.len() + unnamed_in(rest)
}

/// The first address from this one on that has a name, if it lies before `end`, else `end`.
fn named_from<A: Allocator>(map: &Map<'_, A>, from: usize, end: usize) -> usize
    requires order { from ≤ end }
    requires bound { end ≤ 65536 }
    ensures low { from ≤ result }
    ensures high { result ≤ end }
    ensures between { (a : ℕ) → from ≤ a → a < result → has_name map.now a ≡ false }
{
    let (before, _) = map.cells().split_at(end);
    let (_, cells) = before.split_at(from);
    from + unnamed_before(cells)
}

/// The first address from this one on and before `end` that has a constant line. The buffer holds its name.
fn constant_before<A: Allocator>(
    listed: &ListedImage<'_, A>,
    from: usize,
    end: usize,
    name: &mut NameBuf,
) -> Option<usize>
    requires order { from ≤ end }
    requires bound { end ≤ 65536 }
    ensures lines { PassesTo listed.now from end result }
    ensures is { IfSome result (λ v. IsConstant listed.now v) }
    ensures text { IfSome result (λ v. name.new.items ≡ base_name (names_of listed.now) v) }
    ensures long { IfSome result (λ v. IsNameLong name.new.items) }
{
    let map = listed.map();
    let mut at = named_from(map, from, end);
    'addresses: while at < end {
        if is_named_constant(listed, at as u16, name) {
            return Some(at);
        }
        at = named_from(map, at + 1, end);
    }
    None
}

/// The address from which on a constant line may follow: the end of an image of which each byte is listed if this
/// address lies in it, else this address.
#[tactic(auto, using(crate::proofs::NextLine::ConstantLemmas::constants_listed))]
fn after_listed<A: Allocator>(listed: &ListedImage<'_, A>, from: usize) -> usize
    requires { from ≤ 65536 }
    ensures lines { PassesOver listed.now from result }
    ensures bound { result ≤ 65536 }
{
    let start = listed.start();
    let end = start + listed.bytes().len();
    if listed.lists_all() && start <= from && from < end {
        end
    } else {
        from
    }
}

/// The first address from this one on that has a constant line. The buffer holds its name.
fn constant_from<A: Allocator>(
    listed: &ListedImage<'_, A>,
    from: usize,
    name: &mut NameBuf,
) -> Option<usize>
    requires { from ≤ 65536 }
    ensures lines { PassesAll listed.now from result }
    ensures is { IfSome result (λ v. IsConstant listed.now v) }
    ensures text { IfSome result (λ v. name.new.items ≡ base_name (names_of listed.now) v) }
    ensures long { IfSome result (λ v. IsNameLong name.new.items) }
{
    // No address of the image is looked at, if each byte of it is listed.
    let before = from.max(listed.start());
    if let Some(at) = constant_before(listed, from, before, name) {
        return Some(at);
    }
    constant_before(listed, after_listed(listed, before), ADDRESSES, name)
}

/// Replaces the buffer by the constant line of this address, which has this name, and returns the next place.
#[tactic(auto, using(crate::proofs::NextLine::NextLemmas::then_constant, crate::proofs::NextLine::NextLemmas::assignment_told))]
fn put_definition<A: Allocator>(
    out: &mut Line,
    listed: &ListedImage<'_, A>,
    address: usize,
    name: &[u8],
) -> ListingPlace
    requires is { IsConstant listed.now address }
    requires text { name.now ≡ base_name (names_of listed.now) address }
    requires long { IsNameLong name.now }
    ensures { IsAssignmentNext listed.now address out.new.items result }
{
    put_plain(out, listed.style(), &Statement::Const(name, address as u16));
    ListingPlace::Constant {
        address: address + 1,
        after_another: true,
    }
}

/// Replaces the buffer by the comment of the constant of this address, if there is one, else by its constant line, and
/// returns the next place.
#[tactic(auto, using(crate::proofs::Rules::put_constant_rules, std::proofs::lemmas::Grind::common_steps))]
fn put_constant<A: Allocator>(
    out: &mut Line,
    listed: &ListedImage<'_, A>,
    address: usize,
    name: &[u8],
) -> ListingPlace
    requires is { IsConstant listed.now address }
    requires text { name.now ≡ base_name (names_of listed.now) address }
    requires long { IsNameLong name.now }
    ensures { IsConstantNext listed.now address out.new.items result }
{
    if let Some(text) = comment_at(listed, address as u16) {
        put_plain(out, listed.style(), &Statement::Remark(text));
        return ListingPlace::Assignment { address };
    }
    put_definition(out, listed, address, name)
}

/// Replaces the buffer by the next line of constants from this address on, and returns the next place.
pub fn put_next_constant<A: Allocator>(
    out: &mut Line,
    listed: &ListedImage<'_, A>,
    from: usize,
) -> Option<ListingPlace>
    requires { from ≤ 65536 }
    ensures { MayBeConstantNext listed.now from out.new.items result }
{
    let mut name = NameBuf::new();
    let address = constant_from(listed, from, &mut name)?;
    Some(put_constant(out, listed, address, name.as_slice()))
}

/// Replaces the buffer by the constant line of this address, and returns the next place.
#[tactic(auto, using(crate::proofs::Rules::put_assignment_rules, std::proofs::lemmas::Grind::common_steps))]
pub fn put_assignment<A: Allocator>(
    out: &mut Line,
    listed: &ListedImage<'_, A>,
    address: usize,
) -> ListingPlace
    requires { IsConstant listed.now address }
    ensures { IsAssignmentNext listed.now address out.new.items result }
{
    let mut name = NameBuf::new();
    if !put_base(listed.map(), address as u16, &mut name) {
        unreachable!()
    }
    put_definition(out, listed, address, name.as_slice())
}
