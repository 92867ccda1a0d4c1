//! Addresses by their names.

ghost use Rattle.std.specs.Prelude.{◌≡◌, option_map};
ghost use Rattle.std.specs.Bool.{OnTrue};
ghost use Rattle.info65.specs.Words.{AreNames};
ghost use Rattle.stmt65.specs.Words.{IsNameLong, expr_seen, target_seen};
ghost use Rattle.da65.specs.Words.{address_expr, base_name, constant_offset, is_base, is_defined, is_own_name, names_of, target_at, zero_page_expr};

use map65::{Map, NameBuf, NameKind, Place};
use std::alloc::Allocator;
use stmt65::{Expr, Target};

/// Whether a name has no offset.
fn is_own_name(kind: Option<NameKind>) -> bool
    ensures { result ≡ is_own_name kind }
{
    match kind {
        Some(kind) => kind.offset == 0,
        None => false,
    }
}

/// The offset of a name whose base a constant line defines.
fn constant_offset(kind: Option<NameKind>) -> Option<u16>
    ensures { result ≡ constant_offset kind }
{
    let kind = kind?;
    match kind.place {
        Place::Constant => Some(kind.offset),
        Place::Label | Place::Forward => None,
    }
}

/// Puts the base that stands for the address in the buffer, and returns whether there is one: whether the address is
/// defined by name.
#[tactic(auto, using(crate::proofs::Names::BaseLemmas::base_own, crate::proofs::Names::BaseLemmas::put_text, crate::proofs::Names::BaseLemmas::put_long))]
pub fn put_base<A: Allocator>(map: &Map<'_, A>, address: u16, name: &mut NameBuf) -> bool
    requires { AreNames map.now.info.names }
    ensures is { result ≡ is_base (names_of map.now) address }
    ensures text { OnTrue result (name.new.items ≡ base_name (names_of map.now) address) }
    ensures long { OnTrue result (IsNameLong name.new.items) }
{
    is_own_name(map.name(address, name))
}

/// Whether the address is defined by name.
#[tactic(auto, using(crate::proofs::Names::BaseLemmas::base_unnamed))]
pub fn is_defined<A: Allocator>(map: &Map<'_, A>, address: u16) -> bool
    requires { AreNames map.now.info.names }
    ensures { result ≡ is_defined map.now address }
{
    if !map.has_name(address) {
        return false;
    }
    let mut name = NameBuf::new();
    put_base(map, address, &mut name)
}

/// The address by its name, if it has one.
#[tactic(auto, using(crate::proofs::Names::BaseLemmas::expr_named, crate::proofs::Names::BaseLemmas::expr_number))]
pub fn address_expr<'n, A: Allocator>(
    map: &Map<'_, A>,
    address: u16,
    name: &'n mut NameBuf,
) -> Expr<'n>
    requires { AreNames map.now.info.names }
    ensures { expr_seen result ≡ address_expr (names_of map.now) address }
{
    match map.name(address, name) {
        Some(kind) => Expr::Name(name.as_slice(), kind.offset),
        None => Expr::Number(address),
    }
}

/// The address of a zero-page operand: by its name only if a constant line defines the base of that name.
#[tactic(auto, using(crate::proofs::Names::BaseLemmas::zero_named, crate::proofs::Names::BaseLemmas::zero_number))]
pub fn zero_page_expr<'n, A: Allocator>(
    map: &Map<'_, A>,
    address: u8,
    name: &'n mut NameBuf,
) -> Expr<'n>
    requires { AreNames map.now.info.names }
    ensures { expr_seen result ≡ zero_page_expr (names_of map.now) address }
{
    let address = u16::from(address);
    match constant_offset(map.name(address, name)) {
        Some(offset) => Expr::Name(name.as_slice(), offset),
        None => Expr::Number(address),
    }
}

/// The address as a target, if it has a name.
#[tactic(auto, using(crate::proofs::Names::BaseLemmas::target_named, crate::proofs::Names::BaseLemmas::target_none))]
pub fn target<'n, A: Allocator>(
    map: &Map<'_, A>,
    address: u16,
    name: &'n mut NameBuf,
) -> Option<Target<'n>>
    requires { AreNames map.now.info.names }
    ensures { option_map target_seen result ≡ target_at map.now address }
{
    match map.name(address, name) {
        Some(kind) => Some(Target {
            name: name.as_slice(),
            offset: kind.offset,
        }),
        None => None,
    }
}
