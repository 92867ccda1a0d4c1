//! Cells: a role, the length of an item, and bits for a name and for a segment border, packed into 16 bits.
//!
//! From the lowest bit on: four bits for the code of the role, three for the length, one for a name, one for a border.

ghost use Rattle.std.specs.Prelude.{◌≡◌, ◌≢◌, ◌<◌, ℕ, IfOk, Some, slice_index, vec_len};
ghost use Rattle.std.specs.Bool.{OnTrue, OnFalse};
ghost use Rattle.map65.specs.Words.{are_one_run, cell_of, code_of, coded, has_border, is_named, is_wide_cell, len_in_cell, role_in_cell, with_border, with_len, with_name};

use crate::roles::is_wide;
use info65::RangeType;
use std::alloc::{AllocError, Allocator};

/// The lowest bit of the length. The code of the role is below it.
const LENGTH: u16 = 16;

/// The first length that has no room.
const LENGTHS: u16 = 8;

/// The bit for a name.
const NAME: u16 = 128;

/// The bit for a segment border before the address.
const BORDER: u16 = 256;

/// The code of a role, and 0 outside the image.
#[tactic(auto, unfolding(crate::specs::Cells::code_of))]
fn code_of(role: Option<RangeType>) -> u16
    ensures value { result ≡ code_of role }
    ensures small { result < 16 }
{
    match role {
        None => 0,
        Some(RangeType::Code) => 1,
        Some(RangeType::ByteTable) => 2,
        Some(RangeType::WordTable) => 3,
        Some(RangeType::DbyteTable) => 4,
        Some(RangeType::AddrTable) => 5,
        Some(RangeType::RtsTable) => 6,
        Some(RangeType::TextTable) => 7,
        Some(RangeType::Skip) => 8,
        Some(RangeType::DwordTable) => 9,
    }
}

/// The role that has this code.
#[tactic(auto, unfolding(crate::specs::Code::Cells::coded))]
fn coded(code: u16) -> Option<RangeType>
    ensures { result ≡ coded code }
{
    match code {
        1 => Some(RangeType::Code),
        2 => Some(RangeType::ByteTable),
        3 => Some(RangeType::WordTable),
        4 => Some(RangeType::DbyteTable),
        5 => Some(RangeType::AddrTable),
        6 => Some(RangeType::RtsTable),
        7 => Some(RangeType::TextTable),
        8 => Some(RangeType::Skip),
        9 => Some(RangeType::DwordTable),
        _ => None,
    }
}

/// Packs a role and an item's length, which is below 8, without a name.
#[tactic(auto, unfolding(crate::specs::Code::Cells::cell_of))]
pub fn cell_of(role: Option<RangeType>, len: u8) -> u16
    requires { len < 8 }
    ensures { result ≡ cell_of role len }
{
    code_of(role) + LENGTH * u16::from(len)
}

/// Returns the role that a cell holds.
#[tactic(auto, unfolding(crate::specs::Code::Cells::role_in_cell))]
pub fn role_in(cell: u16) -> Option<RangeType>
    ensures { result ≡ role_in_cell cell }
{
    coded(cell % LENGTH)
}

/// Returns whether the role that a cell holds is CODE. It is asked for each line, and needs no other role.
#[tactic(auto, unfolding(crate::specs::Code::Cells::coded, crate::specs::Code::Cells::role_in_cell))]
pub fn is_code(cell: u16) -> bool
    ensures code { OnTrue result (role_in_cell cell ≡ Some RangeType.Code) }
    ensures other { OnFalse result (role_in_cell cell ≢ Some RangeType.Code) }
{
    cell % LENGTH == 1
}

/// Returns the length of an item that a cell holds.
#[tactic(auto, unfolding(crate::specs::Code::Cells::len_in_cell))]
pub fn len_in(cell: u16) -> u8
    ensures value { result ≡ len_in_cell cell }
    ensures small { result < 8 }
{
    (cell / LENGTH % LENGTHS) as u8
}

/// Returns whether a cell's role is a table whose entries have more than one byte.
#[tactic(auto, unfolding(crate::specs::Code::Cells::role_in_cell))]
pub fn is_wide_cell(cell: u16) -> bool
    ensures { result ≡ is_wide_cell cell }
{
    match role_in(cell) {
        Some(role) => is_wide(role),
        None => false,
    }
}

/// Adds the length of an item to a cell that has none.
#[tactic(auto, unfolding(crate::specs::Code::Cells::with_len))]
pub fn with_len(cell: u16, len: u8) -> u16
    requires cell { cell < 512 }
    requires len { len < 8 }
    ensures { result ≡ with_len cell len }
{
    cell + LENGTH * u16::from(len)
}

/// Returns whether a cell has its bit for a name.
#[tactic(auto, unfolding(crate::specs::Code::Cells::is_named))]
pub fn is_named(cell: u16) -> bool
    ensures { result ≡ is_named cell }
{
    cell / NAME % 2 == 1
}

/// Returns the cell with its bit for a name.
#[tactic(auto, unfolding(crate::specs::Code::Cells::is_named, crate::specs::Code::Cells::with_name))]
pub fn with_name(cell: u16) -> u16
    ensures { result ≡ with_name cell }
{
    if is_named(cell) { cell } else { cell + NAME }
}

/// Returns whether a cell has its bit for a segment border before its address.
#[tactic(auto, unfolding(crate::specs::Code::Cells::has_border))]
fn has_border(cell: u16) -> bool
    ensures { result ≡ has_border cell }
{
    cell / BORDER % 2 == 1
}

/// Returns the cell with its bit for a segment border.
#[tactic(auto, unfolding(crate::specs::Code::Cells::with_border))]
pub fn with_border(cell: u16) -> u16
    ensures { result ≡ with_border cell }
{
    cell % BORDER + BORDER
}

/// Returns whether the address of a cell lies in the run of the address before it, whose cell is the first one.
#[tactic(auto, unfolding(crate::specs::Code::Cells::are_one_run))]
pub fn are_one_run(before: u16, cell: u16) -> bool
    ensures { result ≡ are_one_run before cell }
{
    before % LENGTH == cell % LENGTH && (cell % LENGTH != 0 && !has_border(cell))
}

/// Returns cells that hold 0.
pub fn blank_cells<A: Allocator>(alloc: A, count: usize) -> Result<Vec<u16, A>, AllocError>
    ensures count { IfOk result (λ v. vec_len v ≡ count) }
    ensures blank { IfOk result (λ v. (a : ℕ) → a < count → slice_index v.items a ≡ 0) }
{
    let mut cells = Vec::new(alloc);
    cells.resize(count, 0)?;
    Ok(cells)
}
