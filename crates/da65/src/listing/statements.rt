//! The statement of a group.

ghost use Rattle.std.specs.Prelude.{◌≡◌, ◌≢◌, ◌+◌, ◌*◌, ◌<◌, ◌≤◌, ℕ, [], length, option_map, slice_index};
ghost use Rattle.info65.specs.Words.{AreNames};
ghost use Rattle.isa65.specs.Words.{Table, len_of, size_of};
ghost use Rattle.stmt65.specs.Words.{expr_seen, is_absolute, operands_seen, statement_seen};
ghost use Rattle.da65.specs.Words.{IsGroupOf, address_entry, instruction_in, is_forced, names_of, numbers, operand_in, operands_at, return_entry, statement_for};

use crate::listing::base_names::{address_expr, target, zero_page_expr};
use crate::listing::group::ListedGroup;
use info65::{Entry, RangeType};
use isa65::{ByteOrder, Op, OpcodeSet, OperandKind, Row};
use map65::{Map, NameBuf, entry_of, operand_word, target_of};
use std::alloc::Allocator;
use stmt65::{AddressSize, Expr, Operands, Statement};

/// The buffers for the names in the operands of a statement.
#[derive(Drop)]
pub struct OperandNames {
    pub first: NameBuf,
    pub second: NameBuf,
}

impl OperandNames {
    /// Empty buffers.
    pub fn new() -> Self {
        OperandNames {
            first: NameBuf::new(),
            second: NameBuf::new(),
        }
    }
}

/// The instruction that the bytes begin with: none where the first is an undefined opcode, or where
/// they end before the instruction does.
#[inline(always)]
#[tactic(auto, unfolding(crate::specs::Instructions::instruction_in))]
pub fn instruction_in<S: OpcodeSet>(set: &S, bytes: &[u8]) -> Option<Op>
    ensures { result ≡ instruction_in (S.table set.now) bytes.now }
{
    let (first, _) = bytes.split_first()?;
    let op = set.decode(*first)?;
    if op.mode.len() as usize <= bytes.len() {
        Some(op)
    } else {
        None
    }
}

/// The word whose bytes begin at an index, low byte first.
fn word_at(bytes: &[u8], at: usize) -> u16
    requires { at + 2 ≤ length bytes.now }
    ensures { result ≡ slice_index bytes.now at + 256 * slice_index bytes.now (at + 1) }
{
    u16::from(bytes[at]) + 256 * u16::from(bytes[at + 1])
}

/// The operand of this kind whose bytes begin at an index of an instruction's, which are those of a group. None if its
/// target lies outside the address space.
#[inline(always)]
pub fn operand_expr<'n, A: Allocator>(
    group: ListedGroup<'_, '_, A>,
    kind: OperandKind,
    at: usize,
    name: &'n mut NameBuf,
) -> Option<Expr<'n>>
    requires all { at + size_of kind ≤ length group.bytes.now }
    requires room { group.address + length group.bytes.now ≤ 65536 }
    ensures { option_map expr_seen result ≡ operand_in group.entry kind at }
{
    let map = group.listed.map();
    let bytes = group.bytes;
    match kind {
        OperandKind::Byte => Some(Expr::Number(u16::from(bytes[at]))),
        OperandKind::ZeroPage => Some(zero_page_expr(map, bytes[at], name)),
        OperandKind::Word => Some(address_expr(map, word_at(bytes, at), name)),
        OperandKind::Distance => {
            Some(address_expr(map, target_of(group.end(), bytes[at])?, name))
        }
    }
}

/// The operands of an instruction, whose bytes are those of a group: none where a
/// target lies outside the address space.
#[inline(always)]
pub fn operands_of<'n, A: Allocator>(
    group: ListedGroup<'_, '_, A>,
    op: Op,
    names: &'n mut OperandNames,
) -> Option<Operands<'n>>
    requires all { len_of op.mode ≤ length group.bytes.now }
    requires room { group.address + length group.bytes.now ≤ 65536 }
    ensures { option_map operands_seen result ≡ operands_at group.entry op }
{
    match op.mode.row() {
        Row::Implied | Row::Accumulator => Some(Operands::None),
        Row::One(_, kind) => {
            let operand = operand_expr(group, kind, 1, &mut names.first)?;
            Some(Operands::One(operand))
        }
        Row::Two(first, second) => {
            let at = 1 + usize::from(first.size());
            let tested = operand_expr(group, first, 1, &mut names.first)?;
            let target = operand_expr(group, second, at, &mut names.second)?;
            Some(Operands::Two(tested, target))
        }
    }
}

/// Whether `a:` stands before the operand: an assembler would take the zero-page mode without it.
#[inline(always)]
fn is_forced<S: OpcodeSet>(set: &S, op: Op, bytes: &[u8]) -> bool
    requires { len_of op.mode ≤ length bytes.now }
    ensures { result ≡ is_forced (S.table set.now) op bytes.now }
{
    match op.mode.row() {
        Row::One(_, OperandKind::Word) => operand_word(bytes) < 256 && op.sibling(set).is_some(),
        _ => false,
    }
}

/// The size that is written before the operand.
pub fn written_size<S: OpcodeSet>(set: &S, op: Op, bytes: &[u8]) -> AddressSize
    requires { len_of op.mode ≤ length bytes.now }
    ensures { is_absolute result ≡ is_forced (S.table set.now) op bytes.now }
{
    if is_forced(set, op, bytes) {
        AddressSize::Absolute
    } else {
        AddressSize::Automatic
    }
}

/// The entry of an address table.
#[tactic(auto, unfolding(crate::specs::Statements::address_entry))]
fn address_entry<'a, A: Allocator>(
    map: &Map<'_, A>,
    bytes: &'a [u8],
    name: &'a mut NameBuf,
) -> Statement<'a>
    requires names { AreNames map.now.info.names }
    requires word { length bytes.now ≡ 2 }
    ensures { statement_seen result ≡ address_entry (names_of map.now) bytes.entry.now }
{
    match target(map, entry_of(bytes), name) {
        Some(target) => Statement::Addr(target),
        None => Statement::Words(bytes),
    }
}

/// The entry of a return table.
#[tactic(auto, unfolding(crate::specs::Statements::return_entry))]
fn return_entry<'a, A: Allocator>(
    map: &Map<'_, A>,
    bytes: &'a [u8],
    name: &'a mut NameBuf,
) -> Statement<'a>
    requires names { AreNames map.now.info.names }
    requires word { length bytes.now ≡ 2 }
    ensures { statement_seen result ≡ return_entry (names_of map.now) bytes.entry.now }
{
    let entry = entry_of(bytes);
    if entry == 0xFFFF {
        return Statement::Rts(None);
    }
    match target(map, entry + 1, name) {
        Some(target) => Statement::Rts(Some(target)),
        None => Statement::Words(bytes),
    }
}

/// The numbers of a line of a table, each of `unit` bytes in this order.
fn numbers(unit: u8, order: ByteOrder, bytes: &[u8]) -> Statement<'_>
    ensures { statement_seen result ≡ numbers unit order bytes.entry.now }
{
    match (unit, order) {
        (1, _) => Statement::Bytes(bytes),
        (4, ByteOrder::LittleEndian) => Statement::Dwords(bytes),
        (_, ByteOrder::LittleEndian) => Statement::Words(bytes),
        (_, ByteOrder::BigEndian) => Statement::Dbyts(bytes),
    }
}

/// The statement of a line of a table, in which no opcode has a say.
#[tactic(auto, using(crate::proofs::Statements::EntryLemmas::lines), unfolding(crate::specs::Statements::statement_for))]
pub fn table_statement<'a, A: Allocator>(
    map: &Map<'_, A>,
    role: RangeType,
    bytes: &'a [u8],
    name: &'a mut NameBuf,
) -> Statement<'a>
    requires names { AreNames map.now.info.names }
    requires some { 0 < length bytes.now }
    requires table { role ≢ RangeType.Code }
    requires shape { IsGroupOf [] role bytes.now }
    ensures { (t : Table) (address : ℕ) → statement_seen result ≡ statement_for (names_of map.now) t role address bytes.entry.now }
{
    let layout = role.layout();
    if bytes.len() < usize::from(layout.unit) {
        return Statement::Bytes(bytes);
    }
    match layout.entry {
        Entry::Number(order) => numbers(layout.unit, order, bytes),
        Entry::Address => address_entry(map, bytes, name),
        Entry::Return => return_entry(map, bytes, name),
        Entry::Character => Statement::Text(bytes),
        Entry::Instruction | Entry::Skipped => unreachable!(),
    }
}
