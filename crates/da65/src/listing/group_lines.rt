//! The lines of a group: what stands before its label, its label and its statement.

ghost use Rattle.std.specs.Prelude.{◌≡◌, ◌≢◌, ◌+◌, None};
ghost use Rattle.stmt65.specs.Words.{operands_seen, statement_seen};
ghost use Rattle.stmt65.specs.Views as view;
ghost use Rattle.map65.specs.Words.{AreBytes, role_of};
ghost use Rattle.da65.specs.Words.{AreOperandsIn, IsGroupIn, IsGroupLine, IsGroupNext, IsGroupStart, IsInstructionIn, IsLabelNext, IsNextFrom, IsStatementOf};

use crate::listing::base_names::put_base;
use crate::listing::group::ListedGroup;
use crate::listing::grouping::{group_len, role_inside};
use crate::listing::heading_lines::put_heading;
use crate::listing::listed_image::ListedImage;
use crate::listing::place::ListingPlace;
use crate::listing::plain_lines::put_plain;
use crate::listing::statements::{
    OperandNames, instruction_in, operand_expr, operands_of, table_statement, written_size,
};
use crate::listing::style::has_empty_line;
use info65::RangeType;
use isa65::{Op, Row};
use map65::NameBuf;
use std::alloc::Allocator;
use stmt65::{Line, Operands, Remarks, Statement, put_line};

/// Bytes are numbers below 256.
#[inline(always)]
#[tactic(auto, using(crate::proofs::Rules::are_bytes_rules, std::proofs::lemmas::Grind::common_steps))]
fn are_bytes(bytes: &[u8])
    ensures { AreBytes bytes.now }
{}

/// The group that begins with the byte of this index, so far without a label.
#[inline(always)]
#[tactic(auto, using(crate::proofs::Rules::group_at_rules, std::proofs::lemmas::Grind::common_steps))]
pub fn group_at<'g, 'a, A: Allocator>(
    listed: &'g ListedImage<'a, A>,
    index: usize,
) -> ListedGroup<'g, 'a, A>
    requires { IsGroupStart listed.now index }
    ensures listed { result.listed.now ≡ listed.now }
    ensures index { result.index ≡ index }
    ensures bare { result.label ≡ None }
    ensures group { IsGroupIn result }
{
    let map = listed.map();
    let address = listed.address(index);
    let len = group_len(map, address);
    let (_, rest) = listed.bytes().split_at(index);
    let (bytes, _) = rest.split_at(len);
    // This does nothing; its clause says that each is a byte.
    are_bytes(bytes);
    ListedGroup {
        listed,
        index,
        address,
        bytes,
        label: None,
    }
}

/// Replaces the buffer by this statement of a group, after its label, and returns whether an empty line follows.
#[inline(always)]
#[tactic(auto, using(crate::proofs::Rules::put_group_statement_rules, std::proofs::lemmas::Grind::common_steps), unfolding(crate::specs::Listing::line_text))]
fn put_group_statement<A: Allocator>(
    out: &mut Line,
    group: ListedGroup<'_, '_, A>,
    statement: &Statement<'_>,
) -> bool
    requires group { IsGroupIn group }
    requires statement { IsStatementOf group (statement_seen statement.now) }
    ensures { IsGroupLine group.entry out.new.items result }
{
    let style = group.listed.style();
    let remarks = Remarks {
        level: style.level,
        hexoffs: style.hexoffs,
        address: group.address,
        bytes: group.bytes,
        label: group.label,
    };
    put_line(out, &style.columns, statement, &remarks);
    has_empty_line(style, statement)
}

/// Puts the statement of a line of a table, as of `put_group_statement`, in a stack frame of its
/// own: lines of code have a small one.
#[inline(never)]
#[tactic(auto, using(crate::proofs::Rules::put_table_line_rules, std::proofs::lemmas::Grind::common_steps))]
fn put_table_line<A: Allocator>(out: &mut Line, group: ListedGroup<'_, '_, A>) -> bool
    requires table { role_of group.listed.now.info group.address ≢ RangeType.Code }
    requires group { IsGroupIn group }
    ensures { IsGroupLine group.entry out.new.items result }
{
    let map = group.listed.map();
    let role = role_inside(map, group.address);
    let mut name = NameBuf::new();
    let statement = table_statement(map, role, group.bytes, &mut name);
    put_group_statement(out, group, &statement)
}

/// Puts the statement of an item of code that is written as its bytes.
#[inline(never)]
fn put_bytes_line<A: Allocator>(out: &mut Line, group: ListedGroup<'_, '_, A>) -> bool
    requires group { IsGroupIn group }
    requires bytes { IsStatementOf group (view.bytes group.bytes.now) }
    ensures { IsGroupLine group.entry out.new.items result }
{
    put_group_statement(out, group, &Statement::Bytes(group.bytes))
}

/// Puts the statement of an item of code that is written as this instruction, with these operands.
#[inline(always)]
fn put_instruction<A: Allocator>(
    out: &mut Line,
    group: ListedGroup<'_, '_, A>,
    op: Op,
    operands: Operands<'_>,
) -> bool
    requires item { IsInstructionIn group op }
    requires operands { AreOperandsIn group op (operands_seen operands) }
    ensures { IsGroupLine group.entry out.new.items result }
{
    let size = written_size(group.listed.opcodes(), op, group.bytes);
    let statement = Statement::Instr { op, size, operands };
    put_group_statement(out, group, &statement)
}

/// Puts the statement of an item of code that is this instruction, with operands. If the target of one lies outside the
/// address space, its bytes are written.
#[inline(never)]
#[tactic(auto, using(crate::proofs::Rules::put_with_operands_rules, std::proofs::lemmas::Grind::common_steps))]
fn put_with_operands<A: Allocator>(out: &mut Line, group: ListedGroup<'_, '_, A>, op: Op) -> bool
    requires { IsInstructionIn group op }
    ensures { IsGroupLine group.entry out.new.items result }
{
    let mut names = OperandNames::new();
    match operands_of(group, op, &mut names) {
        Some(operands) => put_instruction(out, group, op, operands),
        None => put_bytes_line(out, group),
    }
}

/// Puts the statement of an item of code that is this instruction, with operands. Most have
/// one, and need no room for two names.
#[inline(never)]
#[tactic(auto, using(crate::proofs::Rules::put_with_operand_rules, std::proofs::lemmas::Grind::common_steps))]
fn put_with_operand<A: Allocator>(out: &mut Line, group: ListedGroup<'_, '_, A>, op: Op) -> bool
    requires { IsInstructionIn group op }
    ensures { IsGroupLine group.entry out.new.items result }
{
    let Row::One(_, kind) = op.mode.row() else {
        return put_with_operands(out, group, op);
    };
    let mut name = NameBuf::new();
    match operand_expr(group, kind, 1, &mut name) {
        Some(operand) => put_instruction(out, group, op, Operands::One(operand)),
        None => put_bytes_line(out, group),
    }
}

/// Puts the statement of an item of code.
#[inline(always)]
#[tactic(auto, using(crate::proofs::Rules::put_code_line_rules, std::proofs::lemmas::Grind::common_steps))]
fn put_code_line<A: Allocator>(out: &mut Line, group: ListedGroup<'_, '_, A>) -> bool
    requires code { role_of group.listed.now.info group.address ≡ RangeType.Code }
    requires group { IsGroupIn group }
    ensures { IsGroupLine group.entry out.new.items result }
{
    let Some(op) = instruction_in(group.listed.opcodes(), group.bytes) else {
        return put_bytes_line(out, group);
    };
    // Most instructions of some programs have no operand. Their line is made here, and no room for names is blanked.
    match op.mode.row() {
        Row::Implied | Row::Accumulator => put_instruction(out, group, op, Operands::None),
        Row::One(..) | Row::Two(..) => put_with_operand(out, group, op),
    }
}

/// Replaces the buffer by the statement of a group, after its label, and returns whether an empty line follows.
#[inline(always)]
#[tactic(auto, using(crate::proofs::Rules::put_statement_line_rules, std::proofs::lemmas::Grind::common_steps))]
fn put_statement_line<A: Allocator>(out: &mut Line, group: ListedGroup<'_, '_, A>) -> bool
    requires { IsGroupIn group }
    ensures { IsGroupLine group.entry out.new.items result }
{
    if group.listed.map().is_code(group.address) {
        put_code_line(out, group)
    } else {
        put_table_line(out, group)
    }
}

/// Replaces the buffer by the statement of a group, after its label, and returns the next place.
#[inline(always)]
pub fn put_statement<A: Allocator>(out: &mut Line, group: ListedGroup<'_, '_, A>) -> ListingPlace
    requires { IsGroupIn group }
    ensures { IsGroupNext group.entry out.new.items result }
{
    let ends = put_statement_line(out, group);
    let index = group.index + group.bytes.len();
    if ends {
        ListingPlace::Ending { index }
    } else {
        ListingPlace::Group { index }
    }
}

/// Replaces the buffer by the label of a group, and its statement if that has room beside it, and returns the next
/// place. Without a label it is the statement.
#[inline(never)]
#[tactic(auto, using(crate::proofs::Rules::put_label_rules, std::proofs::lemmas::Grind::common_steps))]
fn put_label<A: Allocator>(out: &mut Line, group: ListedGroup<'_, '_, A>) -> ListingPlace
    requires group { IsGroupIn group }
    requires bare { group.label ≡ None }
    ensures { IsLabelNext group.entry.listed.now group.entry.index out.new.items result }
{
    let mut name = NameBuf::new();
    if !put_base(group.listed.map(), group.address, &mut name) {
        return put_statement(out, group);
    }
    let label = name.as_slice();
    let style = group.listed.style();
    if style.columns.fits_label(label) {
        return put_statement(out, group.with_label(label));
    }
    put_plain(out, style, &Statement::Label(label));
    ListingPlace::Statement { index: group.index }
}

/// Puts the label and the statement, as of `put_label`. Most groups begin at an address
/// without a name, and need no buffer for one.
#[inline(always)]
#[tactic(auto, using(crate::proofs::Rules::put_labelled_rules, std::proofs::lemmas::Grind::common_steps))]
fn put_labelled<A: Allocator>(out: &mut Line, group: ListedGroup<'_, '_, A>) -> ListingPlace
    requires group { IsGroupIn group }
    requires bare { group.label ≡ None }
    ensures { IsLabelNext group.entry.listed.now group.entry.index out.new.items result }
{
    if group.listed.map().has_name(group.address) {
        put_label(out, group)
    } else {
        put_statement(out, group)
    }
}

/// Replaces the buffer by the first line of a group from what has this number before its
/// label on, and returns the next place.
#[inline(always)]
#[tactic(auto, using(crate::proofs::Rules::put_group_line_rules, std::proofs::lemmas::Grind::common_steps))]
pub fn put_group_line<A: Allocator>(
    out: &mut Line,
    group: ListedGroup<'_, '_, A>,
    from: usize,
) -> ListingPlace
    requires group { IsGroupIn group }
    requires bare { group.label ≡ None }
    ensures { IsNextFrom group.entry from out.new.items result }
{
    for number in from..2 * group.bytes.len() + 1 {
        if put_heading(out, group, number) {
            return ListingPlace::Heading {
                index: group.index,
                number: number + 1,
            };
        }
    }
    put_labelled(out, group)
}
