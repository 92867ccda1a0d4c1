//! The operands of an instruction.

ghost use Rattle.std.specs.Prelude.{◌+◌, ◌<◌, ◌≤◌, length};
ghost use Rattle.stmt65.specs.Words.{Appends, AreOperands, AreWordWide, Extends, IsOperand, IsWordWide, IsWrittenIn, array_vec_len, expr_seen, in_hex, in_row, is_absolute, kind_text, named_text, none, one, operand_text, operands_seen, prefix_text, row_text, two};

use crate::printing::digits::{Offsets, put_hex2, put_hex4, put_offset};
use crate::printing::fields::put;
use crate::printing::line::Line;
use crate::source_line::AddressSize;
use crate::statement::{Expr, Operands};
use isa65::{Mode, OperandKind, Pattern, Row};

/// Appends a name, and `+` and the offset if that is not 0.
pub(super) fn put_named(out: &mut Line, offsets: Offsets, name: &[u8], offset: u16)
    requires { array_vec_len out.old + length name.now + 6 ≤ 512 }
    ensures text { Appends out.old (named_text
        (in_hex offsets) name.now offset) out.new (length name.now + 6) }
    ensures width { offset < 65536 }
{
    put(out, name);
    if offset != 0 {
        out.push(b'+');
        put_offset(out, offsets, offset);
    }
}

/// Appends an operand of this kind: a number in two digits or in four.
fn put_kind(out: &mut Line, offsets: Offsets, kind: OperandKind, expr: &Expr)
    requires room { array_vec_len out.old ≤ 300 }
    requires operand { IsOperand kind (expr_seen expr.now) }
    ensures text { Appends out.old (kind_text (in_hex offsets) kind
        (expr_seen expr.now)) out.new 86 }
    ensures width { IsWordWide (expr_seen expr.now) }
{
    match *expr {
        Expr::Number(number) => match kind {
            OperandKind::Byte | OperandKind::ZeroPage => put_hex2(out, number as u8),
            OperandKind::Word | OperandKind::Distance => put_hex4(out, number),
        },
        Expr::Name(name, offset) => put_named(out, offsets, name, offset),
    }
}

/// Appends the operand of a row that writes one, in its pattern.
#[inline(never)]
fn put_one(out: &mut Line, offsets: Offsets, row: Row, expr: &Expr)
    requires room { array_vec_len out.old ≤ 200 }
    requires written { AreOperands row (one (expr_seen expr.now)) }
    ensures text { Appends out.old (in_row (in_hex offsets) row
        (one (expr_seen expr.now))) out.new 190 }
    ensures width { IsWordWide (expr_seen expr.now) }
{
    let Row::One(pattern, kind) = row else {
        unreachable!()
    };
    match pattern {
        Pattern::Immediate => {
            out.push(b'#');
            put_kind(out, offsets, kind, expr);
        }
        Pattern::Direct => put_kind(out, offsets, kind, expr),
        Pattern::DirectX => {
            put_kind(out, offsets, kind, expr);
            put(out, b",x");
        }
        Pattern::DirectY => {
            put_kind(out, offsets, kind, expr);
            put(out, b",y");
        }
        Pattern::Indirect => {
            out.push(b'(');
            put_kind(out, offsets, kind, expr);
            out.push(b')');
        }
        Pattern::IndirectX => {
            out.push(b'(');
            put_kind(out, offsets, kind, expr);
            put(out, b",x)");
        }
        Pattern::IndirectY => {
            out.push(b'(');
            put_kind(out, offsets, kind, expr);
            put(out, b"),y");
        }
    }
}

/// Appends the operands of a row that writes two.
fn put_two(out: &mut Line, offsets: Offsets, row: Row, first: &Expr, second: &Expr)
    requires room { array_vec_len out.old ≤ 200 }
    requires written { AreOperands row (two (expr_seen first.now) (expr_seen second.now)) }
    ensures text { Appends out.old (in_row (in_hex offsets) row
        (two (expr_seen first.now) (expr_seen second.now))) out.new 190 }
    ensures width { AreWordWide (two (expr_seen first.now) (expr_seen second.now)) }
{
    let Row::Two(tested, target) = row else {
        unreachable!()
    };
    put_kind(out, offsets, tested, first);
    out.push(b',');
    put_kind(out, offsets, target, second);
}

/// Appends the prefix that makes an operand absolute, if there is one.
fn put_prefix(out: &mut Line, size: AddressSize)
    requires { array_vec_len out.old ≤ 500 }
    ensures { Appends out.old (prefix_text (is_absolute size)) out.new 2 }
{
    match size {
        AddressSize::Absolute => put(out, b"a:"),
        AddressSize::Automatic => {}
    }
}

/// Appends the operands as the mode writes them.
#[inline(always)]
#[tactic(auto, unfolding(crate::specs::Operands::operand_text))]
pub(super) fn put_operands(
    out: &mut Line,
    offsets: Offsets,
    mode: Mode,
    size: AddressSize,
    operands: &Operands,
)
    requires room { array_vec_len out.old ≤ 190 }
    requires written { IsWrittenIn mode (operands_seen operands.now) }
    ensures text { Appends out.old (operand_text (in_hex offsets) mode (is_absolute size)
        (operands_seen operands.now)) out.new 200 }
    ensures width { AreWordWide (operands_seen operands.now) }
{
    put_prefix(out, size);
    let row = mode.row();
    match operands {
        Operands::None => {
            if matches!(row, Row::Accumulator) {
                out.push(b'a');
            }
        }
        Operands::One(expr) => put_one(out, offsets, row, expr),
        Operands::Two(first, second) => put_two(out, offsets, row, first, second),
    }
}
