//! Printing a statement as a line.

ghost use Rattle.std.specs.Prelude.{◌*◌, ◌++◌, ◌+◌, ◌<◌, ◌∷◌, ◌≡◌, ◌≤◌, IfSome, [], codes, length};
ghost use Rattle.std.specs.Option.{option_copied, option_map};
ghost use Rattle.stmt65.specs.Words.{Appends, AreBytes, AreWordWide, Extends, IsInWidth, IsNameLong, IsPrintable, IsTable, IsWrittenIn, MayBeLabelled, Prints, ReadsBack, alone, array_vec_len, bytes_text, cut_text, data_text, directive_text, fields_of, filled, in_hex, instr_fields, is_absolute, label_fields, len_with, line_of, named_text, numbers_text, operands_seen, quoted, remark_fields, remarks_seen, return_text, statement_seen, target_seen, with_fields, with_operands};
ghost use Rattle.stmt65.specs.Views as view;

use crate::directive::Directive;
use crate::printing::columns::{Column, Columns};
use crate::printing::definitions::{put_const, put_forward, put_label};
use crate::printing::digits::{Offsets, put_hex2};
use crate::printing::fields::{put, start_field};
use crate::printing::levels::put_after;
use crate::printing::operand::{put_named, put_operands};
use crate::printing::remarks::Remarks;
use crate::printing::tables::{put_entries, put_text};
use crate::source_line::AddressSize;
use crate::statement::{Operands, Statement, Target};
use arrayvec::ArrayVec;
use isa65::{Mode, Op};

/// The bytes of a line, with its line feed.
pub type Line = ArrayVec<u8, 512>;

fn put_operation(out: &mut Line, columns: &Columns, operation: &[u8])
    requires room { array_vec_len out.old ≤ 82 }
    requires short { length operation.now ≤ 8 }
    ensures { Prints out.old (alone columns.now operation.now) out.new 128 }
{
    start_field(out, columns.mnemonic);
    put(out, operation);
}

/// Appends an operation, and begins the field of its operands.
#[inline(always)]
fn start_operands(out: &mut Line, columns: &Columns, operation: &[u8])
    requires room { array_vec_len out.old ≤ 82 }
    requires short { length operation.now ≤ 8 }
    ensures { Prints out.old (with_operands columns.now operation.now []) out.new 129 }
{
    put_operation(out, columns, operation);
    start_field(out, columns.argument);
}

/// Appends the text of a mnemonic. Most have three letters.
#[inline(always)]
fn put_mnemonic(out: &mut Line, text: &[u8])
    requires { array_vec_len out.old + length text.now ≤ 512 }
    ensures { Extends out.old text.now out.new }
{
    if let [first, second, third] = *text {
        out.push(first);
        out.push(second);
        out.push(third);
    } else {
        put(out, text);
    }
}

#[inline(always)]
#[tactic(auto, using(isa65::proofs::MnemonicLaws::mnemonic_len))]
fn put_instr(
    out: &mut Line,
    columns: &Columns,
    offsets: Offsets,
    op: Op,
    size: AddressSize,
    operands: &Operands,
)
    requires room { array_vec_len out.old ≤ 82 }
    requires written { IsWrittenIn op.mode (operands_seen operands.now) }
    ensures fields { Prints out.old (instr_fields columns.now (in_hex offsets) op
        (is_absolute size) (operands_seen operands.now)) out.new 340 }
    ensures width { AreWordWide (operands_seen operands.now) }
{
    start_field(out, columns.mnemonic);
    put_mnemonic(out, op.mnemonic.text());
    if !matches!(op.mode, Mode::Imp) {
        start_field(out, columns.argument);
        put_operands(out, offsets, op.mode, size, operands);
    }
}

#[tactic(auto, using(crate::proofs::TableTexts::each_in_width), unfolding(crate::specs::Statements::comma_list))]
fn put_bytes(out: &mut Line, bytes: &[u8])
    requires some { 1 ≤ length bytes.now }
    requires room { len_with out.old 4 bytes.now ≤ 512 }
    ensures text { Appends out.old (bytes_text bytes.now) out.new (4 * length bytes.now) }
    ensures width { AreBytes bytes.now }
{
    let [first, rest @ ..] = bytes else {
        unreachable!()
    };
    put_hex2(out, *first);
    for byte in rest {
        out.push(b',');
        put_hex2(out, *byte);
    }
}

#[tactic(auto, using(crate::proofs::TableTexts::each_in_width))]
fn put_numbers(out: &mut Line, columns: &Columns, directive: Directive, bytes: &[u8])
    requires room { array_vec_len out.old ≤ 82 }
    requires table { IsTable directive bytes.now }
    ensures fields { Prints out.old (with_operands columns.now (directive_text directive)
        (numbers_text directive bytes.now)) out.new 340 }
    ensures width { AreBytes bytes.now }
{
    start_operands(out, columns, directive.text());
    put_entries(out, directive, bytes);
}

/// Appends an operation, and its operand in double quotes.
fn put_string(out: &mut Line, columns: &Columns, operation: &[u8], text: &[u8])
    requires room { array_vec_len out.old ≤ 82 }
    requires short { length operation.now ≤ 8 }
    requires fits { length text.now ≤ 80 }
    ensures { Prints out.old (with_operands columns.now operation.now
        (quoted text.now)) out.new 340 }
{
    start_operands(out, columns, operation);
    out.push(b'"');
    put(out, text);
    out.push(b'"');
}

/// Appends an entry of a return table.
fn put_rts(out: &mut Line, columns: &Columns, offsets: Offsets, target: Option<Target>)
    requires room { array_vec_len out.old ≤ 82 }
    requires name { IsPrintable (view.rts (option_map target_seen target)) }
    ensures fields { Prints out.old (with_operands columns.now (codes ".word")
        (return_text (in_hex offsets) (option_map target_seen target.entry))) out.new 340 }
    ensures width { IsInWidth (view.rts (option_map target_seen target.entry)) }
{
    start_operands(out, columns, b".word");
    match target {
        Some(Target { name, offset }) => {
            put_named(out, offsets, name, offset);
            put(out, b"-1");
        }
        None => put(out, b"$FFFF"),
    }
}

fn put_remark(out: &mut Line, text: &[u8])
    requires room { array_vec_len out.old ≤ 82 }
    requires fits { length text.now ≤ 200 }
    ensures { Prints out.old (remark_fields text.now) out.new 340 }
{
    start_field(out, Column::first());
    put(out, b"; ");
    put(out, text);
}

/// Appends the fields of the statement.
#[inline(always)]
#[tactic(auto, using(isa65::proofs::CpuNames::cpu_len))]
fn put_fields(out: &mut Line, columns: &Columns, offsets: Offsets, statement: &Statement)
    requires room { array_vec_len out.old ≤ 82 }
    requires printable { IsPrintable (statement_seen statement.now) }
    ensures fields { Prints out.old (fields_of columns.now (in_hex offsets)
        (statement_seen statement.now)) out.new 340 }
    ensures width { IsInWidth (statement_seen statement.now) }
{
    match *statement {
        Statement::Instr {
            op,
            size,
            ref operands,
        } => put_instr(out, columns, offsets, op, size, operands),
        Statement::Bytes(bytes) => {
            start_operands(out, columns, b".byte");
            put_bytes(out, bytes);
        }
        Statement::Text(bytes) => {
            start_operands(out, columns, b".byte");
            put_text(out, bytes);
        }
        Statement::Words(bytes) => put_numbers(out, columns, Directive::Word, bytes),
        Statement::Dbyts(bytes) => put_numbers(out, columns, Directive::Dbyt, bytes),
        Statement::Dwords(bytes) => put_numbers(out, columns, Directive::Dword, bytes),
        Statement::Addr(Target { name, offset }) => {
            start_operands(out, columns, b".addr");
            put_named(out, offsets, name, offset);
        }
        Statement::Rts(target) => put_rts(out, columns, offsets, target),
        Statement::Label(name) => put_label(out, name),
        Statement::Const(name, number) => put_const(out, columns, name, number),
        Statement::Forward(name, distance) => put_forward(out, columns, offsets, name, distance),
        Statement::Segment(name) => put_string(out, columns, b".segment", name),
        Statement::Code => put_operation(out, columns, b".code"),
        Statement::SetCpu(cpu) => put_string(out, columns, b".setcpu", cpu.text()),
        Statement::Blank => {}
        Statement::Remark(text) => put_remark(out, text),
    }
}

/// Begins an empty line with the label, if there is one.
#[inline(always)]
fn start_line(out: &mut Line, label: Option<&[u8]>)
    requires empty { out.old.items ≡ [] }
    requires name { IfSome (option_copied label) IsNameLong }
    ensures { Prints out.old (label_fields (option_copied label.entry)) out.new 82 }
{
    if let Some(name) = label {
        put_label(out, name);
    }
}

/// Replaces `out` by the line of the statement at these columns, with its line feed.
///
/// Allocates nothing. The caller keeps the limits of each kind of statement: there are as many
/// operands as the mode writes, the operand of `Imm` is a number, a number that is written with two
/// digits is below $100, `AddressSize::Absolute` stands in the absolute modes alone, there are 1 to 8 bytes, 1
/// to 16 of text, 2, 4, 6 or 8 of words and 4 or 8 of double words, a name has 1 to 80 bytes, and a remark at most 200
/// without a line feed. A label stands before an instruction or data alone; its name has at most as
/// many bytes as the label break, and that number plus 1 is below the mnemonic column. At most 16
/// bytes are remarked.
///
/// If the names in the statement and the label are names that ca65 takes, none of them reserved, the
/// line reads as this statement with this label, at every level; reading is a function of the line,
/// so it reads as no other. The name of a segment may be reserved.
#[inline(always)]
#[tactic(auto, unfolding(crate::specs::Line::line_of))]
pub fn put_line(out: &mut Line, columns: &Columns, statement: &Statement, remarks: &Remarks)
    /// The caller guarantees three things: the statement keeps the limits of its kind (as many operands as its mode
    /// writes, 1 to 8 bytes, 1 to 16 of text, a name of 1 to 80 bytes, ..); at most 16 bytes are to be shown; a
    /// label stands only where one may, and fits. Columns and levels may be any.
    requires printable { IsPrintable (statement_seen statement.now) }
    requires few { length remarks.now.bytes.now ≤ 16 }
    requires label { MayBeLabelled columns.now (option_copied remarks.now.label) (statement_seen statement.now) }
    /// Replaces the content of the buffer with exactly the line of the statement and one line feed, at most 512
    /// bytes. The line has the label, the statement at these columns and, by the comment level, its address, its
    /// bytes, and these as characters.
    ensures line { out.new.items ≡ line_of columns.now (statement_seen statement.now) (remarks_seen remarks.now) ++ 10 ∷ [] }
    ensures fits { array_vec_len out.new ≤ 512 }
    /// If ca65 accepts the names in the line, the line reads as this statement with this label, and as no other, at
    /// every comment level.
    ensures reads { ReadsBack (statement_seen statement.now) (option_copied remarks.now.label) out.new.items }
{
    out.clear();
    start_line(out, remarks.label);
    put_fields(out, columns, Offsets::of(remarks.hexoffs), statement);
    put_after(out, columns, statement, remarks);
    out.push(b'\n');
}
