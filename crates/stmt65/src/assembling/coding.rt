//! How a statement is coded: what each of its bytes stands for.

ghost use Rattle.std.specs.Prelude.{◌≡◌, List, [], ◌∷◌};
ghost use Rattle.stmt65.specs.Words.{Definition, IsCoding, IsFirstOf, IsFirstWay, One, coded_of, fragment_of, gap, kind_fragment, modes_in, operand_of, start_of, state_of, value_of, ways, zero_page};
ghost use Rattle.stmt65.specs.Code.SourceLineViews.{form_of, operation_of};

use crate::assembling::state::State;
use crate::assembling::symbols::KnownNames;
use crate::assembling::values::has_zero_page_size;
use crate::directive::Directive;
use crate::reading::numeral::Numeral;
use crate::source_line::Notation::{self, Absolute, AbsoluteX, AbsoluteY, Plain};
use crate::source_line::{Datum, Form, Half, Operation, Value};
use isa65::Mode::{
    self, Abs, Absindx, Absx, Absy, Acc, Imm, Imp, Ind, Indx, Indy, Rel, Zp, Zpind, Zprel, Zpx, Zpy,
};
use isa65::OperandKind::{self, Byte, Distance, Word, ZeroPage};
use isa65::Pattern::{Direct, DirectX, DirectY, Immediate, Indirect, IndirectX, IndirectY};
use isa65::{EncodeTable, Mnemonic};
use std::alloc::Allocator;

/// What bytes of a statement stand for.
#[derive(Clone, Copy)]
pub enum Fragment<'s, 'a> {
    /// A value from 0 to $FF.
    Single(&'s Value<'a>),
    /// A zero-page address.
    ZeroPage(&'s Value<'a>),
    /// The operand of a zero-page mode that has not zero-page size, so it never fits.
    Oversized(&'s Value<'a>),
    /// A number as the directive gives it.
    Entry(Directive, &'s Value<'a>),
    /// A word, as its signed distance from the address after the statement.
    Distance(&'s Value<'a>),
    /// The low or the high byte of a word.
    Half(Half, &'s Value<'a>),
    /// So many bytes of one value, as they are written.
    Reserved(&'s Numeral<'a>, &'s Numeral<'a>),
    /// So many bytes of one value, up to the start of a segment.
    Gap(u16, u8),
}

/// What follows an opcode.
#[derive(Clone, Copy)]
pub enum Operand<'s, 'a> {
    None,
    One(Fragment<'s, 'a>),
    Two(Fragment<'s, 'a>, Fragment<'s, 'a>),
}

/// An opcode and its operand.
#[derive(Clone, Copy)]
pub struct Instruction<'s, 'a> {
    pub opcode: u8,
    pub operand: Operand<'s, 'a>,
}

/// The coding of an operation, or what is left of it.
#[derive(Clone, Copy)]
pub enum Coded<'s, 'a> {
    /// No bytes.
    Nothing,
    /// An opcode and its operand.
    Instruction(Instruction<'s, 'a>),
    /// Bytes of one value.
    Fill(Fragment<'s, 'a>),
    /// Numbers and strings.
    Data(&'s [Datum<'a>]),
    /// Numbers as the directive gives them.
    Values(Directive, &'s [Value<'a>]),
}

/// What an instruction is coded by: the opcodes of the CPU, its mnemonic, and the definitions above it.
#[derive(Drop)]
struct Coder<'c, 'n, 't, A: Allocator + Clone> {
    opcodes: &'c EncodeTable,
    mnemonic: Mnemonic,
    above: &'c KnownNames<'n, 't, A>,
}

/// The modes of a notation, each with the kind of its operand, in the order in which they are tried.
fn modes_in(is_short: bool, notation: Notation) -> &'static [(Mode, OperandKind)]
    ensures { result.now ≡ modes_in is_short notation }
{
    match notation {
        Plain(Immediate) | Notation::Half(_) => &[(Imm, Byte)],
        Plain(Direct) if is_short => &[(Zp, ZeroPage), (Abs, Word), (Rel, Distance)],
        Plain(Direct) => &[(Abs, Word), (Zp, ZeroPage), (Rel, Distance)],
        Plain(DirectX) if is_short => &[(Zpx, ZeroPage), (Absx, Word)],
        Plain(DirectX) => &[(Absx, Word), (Zpx, ZeroPage)],
        Plain(DirectY) if is_short => &[(Zpy, ZeroPage), (Absy, Word)],
        Plain(DirectY) => &[(Absy, Word), (Zpy, ZeroPage)],
        Absolute => &[(Abs, Word)],
        AbsoluteX => &[(Absx, Word)],
        AbsoluteY => &[(Absy, Word)],
        Plain(Indirect) => &[(Zpind, ZeroPage), (Ind, Word)],
        Plain(IndirectX) => &[(Indx, ZeroPage), (Absindx, Word)],
        Plain(IndirectY) => &[(Indy, ZeroPage)],
    }
}

/// An operand that only the zero page has.
fn zero_page<'s, 'a>(is_short: bool, value: &'s Value<'a>) -> Fragment<'s, 'a>
    ensures { fragment_of result ≡ zero_page is_short (value_of value.now) }
{
    if is_short {
        Fragment::ZeroPage(value)
    } else {
        Fragment::Oversized(value)
    }
}

/// What an operand of a kind is coded as; a word is as `.addr` gives it.
fn fragment_in<'s, 'a>(
    is_short: bool,
    notation: Notation,
    kind: OperandKind,
    value: &'s Value<'a>,
) -> Fragment<'s, 'a>
    ensures { fragment_of result ≡ kind_fragment is_short notation kind (value_of value.now) }
{
    match (kind, notation) {
        (Byte, Notation::Half(half)) => Fragment::Half(half, value),
        (Byte, _) => Fragment::Single(value),
        (ZeroPage, _) => zero_page(is_short, value),
        (Word, _) => Fragment::Entry(Directive::Addr, value),
        (Distance, _) => Fragment::Distance(value),
    }
}

/// An instruction in a mode, if the mnemonic has it.
fn in_mode<'s, 'a, A: Allocator + Clone>(
    coder: &Coder<'_, '_, '_, A>,
    mode: Mode,
    operand: Operand<'s, 'a>,
) -> Option<Instruction<'s, 'a>>
    ensures { IsFirstWay result coder.now ((mode, operand_of operand.entry) ∷ []) }
{
    let opcode = coder.opcodes.encode(coder.mnemonic, mode)?;
    Some(Instruction { opcode, operand })
}

/// An instruction with one expression of this size, in the first mode of its notation that the mnemonic has.
#[tactic(auto, unfolding(crate::specs::Coding::ways))]
fn in_modes<'s, 'a, A: Allocator + Clone>(
    coder: &Coder<'_, '_, '_, A>,
    is_short: bool,
    notation: Notation,
    value: &'s Value<'a>,
) -> Option<Instruction<'s, 'a>>
    ensures { IsFirstWay result coder.now (ways is_short (One notation (value_of value.now))) }
{
    let modes = modes_in(is_short, notation);
    'modes: for mode in modes {
        if let Some(opcode) = coder.opcodes.encode(coder.mnemonic, mode.0) {
            let operand = Operand::One(fragment_in(is_short, notation, mode.1, value));
            return Some(Instruction { opcode, operand });
        }
    }
    None
}

/// An instruction with one expression. After `#` nothing depends on its size, so no name is looked up for it.
#[tactic(auto, unfolding(crate::specs::Coding::ways))]
fn in_notation<'s, 'a, A: Allocator + Clone>(
    coder: &Coder<'_, '_, '_, A>,
    notation: Notation,
    value: &'s Value<'a>,
) -> Option<Instruction<'s, 'a>>
    ensures { IsFirstOf result coder.now (One notation (value_of value.now)) }
{
    match notation {
        Plain(Immediate) | Notation::Half(_) => in_modes(coder, false, notation, value),
        _ => in_modes(
            coder,
            has_zero_page_size(coder.above, value),
            notation,
            value,
        ),
    }
}

/// The coding of an instruction, or `None` if the mnemonic has no mode of the written form.
#[tactic(auto, unfolding(crate::specs::Coding::ways))]
fn instruction_in<'s, 'a, A: Allocator + Clone>(
    coder: &Coder<'_, '_, '_, A>,
    form: &'s Form<'a>,
) -> Option<Instruction<'s, 'a>>
    ensures { IsFirstOf result coder.now (form_of form.now) }
{
    match form {
        Form::Empty => in_mode(coder, Imp, Operand::None),
        Form::Accumulator => in_mode(coder, Acc, Operand::None),
        Form::One(notation, value) => in_notation(coder, *notation, value),
        Form::Two(v, w) => {
            let first = zero_page(has_zero_page_size(coder.above, v), v);
            in_mode(coder, Zprel, Operand::Two(first, Fragment::Distance(w)))
        }
    }
}

/// What is missing before the start of a segment.
fn gap<'s, 'a, L: Allocator + Clone>(state: &State<'_, '_, L>, name: &[u8]) -> Coded<'s, 'a>
    ensures { (above : List Definition) → coded_of result ≡ gap (state_of state.now above).layout
        state.now.address (start_of state.now.layout.now name.now) }
{
    match state.layout.start_of(name) {
        Some(start) => {
            let missing = u64::from(start).saturating_sub(state.address);
            Coded::Fill(Fragment::Gap(missing as u16, state.layout.fill()))
        }
        None => Coded::Nothing,
    }
}

/// The coding of an operation, or `None` if a mnemonic has no mode of the written form.
#[tactic(auto, unfolding(crate::specs::Coding::coding))]
pub fn coding<'s, 'a, L: Allocator + Clone, A: Allocator + Clone, B: Allocator>(
    state: &State<'_, '_, L>,
    above: &KnownNames<'_, '_, A>,
    operation: &'s Operation<'a, B>,
) -> Option<Coded<'s, 'a>>
    ensures { IsCoding result (state_of state.now above.now) (operation_of operation.now) }
{
    match operation {
        Operation::Instr(mnemonic, form) => {
            let coder = Coder {
                opcodes: &state.opcodes,
                mnemonic: *mnemonic,
                above,
            };
            let instruction = instruction_in(&coder, form)?;
            Some(Coded::Instruction(instruction))
        }
        Operation::Data(data) => Some(Coded::Data(data)),
        Operation::Values(directive, values) => Some(Coded::Values(*directive, values)),
        Operation::Reserve(count, value) => { Some(Coded::Fill(Fragment::Reserved(count, value))) }
        Operation::Segment(name) => Some(gap(state, name)),
        Operation::Nothing | Operation::Code | Operation::SetCpu(_) => Some(Coded::Nothing),
    }
}
