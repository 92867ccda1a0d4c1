//! The addressing modes.

ghost use Rattle.std.specs.Prelude.{◌≡◌};
ghost use Rattle.isa65.specs.Words.{len_of, row_of, zero_page_of};

use crate::row::{OperandKind, Pattern, Row};

/// How an instruction names its operand: the modes of the 6502, 65SC02 and 65C02.
#[derive(Clone, Copy, Debug, PartialEq, Eq)]
pub enum Mode {
    /// Implied: no operand.
    Imp,
    /// The accumulator, `a`.
    Acc,
    /// Immediate, `#E`: one byte.
    Imm,
    /// Zero page, `E`: one byte.
    Zp,
    /// Zero page indexed by X, `E,x`.
    Zpx,
    /// Zero page indexed by Y, `E,y`.
    Zpy,
    /// Absolute, `E`: two bytes, the low one first.
    Abs,
    /// Absolute indexed by X, `E,x`.
    Absx,
    /// Absolute indexed by Y, `E,y`.
    Absy,
    /// Absolute indirect, `(E)`.
    Ind,
    /// Zero page indexed by X, then indirect, `(E,x)`.
    Indx,
    /// Zero page indirect, then indexed by Y, `(E),y`.
    Indy,
    /// Zero page indirect, `(E)`.
    Zpind,
    /// Absolute indexed by X, then indirect, `(E,x)`.
    Absindx,
    /// Relative, `E`: one signed byte, counted from the next instruction.
    Rel,
    /// A zero-page byte and a relative one, `E,E`.
    Zprel,
}

impl Mode {
    /// The operands of the mode: how they are written, and the kind of each.
    #[inline]
    pub fn row(self) -> Row
        ensures { result ≡ row_of self }
    {
        match self {
            Mode::Imp => Row::Implied,
            Mode::Acc => Row::Accumulator,
            Mode::Imm => Row::One(Pattern::Immediate, OperandKind::Byte),
            Mode::Zp => Row::One(Pattern::Direct, OperandKind::ZeroPage),
            Mode::Zpx => Row::One(Pattern::DirectX, OperandKind::ZeroPage),
            Mode::Zpy => Row::One(Pattern::DirectY, OperandKind::ZeroPage),
            Mode::Abs => Row::One(Pattern::Direct, OperandKind::Word),
            Mode::Absx => Row::One(Pattern::DirectX, OperandKind::Word),
            Mode::Absy => Row::One(Pattern::DirectY, OperandKind::Word),
            Mode::Ind => Row::One(Pattern::Indirect, OperandKind::Word),
            Mode::Indx => Row::One(Pattern::IndirectX, OperandKind::ZeroPage),
            Mode::Indy => Row::One(Pattern::IndirectY, OperandKind::ZeroPage),
            Mode::Zpind => Row::One(Pattern::Indirect, OperandKind::ZeroPage),
            Mode::Absindx => Row::One(Pattern::IndirectX, OperandKind::Word),
            Mode::Rel => Row::One(Pattern::Direct, OperandKind::Distance),
            Mode::Zprel => Row::Two(OperandKind::ZeroPage, OperandKind::Distance),
        }
    }

    /// The length of an instruction of this mode, opcode included: 1 to 3 bytes.
    #[inline]
    pub fn len(self) -> u8
        /// Returns the length of an instruction in this mode.
        ensures { result ≡ len_of self }
    {
        match self.row() {
            Row::Implied | Row::Accumulator => 1,
            Row::One(_, kind) => 1 + kind.size(),
            Row::Two(first, second) => 1 + first.size() + second.size(),
        }
    }

    /// The zero-page mode that is written like this absolute one: `Zp` for `Abs`, `Zpx` for `Absx`,
    /// `Zpy` for `Absy`, and `None` for every other mode.
    pub fn zero_page(self) -> Option<Mode>
        /// Returns the zero-page mode that is written like this absolute one, if there is one.
        ensures { result ≡ zero_page_of self }
    {
        match self.row() {
            Row::One(Pattern::Direct, OperandKind::Word) => Some(Mode::Zp),
            Row::One(Pattern::DirectX, OperandKind::Word) => Some(Mode::Zpx),
            Row::One(Pattern::DirectY, OperandKind::Word) => Some(Mode::Zpy),
            _ => None,
        }
    }
}
