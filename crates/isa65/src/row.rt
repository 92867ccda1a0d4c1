//! What a mode is: how its operands are written, and what each of them is.

ghost use Rattle.std.specs.Prelude.{◌≡◌};
ghost use Rattle.isa65.specs.Words.{size_of};

/// How an operand stands in the text, with E for its expression.
#[derive(Clone, Copy, Debug, PartialEq, Eq)]
pub enum Pattern {
    /// `#E`.
    Immediate,
    /// `E`.
    Direct,
    /// `E,x`.
    DirectX,
    /// `E,y`.
    DirectY,
    /// `(E)`.
    Indirect,
    /// `(E,x)`.
    IndirectX,
    /// `(E),y`.
    IndirectY,
}

/// What the bytes of an operand are.
#[derive(Clone, Copy, Debug, PartialEq, Eq)]
pub enum OperandKind {
    /// An immediate byte.
    Byte,
    /// An address in the zero page: one byte.
    ZeroPage,
    /// A word: two bytes, the low one first.
    Word,
    /// A distance: one signed byte, counted from the next instruction.
    Distance,
}

impl OperandKind {
    /// How many bytes the operand has.
    #[inline]
    pub fn size(self) -> u8
        ensures { result ≡ size_of self }
    {
        match self {
            OperandKind::Word => 2,
            OperandKind::Byte | OperandKind::ZeroPage | OperandKind::Distance => 1,
        }
    }
}

/// The operands of a mode: how they are written, and the kind of each.
#[derive(Clone, Copy, Debug, PartialEq, Eq)]
pub enum Row {
    /// No operand.
    Implied,
    /// The accumulator, `a`, which has no bytes.
    Accumulator,
    /// One operand, in a pattern.
    One(Pattern, OperandKind),
    /// Two operands, `E,E`.
    Two(OperandKind, OperandKind),
}
