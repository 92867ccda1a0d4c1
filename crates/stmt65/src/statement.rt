//! What a line of a listing says.

use crate::source_line::AddressSize;
use isa65::{Cpu, Op};

/// An operand's value, as it is written.
#[derive(Clone, Copy, Debug, PartialEq, Eq)]
pub enum Expr<'a> {
    /// A number, in as many hex digits as the mode writes.
    Number(u16),
    /// A name of 1 to 80 bytes, and what is added to its value; `+0` is not written.
    Name(&'a [u8], u16),
}

/// The operands of an instruction, as many as its mode writes.
#[derive(Clone, Copy, Debug, PartialEq, Eq)]
pub enum Operands<'a> {
    /// Those of `Imp` and `Acc`.
    None,
    /// That of every other mode except `Zprel`.
    One(Expr<'a>),
    /// Those of `Zprel`: the zero-page address, then the target.
    Two(Expr<'a>, Expr<'a>),
}

/// The target of a table entry.
#[derive(Clone, Copy, Debug, PartialEq, Eq)]
pub struct Target<'a> {
    /// A name of 1 to 80 bytes.
    pub name: &'a [u8],
    /// What is added to its value; `+0` is not written.
    pub offset: u16,
}

/// A statement, a remark or an empty line. Instructions, tables and their entries have bytes.
#[derive(Clone, Copy, Debug, PartialEq, Eq)]
pub enum Statement<'a> {
    /// An instruction. The size is `Absolute` if `a:` stands before its operand, in `Abs`, `Absx` and
    /// `Absy` alone.
    Instr {
        op: Op,
        size: AddressSize,
        operands: Operands<'a>,
    },
    /// `.byte` and 1 to 8 bytes.
    Bytes(&'a [u8]),
    /// `.byte` and 1 to 16 bytes as text: each longest stretch of $20 to $7E without `"` and `\` in
    /// double quotes, each other byte as a number.
    Text(&'a [u8]),
    /// `.word` and the words of 2, 4, 6 or 8 bytes, low byte first.
    Words(&'a [u8]),
    /// `.dbyt` and the words of 2, 4, 6 or 8 bytes, high byte first.
    Dbyts(&'a [u8]),
    /// `.dword` and the double words of 4 or 8 bytes, low byte first.
    Dwords(&'a [u8]),
    /// `.addr` and the target.
    Addr(Target<'a>),
    /// `.word` and the target, then `-1`; without a target the word is `$FFFF`.
    Rts(Option<Target<'a>>),
    /// A name and `:`, on a line of their own.
    Label(&'a [u8]),
    /// A name, `:=` and a number in four hex digits.
    Const(&'a [u8], u16),
    /// A name, `:= * +` and a number: in decimal, or in four hex digits.
    Forward(&'a [u8], u16),
    /// `.segment` and a name of 1 to 80 bytes in double quotes, which may be a reserved one.
    Segment(&'a [u8]),
    /// `.code`, the default segment.
    Code,
    /// `.setcpu` and the CPU's name.
    SetCpu(Cpu),
    /// An empty line.
    Blank,
    /// `; ` and at most 200 bytes without a line feed.
    Remark(&'a [u8]),
}

impl Statement<'_> {
    ghost use Rattle.std.specs.Prelude.{◌≡◌};
    ghost use Rattle.stmt65.specs.Statements.{has_bytes};
    ghost use Rattle.stmt65.specs.Code.StatementViews.{statement_seen};

    /// Whether it is an instruction or data.
    pub fn has_bytes(&self) -> bool
        /// Returns whether a statement is an instruction or data.
        ensures { result ≡ has_bytes (statement_seen self.now) }
    {
        matches!(
            self,
            Statement::Instr { .. }
                | Statement::Bytes(_)
                | Statement::Text(_)
                | Statement::Words(_)
                | Statement::Dbyts(_)
                | Statement::Dwords(_)
                | Statement::Addr(_)
                | Statement::Rts(_)
        )
    }
}
