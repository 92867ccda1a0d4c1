//! Instructions without their operands.

ghost use Rattle.std.specs.Prelude.{◌≡◌};
ghost use Rattle.isa65.specs.Words.{sibling_in};

use crate::mnemonic::Mnemonic;
use crate::mode::Mode;
use crate::opcode_set::OpcodeSet;

/// What an opcode stands for.
#[derive(Clone, Copy, Debug, PartialEq, Eq)]
pub struct Op {
    /// What the instruction is called.
    pub mnemonic: Mnemonic,
    /// How it names its operand.
    pub mode: Mode,
}

impl Op {
    /// The zero-page mode that is written like this absolute one, if the set has the same mnemonic
    /// in that mode too. An assembler then takes the shorter form for an operand below $100, unless
    /// `a:` stands before it.
    pub fn sibling<S: OpcodeSet>(self, set: &S) -> Option<Mode>
        /// Returns the zero-page mode that is written like the mode of the operation, if the mnemonic has it in the
        /// set.
        ensures { result ≡ sibling_in (S.table set.now) self }
    {
        set.sibling(self)
    }
}
