//! What the opcodes of a CPU stand for.

ghost use Rattle.std.specs.Prelude.{◌≡◌, ◌↔◌, ◌<◌, ℕ, Some, IsTrue};
ghost use Rattle.isa65.specs.Words.{DifferInSize, Op, Table, decoded, encoded, sibling_in};

use crate::mnemonic::Mnemonic;
use crate::mode::Mode;
use crate::op::Op;

/// The opcodes of a CPU.
///
/// An implementation gives its table and `decode`, and proves three laws of the table: an opcode is a byte,
/// `encode` is the inverse of `decode`, and two modes of a mnemonic that are written alike are a zero-page
/// and absolute pair. It may give a faster `sibling`.
pub trait OpcodeSet {
    /// Each opcode with its mnemonic and mode.
    ghost table: { Self → Table };

    /// What an opcode stands for, or `None` if it is undefined. Takes constant time.
    fn decode(&self, byte: u8) -> Option<Op>
        /// Returns what the table has for the byte.
        ensures { result ≡ decoded (table self.now) byte };

    /// The zero-page mode that is written like the absolute mode of `op`, if the mnemonic has it. Searches
    /// all opcodes. Takes constant time where `encode` does.
    fn sibling(&self, op: Op) -> Option<Mode>
        /// Returns the zero-page mode that is written like an absolute one, if the mnemonic has it by the table.
        ensures { result ≡ sibling_in (table self.now) op }
    {
        match op.mode.zero_page() {
            Some(mode) if self.encode(op.mnemonic, mode).is_some() => Some(mode),
            _ => None,
        }
    }

    /// The opcode of a mnemonic in a mode, or `None` if it has no such form. Searches all opcodes.
    fn encode(&self, mnemonic: Mnemonic, mode: Mode) -> Option<u8>
        /// Returns the opcode of a mnemonic in a mode by the table, if it has one.
        ensures { result ≡ encoded (table self.now) mnemonic mode }
    {
        let op = Op { mnemonic, mode };
        for byte in 0..=u8::MAX {
            if is_this(self.decode(byte), op) {
                return Some(byte);
            }
        }
        None
    }

    /// An opcode is a byte.
    ghost is_byte: { (s : Self) (b : ℕ) (op : Op) → decoded (table s) b ≡ Some op → b < 256 };

    /// A pair has an opcode exactly where that opcode stands for the pair.
    ghost inverse: { (s : Self) (b : ℕ) (op : Op) → (encoded (table s) op.mnemonic op.mode ≡ Some b) ↔ (decoded (table s) b ≡ Some op) };

    /// Two modes of a mnemonic that are written alike differ in the size of their operand alone.
    ghost sizes: { (s : Self) → DifferInSize (table s) };
}

/// What an opcode stands for.
pub fn op(mnemonic: Mnemonic, mode: Mode) -> Option<Op>
    ensures { result ≡ Some (record { mnemonic = mnemonic; mode = mode }) }
{
    Some(Op { mnemonic, mode })
}

fn is_this(found: Option<Op>, op: Op) -> bool
    ensures { IsTrue result ↔ (found ≡ Some op) }
{
    found == Some(op)
}
