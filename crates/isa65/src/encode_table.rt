//! The opcodes of a CPU in a table by mnemonic and mode.

ghost use Rattle.std.specs.Prelude.{◌≡◌, ◌<◌, length};
ghost use Rattle.isa65.specs.Words.{place_of, with_code};

use crate::cpu::Cpu;
use crate::mnemonic::Mnemonic;
use crate::mode::Mode;
use crate::op::Op;
use crate::opcode_set::OpcodeSet;
use std::marker::Model;

// A row for each of the 96 mnemonics, a column for each of the 16 modes.
const CELLS: usize = 1536;

/// The opcodes of a CPU in a table by mnemonic and mode. It serves whoever encodes many instructions:
/// [`EncodeTable::encode`] is one look-up. It takes 3 KiB.
#[derive(Drop)]
pub struct EncodeTable {
    cpu: Cpu,
    codes: [Option<u8>; CELLS],
}

impl Model for EncodeTable {
    ghost use Rattle.std.specs.Prelude.{◌≡◌, None, get_or};
    ghost use Rattle.isa65.specs.Cpu.{table_of};
    ghost use Rattle.isa65.specs.Opcodes.{encoded};
    ghost use Rattle.isa65.specs.Places.{place_of};
    ghost use Rattle.isa65.specs.declared.cpu.Cpu.{Cpu};
    ghost use Rattle.isa65.specs.declared.mnemonic.Mnemonic.{Mnemonic};
    ghost use Rattle.isa65.specs.declared.mode.Mode.{Mode};

    ghost Value = { Cpu };

    ghost view = { λ t. t.cpu };

    ghost invariant = { λ t. (m : Mnemonic) (x : Mode) → get_or t.codes (place_of m x) None ≡ encoded (table_of t.cpu) m x };
}

impl EncodeTable {
    ghost use Rattle.isa65.specs.Cpu.{table_of};
    ghost use Rattle.isa65.specs.Opcodes.{encoded};

    /// Decodes each byte, and puts it into its cell.
    pub fn new(cpu: Cpu) -> EncodeTable
        /// The table is that of the given CPU.
        ensures { result ≡ cpu }
    {
        let mut codes = [None; CELLS];
        'bytes: for byte in 0..256usize {
            put(&mut codes, byte as u8, cpu.decode(byte as u8));
        }
        EncodeTable { cpu, codes }
    }

    /// The CPU whose opcodes these are.
    pub fn cpu(&self) -> Cpu
        /// Returns the CPU of the table.
        ensures { result ≡ self.now }
    {
        self.cpu
    }

    /// The opcode of a mnemonic in a mode, or `None` if the CPU has no such form.
    #[inline(always)]
    pub fn encode(&self, mnemonic: Mnemonic, mode: Mode) -> Option<u8>
        /// Returns the opcode of a mnemonic in a mode by the published table.
        ensures { result ≡ encoded (table_of self.now) mnemonic mode }
    {
        self.codes[place(Op { mnemonic, mode })]
    }
}

/// Puts an opcode into the cell of what it stands for.
fn put(codes: &mut [Option<u8>], byte: u8, found: Option<Op>)
    requires { length codes.old ≡ 1536 }
    ensures { codes.new ≡ with_code codes.old byte found }
{
    if let Some(op) = found {
        codes[place(op)] = Some(byte);
    }
}

/// The cell of a mnemonic in a mode.
#[tactic(auto, using(crate::proofs::FilledLemmas::place_lt))]
#[inline(always)]
fn place(op: Op) -> usize
    ensures value { result ≡ place_of op.mnemonic op.mode }
    ensures fits { result < 1536 }
{
    op.mnemonic as usize * 16 + op.mode as usize
}
