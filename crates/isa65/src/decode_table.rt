//! The opcodes of a CPU in a table by byte.

ghost use Rattle.std.specs.Prelude.{◌≡◌};

use crate::cpu::Cpu;
use crate::encode_table::EncodeTable;
use crate::mnemonic::Mnemonic;
use crate::mode::Mode;
use crate::op::Op;
use crate::opcode_set::OpcodeSet;
use std::marker::Model;

/// The opcodes of a CPU, each decoded once, in a table by byte. It is itself an [`OpcodeSet`], that of the CPU's
/// opcodes, and serves whoever decodes many bytes: [`OpcodeSet::decode`] is one look-up, and so are
/// [`OpcodeSet::encode`] and [`OpcodeSet::sibling`].
#[derive(Drop)]
pub struct DecodeTable {
    ops: [Option<Op>; 256],
    codes: EncodeTable,
}

impl Model for DecodeTable {
    ghost use Rattle.std.specs.Prelude.{◌≡◌, ◌<◌, ℕ, None, get_or};
    ghost use Rattle.isa65.specs.Cpu.{table_of};
    ghost use Rattle.isa65.specs.Opcodes.{decoded};
    ghost use Rattle.isa65.specs.declared.cpu.Cpu.{Cpu};

    ghost Value = { Cpu };

    ghost view = { λ t. t.codes };

    ghost invariant = { λ t. (b : ℕ) → b < 256 → get_or t.ops b None ≡ decoded (table_of t.codes) b };
}

impl DecodeTable {
    /// Decodes each byte.
    pub fn new(cpu: Cpu) -> DecodeTable
        /// The table is that of the given CPU.
        ensures { result ≡ cpu }
    {
        let mut ops = [None; 256];
        'bytes: for byte in 0..ops.len() {
            ops[byte] = cpu.decode(byte as u8);
        }
        DecodeTable {
            ops,
            codes: EncodeTable::new(cpu),
        }
    }
}

impl OpcodeSet for DecodeTable {
    ghost use Rattle.isa65.specs.Cpu.{table_of};
    ghost use Rattle.isa65.specs.CpuLaws.{table_of-sound};
    ghost use Rattle.isa65.specs.OpcodeLaws.{opcode-lt, encoded-decoded, written_alike};

    /// The table is the published one of its CPU.
    ghost table = { table_of };

    #[inline(always)]
    fn decode(&self, byte: u8) -> Option<Op> {
        self.ops[usize::from(byte)]
    }

    fn encode(&self, mnemonic: Mnemonic, mode: Mode) -> Option<u8> {
        self.codes.encode(mnemonic, mode)
    }

    ghost is_byte = { λ s b op h. opcode-lt (table_of s) (table_of-sound s) b op h };

    ghost inverse = { λ s b op. encoded-decoded (table_of s) (table_of-sound s) b op };

    ghost sizes = { λ s. written_alike (table_of s) (table_of-sound s) };
}
