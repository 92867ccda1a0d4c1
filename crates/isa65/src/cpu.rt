//! The CPUs by name.

ghost use Rattle.std.specs.Prelude.{◌≡◌, ◌↔◌, Some};
ghost use Rattle.std.specs.Str.{str_to_ascii_lowercase};

use crate::cmos_65sc02::Cmos65Sc02;
use crate::mnemonic::Mnemonic;
use crate::mos_6502::Mos6502;
use crate::op::Op;
use crate::opcode_set::OpcodeSet;
use crate::rockwell_65c02::Rockwell65C02;

/// A CPU whose opcodes are known. It is itself an [`OpcodeSet`], that of its opcodes.
#[derive(Clone, Copy, Debug, PartialEq, Eq)]
pub enum Cpu {
    /// The MOS 6502, with its documented opcodes.
    M6502,
    /// The 65SC02: the 6502's opcodes and the CMOS ones.
    M65SC02,
    /// The 65C02 with Rockwell's bit instructions: the 65SC02's opcodes and these.
    M65C02,
}

/// Each CPU once.
const ALL: [Cpu; 3] = [Cpu::M6502, Cpu::M65SC02, Cpu::M65C02];

impl Cpu {
    ghost use Rattle.isa65.specs.declared.cpu.Cpu.{Cpu};
    ghost use Rattle.isa65.specs.Cpu.{cpu_text, cpu_named, IsNameOf};

    /// The CPU's name as ca65's `.setcpu` takes it in quotes: at most eight printable bytes, none of
    /// them a quote.
    pub fn text(self) -> &'static [u8]
        /// Returns the name of the CPU.
        ensures { result.now ≡ cpu_text self }
    {
        match self {
            Cpu::M6502 => b"6502",
            Cpu::M65SC02 => b"65SC02",
            Cpu::M65C02 => b"65C02",
        }
    }

    /// The CPU that the bytes name in any letter case, if there is one.
    #[tactic(auto, unfolding(crate::specs::Cpu::cpu_named))]
    pub fn from_bytes(bytes: &[u8]) -> Option<Cpu>
        /// Returns a CPU exactly when the bytes are its name in any letter case.
        ensures value { result ≡ cpu_named bytes.now }
        ensures named { (c : Cpu) → (result ≡ Some c) ↔ (str_to_ascii_lowercase bytes.now ≡ str_to_ascii_lowercase (cpu_text c)) }

        /// The name of each CPU has at most 8 printable bytes, no quote among them, and finds that CPU.
        ensures names { (c : Cpu) → IsNameOf c (cpu_text c) }
    {
        ALL.iter()
            .copied()
            .find(|cpu| cpu.text().eq_ignore_ascii_case(bytes))
    }
}

impl OpcodeSet for Cpu {
    ghost use Rattle.isa65.specs.Cpu.{table_of};
    ghost use Rattle.isa65.specs.CpuLaws.{table_of-sound};
    ghost use Rattle.isa65.specs.OpcodeLaws.{opcode-lt, encoded-decoded, written_alike};

    /// The table is the published one of the CPU.
    ghost table = { table_of };

    #[inline(always)]
    fn decode(&self, byte: u8) -> Option<Op> {
        match self {
            Cpu::M6502 => Mos6502.decode(byte),
            Cpu::M65SC02 => Cmos65Sc02.decode(byte),
            Cpu::M65C02 => Rockwell65C02.decode(byte),
        }
    }

    ghost is_byte = { λ s b op h. opcode-lt (table_of s) (table_of-sound s) b op h };

    ghost inverse = { λ s b op. encoded-decoded (table_of s) (table_of-sound s) b op };

    ghost sizes = { λ s. written_alike (table_of s) (table_of-sound s) };
}
