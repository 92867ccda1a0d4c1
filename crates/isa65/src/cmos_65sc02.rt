//! The opcodes of the 65SC02.

ghost use Rattle.isa65.specs.Words.{cmos_65sc02, cmos_65sc02-sound, encoded-decoded, opcode-lt, written_alike};

use crate::mnemonic::Mnemonic;
use crate::mode::Mode;
use crate::mos_6502::Mos6502;
use crate::op::Op;
use crate::opcode_set::{OpcodeSet, op};

/// The 178 opcodes of the 65SC02: those of the MOS 6502 and 27 more.
#[derive(Clone, Copy, Debug, PartialEq, Eq)]
pub struct Cmos65Sc02;

impl OpcodeSet for Cmos65Sc02 {
    /// The table is the published one of the 65SC02.
    ghost table = { λ _. cmos_65sc02 };

    #[inline(always)]
    fn decode(&self, byte: u8) -> Option<Op> {
        match byte {
            0x04 => op(Mnemonic::Tsb, Mode::Zp),
            0x0C => op(Mnemonic::Tsb, Mode::Abs),
            0x12 => op(Mnemonic::Ora, Mode::Zpind),
            0x14 => op(Mnemonic::Trb, Mode::Zp),
            0x1A => op(Mnemonic::Inc, Mode::Acc),
            0x1C => op(Mnemonic::Trb, Mode::Abs),
            0x32 => op(Mnemonic::And, Mode::Zpind),
            0x34 => op(Mnemonic::Bit, Mode::Zpx),
            0x3A => op(Mnemonic::Dec, Mode::Acc),
            0x3C => op(Mnemonic::Bit, Mode::Absx),
            0x52 => op(Mnemonic::Eor, Mode::Zpind),
            0x5A => op(Mnemonic::Phy, Mode::Imp),
            0x64 => op(Mnemonic::Stz, Mode::Zp),
            0x72 => op(Mnemonic::Adc, Mode::Zpind),
            0x74 => op(Mnemonic::Stz, Mode::Zpx),
            0x7A => op(Mnemonic::Ply, Mode::Imp),
            0x7C => op(Mnemonic::Jmp, Mode::Absindx),
            0x80 => op(Mnemonic::Bra, Mode::Rel),
            0x89 => op(Mnemonic::Bit, Mode::Imm),
            0x92 => op(Mnemonic::Sta, Mode::Zpind),
            0x9C => op(Mnemonic::Stz, Mode::Abs),
            0x9E => op(Mnemonic::Stz, Mode::Absx),
            0xB2 => op(Mnemonic::Lda, Mode::Zpind),
            0xD2 => op(Mnemonic::Cmp, Mode::Zpind),
            0xDA => op(Mnemonic::Phx, Mode::Imp),
            0xF2 => op(Mnemonic::Sbc, Mode::Zpind),
            0xFA => op(Mnemonic::Plx, Mode::Imp),
            _ => Mos6502.decode(byte),
        }
    }

    ghost is_byte = { λ _ b op h. opcode-lt cmos_65sc02 cmos_65sc02-sound b op h };

    ghost inverse = { λ _ b op. encoded-decoded cmos_65sc02 cmos_65sc02-sound b op };

    ghost sizes = { λ _. written_alike cmos_65sc02 cmos_65sc02-sound };
}
