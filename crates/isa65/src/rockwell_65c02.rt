//! The opcodes of the 65C02 with Rockwell's bit instructions.

ghost use Rattle.isa65.specs.Words.{encoded-decoded, opcode-lt, rockwell_65c02, rockwell_65c02-sound, written_alike};

use crate::cmos_65sc02::Cmos65Sc02;
use crate::mnemonic::Mnemonic;
use crate::mode::Mode;
use crate::op::Op;
use crate::opcode_set::{OpcodeSet, op};

/// The 210 opcodes of the 65C02 with Rockwell's bit instructions: those of the 65SC02 and 32 more. $CB and $DB, which
/// other makers use, are undefined.
#[derive(Clone, Copy, Debug, PartialEq, Eq)]
pub struct Rockwell65C02;

impl OpcodeSet for Rockwell65C02 {
    /// The table is the published one of the 65C02.
    ghost table = { λ _. rockwell_65c02 };

    #[inline(always)]
    fn decode(&self, byte: u8) -> Option<Op> {
        match byte {
            0x07 => op(Mnemonic::Rmb0, Mode::Zp),
            0x0F => op(Mnemonic::Bbr0, Mode::Zprel),
            0x17 => op(Mnemonic::Rmb1, Mode::Zp),
            0x1F => op(Mnemonic::Bbr1, Mode::Zprel),
            0x27 => op(Mnemonic::Rmb2, Mode::Zp),
            0x2F => op(Mnemonic::Bbr2, Mode::Zprel),
            0x37 => op(Mnemonic::Rmb3, Mode::Zp),
            0x3F => op(Mnemonic::Bbr3, Mode::Zprel),
            0x47 => op(Mnemonic::Rmb4, Mode::Zp),
            0x4F => op(Mnemonic::Bbr4, Mode::Zprel),
            0x57 => op(Mnemonic::Rmb5, Mode::Zp),
            0x5F => op(Mnemonic::Bbr5, Mode::Zprel),
            0x67 => op(Mnemonic::Rmb6, Mode::Zp),
            0x6F => op(Mnemonic::Bbr6, Mode::Zprel),
            0x77 => op(Mnemonic::Rmb7, Mode::Zp),
            0x7F => op(Mnemonic::Bbr7, Mode::Zprel),
            0x87 => op(Mnemonic::Smb0, Mode::Zp),
            0x8F => op(Mnemonic::Bbs0, Mode::Zprel),
            0x97 => op(Mnemonic::Smb1, Mode::Zp),
            0x9F => op(Mnemonic::Bbs1, Mode::Zprel),
            0xA7 => op(Mnemonic::Smb2, Mode::Zp),
            0xAF => op(Mnemonic::Bbs2, Mode::Zprel),
            0xB7 => op(Mnemonic::Smb3, Mode::Zp),
            0xBF => op(Mnemonic::Bbs3, Mode::Zprel),
            0xC7 => op(Mnemonic::Smb4, Mode::Zp),
            0xCF => op(Mnemonic::Bbs4, Mode::Zprel),
            0xD7 => op(Mnemonic::Smb5, Mode::Zp),
            0xDF => op(Mnemonic::Bbs5, Mode::Zprel),
            0xE7 => op(Mnemonic::Smb6, Mode::Zp),
            0xEF => op(Mnemonic::Bbs6, Mode::Zprel),
            0xF7 => op(Mnemonic::Smb7, Mode::Zp),
            0xFF => op(Mnemonic::Bbs7, Mode::Zprel),
            _ => Cmos65Sc02.decode(byte),
        }
    }

    ghost is_byte = { λ _ b op h. opcode-lt rockwell_65c02 rockwell_65c02-sound b op h };

    ghost inverse = { λ _ b op. encoded-decoded rockwell_65c02 rockwell_65c02-sound b op };

    ghost sizes = { λ _. written_alike rockwell_65c02 rockwell_65c02-sound };
}
