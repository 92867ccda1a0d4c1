//! The mnemonics of the 6502 family.

ghost use Rattle.std.specs.Prelude.{◌≡◌, ◌↔◌, Some, get_or};
ghost use Rattle.std.specs.Str.{str_eq_ignore_ascii_case, str_to_ascii_lowercase};
ghost use Rattle.isa65.specs.Words.{Adc, candidate, mnemonic_named, number_of, text_of};

/// The name of an instruction: the 56 of the 6502, the 8 that the 65SC02 adds, and the 32 bit
/// instructions of the 65C02, in this order.
#[derive(Clone, Copy, Debug, PartialEq, Eq)]
pub enum Mnemonic {
    /// Adds memory and the carry to the accumulator.
    Adc,
    /// Ands memory into the accumulator.
    And,
    /// Shifts left by one bit.
    Asl,
    /// Branches if the carry is clear.
    Bcc,
    /// Branches if the carry is set.
    Bcs,
    /// Branches if the last result was zero.
    Beq,
    /// Tests the bits of memory against the accumulator.
    Bit,
    /// Branches if the last result was negative.
    Bmi,
    /// Branches if the last result was not zero.
    Bne,
    /// Branches if the last result was not negative.
    Bpl,
    /// Breaks: calls the interrupt handler.
    Brk,
    /// Branches if there was no overflow.
    Bvc,
    /// Branches if there was an overflow.
    Bvs,
    /// Clears the carry.
    Clc,
    /// Clears decimal mode.
    Cld,
    /// Enables interrupts.
    Cli,
    /// Clears the overflow flag.
    Clv,
    /// Compares memory with the accumulator.
    Cmp,
    /// Compares memory with X.
    Cpx,
    /// Compares memory with Y.
    Cpy,
    /// Decrements memory, or on later CPUs the accumulator.
    Dec,
    /// Decrements X.
    Dex,
    /// Decrements Y.
    Dey,
    /// Exclusive-ors memory into the accumulator.
    Eor,
    /// Increments memory, or on later CPUs the accumulator.
    Inc,
    /// Increments X.
    Inx,
    /// Increments Y.
    Iny,
    /// Jumps.
    Jmp,
    /// Calls a subroutine.
    Jsr,
    /// Loads the accumulator.
    Lda,
    /// Loads X.
    Ldx,
    /// Loads Y.
    Ldy,
    /// Shifts right by one bit.
    Lsr,
    /// Does nothing.
    Nop,
    /// Ors memory into the accumulator.
    Ora,
    /// Pushes the accumulator.
    Pha,
    /// Pushes the flags.
    Php,
    /// Pulls the accumulator.
    Pla,
    /// Pulls the flags.
    Plp,
    /// Rotates left through the carry.
    Rol,
    /// Rotates right through the carry.
    Ror,
    /// Returns from an interrupt.
    Rti,
    /// Returns from a subroutine.
    Rts,
    /// Subtracts memory and the borrow from the accumulator.
    Sbc,
    /// Sets the carry.
    Sec,
    /// Sets decimal mode.
    Sed,
    /// Disables interrupts.
    Sei,
    /// Stores the accumulator.
    Sta,
    /// Stores X.
    Stx,
    /// Stores Y.
    Sty,
    /// Copies the accumulator to X.
    Tax,
    /// Copies the accumulator to Y.
    Tay,
    /// Copies the stack pointer to X.
    Tsx,
    /// Copies X to the accumulator.
    Txa,
    /// Copies X to the stack pointer.
    Txs,
    /// Copies Y to the accumulator.
    Tya,
    /// Branches always.
    Bra,
    /// Pushes X.
    Phx,
    /// Pushes Y.
    Phy,
    /// Pulls X.
    Plx,
    /// Pulls Y.
    Ply,
    /// Stores zero.
    Stz,
    /// Tests and resets the bits of the accumulator in memory.
    Trb,
    /// Tests and sets the bits of the accumulator in memory.
    Tsb,
    /// Branches if bit 0 of a zero-page byte is clear.
    Bbr0,
    /// Branches if bit 1 of a zero-page byte is clear.
    Bbr1,
    /// Branches if bit 2 of a zero-page byte is clear.
    Bbr2,
    /// Branches if bit 3 of a zero-page byte is clear.
    Bbr3,
    /// Branches if bit 4 of a zero-page byte is clear.
    Bbr4,
    /// Branches if bit 5 of a zero-page byte is clear.
    Bbr5,
    /// Branches if bit 6 of a zero-page byte is clear.
    Bbr6,
    /// Branches if bit 7 of a zero-page byte is clear.
    Bbr7,
    /// Branches if bit 0 of a zero-page byte is set.
    Bbs0,
    /// Branches if bit 1 of a zero-page byte is set.
    Bbs1,
    /// Branches if bit 2 of a zero-page byte is set.
    Bbs2,
    /// Branches if bit 3 of a zero-page byte is set.
    Bbs3,
    /// Branches if bit 4 of a zero-page byte is set.
    Bbs4,
    /// Branches if bit 5 of a zero-page byte is set.
    Bbs5,
    /// Branches if bit 6 of a zero-page byte is set.
    Bbs6,
    /// Branches if bit 7 of a zero-page byte is set.
    Bbs7,
    /// Clears bit 0 of a zero-page byte.
    Rmb0,
    /// Clears bit 1 of a zero-page byte.
    Rmb1,
    /// Clears bit 2 of a zero-page byte.
    Rmb2,
    /// Clears bit 3 of a zero-page byte.
    Rmb3,
    /// Clears bit 4 of a zero-page byte.
    Rmb4,
    /// Clears bit 5 of a zero-page byte.
    Rmb5,
    /// Clears bit 6 of a zero-page byte.
    Rmb6,
    /// Clears bit 7 of a zero-page byte.
    Rmb7,
    /// Sets bit 0 of a zero-page byte.
    Smb0,
    /// Sets bit 1 of a zero-page byte.
    Smb1,
    /// Sets bit 2 of a zero-page byte.
    Smb2,
    /// Sets bit 3 of a zero-page byte.
    Smb3,
    /// Sets bit 4 of a zero-page byte.
    Smb4,
    /// Sets bit 5 of a zero-page byte.
    Smb5,
    /// Sets bit 6 of a zero-page byte.
    Smb6,
    /// Sets bit 7 of a zero-page byte.
    Smb7,
}

/// Each mnemonic once.
const ALL: [Mnemonic; 96] = [
    Mnemonic::Adc,
    Mnemonic::And,
    Mnemonic::Asl,
    Mnemonic::Bcc,
    Mnemonic::Bcs,
    Mnemonic::Beq,
    Mnemonic::Bit,
    Mnemonic::Bmi,
    Mnemonic::Bne,
    Mnemonic::Bpl,
    Mnemonic::Brk,
    Mnemonic::Bvc,
    Mnemonic::Bvs,
    Mnemonic::Clc,
    Mnemonic::Cld,
    Mnemonic::Cli,
    Mnemonic::Clv,
    Mnemonic::Cmp,
    Mnemonic::Cpx,
    Mnemonic::Cpy,
    Mnemonic::Dec,
    Mnemonic::Dex,
    Mnemonic::Dey,
    Mnemonic::Eor,
    Mnemonic::Inc,
    Mnemonic::Inx,
    Mnemonic::Iny,
    Mnemonic::Jmp,
    Mnemonic::Jsr,
    Mnemonic::Lda,
    Mnemonic::Ldx,
    Mnemonic::Ldy,
    Mnemonic::Lsr,
    Mnemonic::Nop,
    Mnemonic::Ora,
    Mnemonic::Pha,
    Mnemonic::Php,
    Mnemonic::Pla,
    Mnemonic::Plp,
    Mnemonic::Rol,
    Mnemonic::Ror,
    Mnemonic::Rti,
    Mnemonic::Rts,
    Mnemonic::Sbc,
    Mnemonic::Sec,
    Mnemonic::Sed,
    Mnemonic::Sei,
    Mnemonic::Sta,
    Mnemonic::Stx,
    Mnemonic::Sty,
    Mnemonic::Tax,
    Mnemonic::Tay,
    Mnemonic::Tsx,
    Mnemonic::Txa,
    Mnemonic::Txs,
    Mnemonic::Tya,
    Mnemonic::Bra,
    Mnemonic::Phx,
    Mnemonic::Phy,
    Mnemonic::Plx,
    Mnemonic::Ply,
    Mnemonic::Stz,
    Mnemonic::Trb,
    Mnemonic::Tsb,
    Mnemonic::Bbr0,
    Mnemonic::Bbr1,
    Mnemonic::Bbr2,
    Mnemonic::Bbr3,
    Mnemonic::Bbr4,
    Mnemonic::Bbr5,
    Mnemonic::Bbr6,
    Mnemonic::Bbr7,
    Mnemonic::Bbs0,
    Mnemonic::Bbs1,
    Mnemonic::Bbs2,
    Mnemonic::Bbs3,
    Mnemonic::Bbs4,
    Mnemonic::Bbs5,
    Mnemonic::Bbs6,
    Mnemonic::Bbs7,
    Mnemonic::Rmb0,
    Mnemonic::Rmb1,
    Mnemonic::Rmb2,
    Mnemonic::Rmb3,
    Mnemonic::Rmb4,
    Mnemonic::Rmb5,
    Mnemonic::Rmb6,
    Mnemonic::Rmb7,
    Mnemonic::Smb0,
    Mnemonic::Smb1,
    Mnemonic::Smb2,
    Mnemonic::Smb3,
    Mnemonic::Smb4,
    Mnemonic::Smb5,
    Mnemonic::Smb6,
    Mnemonic::Smb7,
];

// Where the text of this number stands in `ALL`. A number that no text has leads to the first. The factors of
// `number_of` were found by search: no two texts have one number.
const PLACES: [u8; 247] = [
    29, 0, 0, 0, 21, 0, 61, 0, 0, 0, 0, 63, 46, 0, 0, 0, 0, 0, 0, 14, 0, 8, 49, 0, 0, 0, 0, 0, 0,
    0, 41, 0, 0, 0, 0, 13, 1, 0, 48, 0, 0, 0, 35, 0, 0, 0, 0, 0, 0, 36, 0, 0, 0, 0, 0, 0, 0, 0, 39,
    0, 24, 0, 0, 4, 0, 0, 0, 0, 0, 0, 0, 7, 3, 0, 0, 0, 0, 0, 0, 2, 37, 0, 0, 0, 55, 0, 0, 38, 0,
    0, 0, 0, 45, 20, 0, 0, 0, 0, 0, 0, 0, 0, 0, 0, 6, 0, 0, 0, 44, 0, 31, 0, 0, 0, 5, 72, 0, 42, 0,
    0, 12, 0, 0, 56, 73, 62, 30, 0, 0, 11, 0, 64, 0, 74, 0, 0, 34, 80, 88, 0, 65, 0, 75, 0, 0, 0,
    81, 89, 0, 66, 0, 76, 58, 52, 0, 82, 90, 54, 67, 47, 77, 0, 0, 0, 83, 91, 0, 68, 57, 78, 0, 0,
    0, 84, 92, 9, 69, 0, 79, 0, 0, 0, 85, 93, 0, 70, 15, 0, 0, 0, 60, 86, 94, 0, 71, 0, 23, 0, 53,
    0, 87, 95, 26, 43, 0, 0, 59, 17, 0, 40, 10, 0, 0, 51, 27, 19, 0, 0, 25, 0, 0, 0, 0, 0, 0, 16,
    0, 0, 0, 50, 0, 18, 0, 0, 0, 22, 0, 33, 0, 28, 0, 32, 0, 0, 0, 0, 0,
];

impl Mnemonic {
    ghost use Rattle.isa65.specs.declared.mnemonic.Mnemonic.{Mnemonic};

    /// The mnemonic as the data sheets write it, in lower case.
    #[inline(always)]
    pub fn text(self) -> &'static [u8]
        /// Returns the text of the mnemonic.
        ensures { result.now ≡ text_of self }
    {
        match self {
            Mnemonic::Adc => b"adc",
            Mnemonic::And => b"and",
            Mnemonic::Asl => b"asl",
            Mnemonic::Bcc => b"bcc",
            Mnemonic::Bcs => b"bcs",
            Mnemonic::Beq => b"beq",
            Mnemonic::Bit => b"bit",
            Mnemonic::Bmi => b"bmi",
            Mnemonic::Bne => b"bne",
            Mnemonic::Bpl => b"bpl",
            Mnemonic::Brk => b"brk",
            Mnemonic::Bvc => b"bvc",
            Mnemonic::Bvs => b"bvs",
            Mnemonic::Clc => b"clc",
            Mnemonic::Cld => b"cld",
            Mnemonic::Cli => b"cli",
            Mnemonic::Clv => b"clv",
            Mnemonic::Cmp => b"cmp",
            Mnemonic::Cpx => b"cpx",
            Mnemonic::Cpy => b"cpy",
            Mnemonic::Dec => b"dec",
            Mnemonic::Dex => b"dex",
            Mnemonic::Dey => b"dey",
            Mnemonic::Eor => b"eor",
            Mnemonic::Inc => b"inc",
            Mnemonic::Inx => b"inx",
            Mnemonic::Iny => b"iny",
            Mnemonic::Jmp => b"jmp",
            Mnemonic::Jsr => b"jsr",
            Mnemonic::Lda => b"lda",
            Mnemonic::Ldx => b"ldx",
            Mnemonic::Ldy => b"ldy",
            Mnemonic::Lsr => b"lsr",
            Mnemonic::Nop => b"nop",
            Mnemonic::Ora => b"ora",
            Mnemonic::Pha => b"pha",
            Mnemonic::Php => b"php",
            Mnemonic::Pla => b"pla",
            Mnemonic::Plp => b"plp",
            Mnemonic::Rol => b"rol",
            Mnemonic::Ror => b"ror",
            Mnemonic::Rti => b"rti",
            Mnemonic::Rts => b"rts",
            Mnemonic::Sbc => b"sbc",
            Mnemonic::Sec => b"sec",
            Mnemonic::Sed => b"sed",
            Mnemonic::Sei => b"sei",
            Mnemonic::Sta => b"sta",
            Mnemonic::Stx => b"stx",
            Mnemonic::Sty => b"sty",
            Mnemonic::Tax => b"tax",
            Mnemonic::Tay => b"tay",
            Mnemonic::Tsx => b"tsx",
            Mnemonic::Txa => b"txa",
            Mnemonic::Txs => b"txs",
            Mnemonic::Tya => b"tya",
            Mnemonic::Bra => b"bra",
            Mnemonic::Phx => b"phx",
            Mnemonic::Phy => b"phy",
            Mnemonic::Plx => b"plx",
            Mnemonic::Ply => b"ply",
            Mnemonic::Stz => b"stz",
            Mnemonic::Trb => b"trb",
            Mnemonic::Tsb => b"tsb",
            Mnemonic::Bbr0 => b"bbr0",
            Mnemonic::Bbr1 => b"bbr1",
            Mnemonic::Bbr2 => b"bbr2",
            Mnemonic::Bbr3 => b"bbr3",
            Mnemonic::Bbr4 => b"bbr4",
            Mnemonic::Bbr5 => b"bbr5",
            Mnemonic::Bbr6 => b"bbr6",
            Mnemonic::Bbr7 => b"bbr7",
            Mnemonic::Bbs0 => b"bbs0",
            Mnemonic::Bbs1 => b"bbs1",
            Mnemonic::Bbs2 => b"bbs2",
            Mnemonic::Bbs3 => b"bbs3",
            Mnemonic::Bbs4 => b"bbs4",
            Mnemonic::Bbs5 => b"bbs5",
            Mnemonic::Bbs6 => b"bbs6",
            Mnemonic::Bbs7 => b"bbs7",
            Mnemonic::Rmb0 => b"rmb0",
            Mnemonic::Rmb1 => b"rmb1",
            Mnemonic::Rmb2 => b"rmb2",
            Mnemonic::Rmb3 => b"rmb3",
            Mnemonic::Rmb4 => b"rmb4",
            Mnemonic::Rmb5 => b"rmb5",
            Mnemonic::Rmb6 => b"rmb6",
            Mnemonic::Rmb7 => b"rmb7",
            Mnemonic::Smb0 => b"smb0",
            Mnemonic::Smb1 => b"smb1",
            Mnemonic::Smb2 => b"smb2",
            Mnemonic::Smb3 => b"smb3",
            Mnemonic::Smb4 => b"smb4",
            Mnemonic::Smb5 => b"smb5",
            Mnemonic::Smb6 => b"smb6",
            Mnemonic::Smb7 => b"smb7",
        }
    }

    /// The mnemonic that the bytes spell in any letter case, if there is one.
    pub fn from_bytes(bytes: &[u8]) -> Option<Mnemonic>
        /// Returns a mnemonic exactly when the bytes are its text in any letter case.
        ensures value { result ≡ mnemonic_named bytes.now }
        ensures named { (m : Mnemonic) → (result ≡ Some m) ↔ (str_to_ascii_lowercase bytes.now ≡ text_of m) }
    {
        let mnemonic = candidate(bytes);
        is_same_word(mnemonic.text(), bytes).then_some(mnemonic)
    }
}

/// The only mnemonic that the bytes can spell.
#[tactic(auto, unfolding(crate::specs::Candidates::candidate))]
fn candidate(bytes: &[u8]) -> Mnemonic
    ensures { result ≡ candidate (str_to_ascii_lowercase bytes.now) }
{
    let place = place_in(&PLACES, number_of(bytes));
    nth(&ALL, usize::from(place))
}

/// A number that tells the texts of the mnemonics apart, in any letter case.
#[tactic(auto, unfolding(crate::specs::Candidates::number_of))]
fn number_of(bytes: &[u8]) -> usize
    ensures { result ≡ number_of (str_to_ascii_lowercase bytes.now) }
{
    let first = usize::from(lowercase_at(bytes, 0));
    let second = usize::from(lowercase_at(bytes, 1));
    let third = usize::from(lowercase_at(bytes, 2));
    let fourth = usize::from(lowercase_at(bytes, 3));
    (first + second * 133 + third * 231 + fourth * 9) % 247
}

/// A byte in lower case, or 0 after the last one.
fn lowercase_at(bytes: &[u8], place: usize) -> u8
    ensures { result ≡ get_or (str_to_ascii_lowercase bytes.now) place 0 }
{
    match bytes.get(place) {
        Some(byte) => byte.to_ascii_lowercase(),
        None => 0,
    }
}

fn place_in(places: &[u8], number: usize) -> u8
    ensures { result ≡ get_or places.now number 0 }
{
    match places.get(number) {
        Some(place) => *place,
        None => 0,
    }
}

fn nth(mnemonics: &[Mnemonic], place: usize) -> Mnemonic
    ensures { result ≡ get_or mnemonics.now place Adc }
{
    match mnemonics.get(place) {
        Some(mnemonic) => *mnemonic,
        None => Mnemonic::Adc,
    }
}

/// Whether the bytes are the text, in any letter case.
fn is_same_word(text: &[u8], bytes: &[u8]) -> bool
    ensures { result ≡ str_eq_ignore_ascii_case text.now bytes.now }
{
    text.eq_ignore_ascii_case(bytes)
}
