//! How a line refers to a name or an address.

/// How a line refers to a name or an address, in the order in which a page shows them.
#[derive(Clone, Copy, PartialEq, Eq)]
pub enum Way {
    /// By `jsr`.
    Call,
    /// By `jmp` or `bra`.
    Jump,
    /// By a branch with a condition.
    Branch,
    Read,
    Write,
    /// By `inc`, `asl` and their like, which read and write.
    Change,
    /// By an operand in parentheses: the address there is used.
    Pointer,
    /// In a table of addresses or words.
    Table,
    /// The low or the high byte of the address.
    Half,
    /// As a number: `#NAME`, `#END-START`, or in a table of bytes.
    Value,
}

/// What a page says of those who refer to something, by the ways in their order.
pub const WAYS: [&str; 10] = [
    "called by",
    "jumped to by",
    "branched to by",
    "read by",
    "written by",
    "changed by",
    "pointer of",
    "in the table at",
    "half in",
    "value in",
];

/// The first four letters of a mnemonic or a directive, in small letters. A blank stands after three.
pub type Word = [u8; 4];

/// Those of a word.
pub fn operation_of(text: &[u8]) -> Word {
    let mut word = *b"    ";
    for (to, from) in word.iter_mut().zip(text) {
        *to = from.to_ascii_lowercase();
    }
    word
}

/// Whether code goes on with the next instruction after one of a mnemonic.
pub fn goes_on(word: Word) -> bool {
    !matches!(
        &word,
        b"jmp " | b"bra " | b"rts " | b"rti " | b"brk " | b"stp "
    )
}

impl Way {
    /// How a mnemonic or a directive refers to what its first operand has, if no sign stands before that.
    pub fn of(word: Word) -> Way {
        match &word {
            b"jsr " => Way::Call,
            b"jmp " | b"bra " => Way::Jump,
            b"bcc " | b"bcs " | b"beq " | b"bmi " | b"bne " | b"bpl " | b"bvc " | b"bvs " =>
                Way::Branch,
            b"sta " | b"stx " | b"sty " | b"stz " => Way::Write,
            b"inc " | b"dec " | b"asl " | b"lsr " | b"rol " | b"ror " | b"trb " | b"tsb " =>
                Way::Change,
            [b'r' | b's', b'm', b'b', _] => Way::Change,
            b".byt" => Way::Value,
            b".lob" | b".hib" => Way::Half,
            [b'.', ..] => Way::Table,
            _ => Way::Read,
        }
    }
}

/// The signs that have been read in the operands of a line.
#[derive(Clone, Copy)]
pub struct Signs {
    is_data: bool,
    /// Whether it is data, and each number an address.
    is_addresses: bool,
    first: Way,
    /// How a name or a number that comes next is referred to.
    pub way: Way,
    /// Whether it is added to a name, or subtracted from one.
    is_added: bool,
}

impl Signs {
    /// None yet, after a mnemonic or a directive.
    pub fn after(word: Word) -> Signs {
        let way = Way::of(word);
        Signs {
            is_data: word[0] == b'.',
            is_addresses: matches!(&word, b".add"),
            first: way,
            way,
            is_added: false,
        }
    }

    /// Whether a number that comes next is an address of memory.
    pub fn is_address(self) -> bool {
        let is_operand = !self.is_data || self.is_addresses;
        is_operand && !self.is_added && !matches!(self.way, Way::Half | Way::Value)
    }

    /// Reads a sign. A second operand of an instruction is where it branches to.
    pub fn take(&mut self, sign: u8) {
        self.is_added = sign == b'+' || sign == b'-';
        match sign {
            b'#' => self.way = Way::Value,
            b'<' | b'>' => self.way = Way::Half,
            b'(' if self.way == self.first && !self.is_data => self.way = Way::Pointer,
            b',' if self.is_data => self.way = self.first,
            b',' => self.way = Way::Branch,
            _ => {}
        }
    }
}
