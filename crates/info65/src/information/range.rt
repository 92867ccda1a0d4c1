//! A range of addresses and what its bytes are.

ghost use Rattle.std.specs.Prelude.{◌≡◌};
ghost use Rattle.info65.specs.Words.{row};

use isa65::ByteOrder;

/// What the bytes of a range are. Each is a type word of the da65 Users Guide.
#[derive(Clone, Copy, Debug, PartialEq, Eq)]
pub enum RangeType {
    /// CODE: instructions.
    Code,
    /// BYTETABLE: bytes.
    ByteTable,
    /// WORDTABLE: words, low byte first.
    WordTable,
    /// DBYTETABLE: words, high byte first.
    DbyteTable,
    /// DWORDTABLE: double words, low byte first.
    DwordTable,
    /// ADDRTABLE: addresses, low byte first.
    AddrTable,
    /// RTSTABLE: addresses less 1, low byte first, as RTS takes them from the stack.
    RtsTable,
    /// TEXTTABLE: text.
    TextTable,
    /// SKIP: bytes that are not listed.
    Skip,
}

/// What an entry of a table is, or what the bytes of a range are that is no table.
#[derive(Clone, Copy, Debug, PartialEq, Eq)]
pub enum Entry {
    /// An instruction, which has as many bytes as its opcode says.
    Instruction,
    /// A number, whose bytes stand in this order.
    Number(ByteOrder),
    /// An address, low byte first.
    Address,
    /// An address less 1, low byte first.
    Return,
    /// A character of a text.
    Character,
    /// A byte that is not listed.
    Skipped,
}

/// How the bytes of a type are cut into entries and lines.
#[derive(Clone, Copy, Debug, PartialEq, Eq)]
pub struct Layout {
    /// How many bytes an entry has, from 1 to 4; for code 1, the bytes of an undefined opcode.
    pub unit: u8,
    /// How many entries a line takes at most, at least 1.
    pub per_line: u8,
    /// What an entry is.
    pub entry: Entry,
}

impl RangeType {
    ghost use Rattle.std.specs.Prelude.{◌≡◌, ◌≤◌};
    ghost use Rattle.info65.specs.Layouts.{IsEntry, layout_of};

    /// Returns the layout of this type.
    #[inline]
    #[tactic(auto, using(crate::proofs::LayoutLemmas::layout_entry))]
    pub fn layout(self) -> Layout
        /// Returns the number of bytes of an entry of a type, 1 to 4; the most entries of a line, at least 1; and
        /// what an entry is. A number has 1, 2 or 4 bytes, an address 2, and a line of numbers at most 8.
        ensures value { result ≡ layout_of self }
        ensures some { 1 ≤ result.unit }
        ensures small { result.unit ≤ 4 }
        ensures line { 1 ≤ result.per_line }
        ensures entry { IsEntry result.unit result.per_line result.entry }
    {
        match self {
            RangeType::Code => row(1, 1, Entry::Instruction),
            RangeType::ByteTable => row(1, 8, Entry::Number(ByteOrder::LittleEndian)),
            RangeType::WordTable => row(2, 4, Entry::Number(ByteOrder::LittleEndian)),
            RangeType::DbyteTable => row(2, 4, Entry::Number(ByteOrder::BigEndian)),
            RangeType::DwordTable => row(4, 2, Entry::Number(ByteOrder::LittleEndian)),
            RangeType::AddrTable => row(2, 1, Entry::Address),
            RangeType::RtsTable => row(2, 1, Entry::Return),
            RangeType::TextTable => row(1, 16, Entry::Character),
            RangeType::Skip => row(1, 1, Entry::Skipped),
        }
    }
}

/// A row of the table of layouts.
fn row(unit: u8, per_line: u8, entry: Entry) -> Layout
    ensures { result ≡ row unit per_line entry }
{
    Layout {
        unit,
        per_line,
        entry,
    }
}

/// The addresses from `first` to `last`, both of them included, and what the bytes there are.
#[derive(Clone, Copy, Debug, PartialEq, Eq)]
pub struct RangeSpec {
    pub first: u16,
    pub last: u16,
    pub role: RangeType,
}
