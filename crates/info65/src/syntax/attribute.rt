//! The groups of an information file, their attributes, what the values of these have to be, and the
//! type words.

ghost use Rattle.std.specs.Prelude.{◌≡◌};
ghost use Rattle.info65.specs.Words.{attribute_named, boolean_named, form_of, group_named, type_named};

use crate::information::range::RangeType;
use crate::syntax::words::is_word;

/// What a group is about.
#[derive(Clone, Copy)]
pub enum GroupKind {
    /// GLOBAL: the settings.
    Global,
    /// RANGE: what the bytes of some addresses are.
    Range,
    /// LABEL: the name of an address.
    Label,
    /// SEGMENT: the segment of some addresses.
    Segment,
    /// ASMINC: a file of names to include.
    Include,
}

/// An attribute of a group.
#[derive(Clone, Copy)]
pub enum Attribute {
    /// INPUTNAME: the name of the input file.
    InputName,
    /// OUTPUTNAME: the name of the output file.
    OutputName,
    /// INPUTOFFS: how many bytes of the input are passed over.
    InputOffset,
    /// INPUTSIZE: how many bytes are taken.
    InputSize,
    /// STARTADDR: the address of the first byte.
    StartAddress,
    /// CPU: the CPU by its text.
    Cpu,
    /// COMMENTS: how much the listing comments.
    Comments,
    /// MNEMONICCOLUMN: the column of mnemonics.
    MnemonicColumn,
    /// ARGUMENTCOLUMN: the column of operands.
    ArgumentColumn,
    /// COMMENTCOLUMN: the column of the comment after a statement.
    CommentColumn,
    /// TEXTCOLUMN: the column of the bytes as characters.
    TextColumn,
    /// LABELBREAK: the length of the longest label that stands on the line of its statement.
    LabelBreak,
    /// HEXOFFS: offsets are written in hexadecimal.
    HexOffsets,
    /// NEWLINEAFTERJMP: an empty line follows each `jmp`.
    NewlineAfterJmp,
    /// NEWLINEAFTERRTS: an empty line follows each `rts`.
    NewlineAfterRts,
    /// PAGELENGTH, which can only be 0.
    PageLength,
    /// START: the first address of a range or of a segment.
    Start,
    /// END: the last address of a range or of a segment.
    End,
    /// SIZE: the number of addresses of a range or of a label.
    Size,
    /// TYPE, whose word is the role of the addresses.
    Role,
    /// NAME: the name of a label, of the first address of a range, or of a segment.
    Name,
    /// COMMENT: the comment of a name.
    Comment,
    /// ADDR: the address of a label.
    Address,
    /// FILE: the name of an include file.
    File,
    /// COMMENTSTART: the byte that begins a comment in an include file.
    CommentStart,
    /// IGNOREUNKNOWN: lines of an include file that would be refused are passed over.
    IgnoreUnknown,
}

/// What the value of an attribute has to be.
#[derive(Clone, Copy)]
pub enum ValueForm {
    /// A string that can name a file.
    FileName,
    /// A string with the text of a CPU.
    CpuText,
    /// A number from 0 to $FFFF.
    Address,
    /// A number, both limits among those that it can be.
    Number { low: u32, high: u32 },
    /// A type word.
    TypeWord,
    /// A string that can name an address or a segment.
    Name,
    /// A string that can be a comment.
    Comment,
    /// A boolean word, or the number 0 or 1.
    Boolean,
    /// A character constant.
    Character,
}

// The value beside the first of these words that a text is, with letters of any case.
macro_rules! word_among {
    ($text:expr;) => {
        None
    };
    ($text:expr; $word:literal => $value:expr, $($rest:tt)*) => {
        if is_word($text, $word) {
            Some($value)
        } else {
            word_among!($text; $($rest)*)
        }
    };
}

/// The group of this name, with letters of any case.
#[tactic(auto, unfolding(crate::specs::Attributes::group_named))]
pub fn group_named(text: &[u8]) -> Option<GroupKind>
    ensures { result ≡ group_named text.now }
{
    word_among!(text;
        b"GLOBAL" => GroupKind::Global,
        b"RANGE" => GroupKind::Range,
        b"LABEL" => GroupKind::Label,
        b"SEGMENT" => GroupKind::Segment,
        b"ASMINC" => GroupKind::Include,
    )
}

/// The attribute of a group by its name, with letters of any case.
#[tactic(auto, unfolding(crate::specs::Attributes::attribute_named))]
pub fn attribute_named(kind: GroupKind, text: &[u8]) -> Option<Attribute>
    ensures { result ≡ attribute_named kind text.now }
{
    match kind {
        GroupKind::Global => word_among!(text;
            b"INPUTNAME" => Attribute::InputName,
            b"OUTPUTNAME" => Attribute::OutputName,
            b"INPUTOFFS" => Attribute::InputOffset,
            b"INPUTSIZE" => Attribute::InputSize,
            b"STARTADDR" => Attribute::StartAddress,
            b"CPU" => Attribute::Cpu,
            b"COMMENTS" => Attribute::Comments,
            b"MNEMONICCOLUMN" => Attribute::MnemonicColumn,
            b"ARGUMENTCOLUMN" => Attribute::ArgumentColumn,
            b"COMMENTCOLUMN" => Attribute::CommentColumn,
            b"TEXTCOLUMN" => Attribute::TextColumn,
            b"LABELBREAK" => Attribute::LabelBreak,
            b"HEXOFFS" => Attribute::HexOffsets,
            b"NEWLINEAFTERJMP" => Attribute::NewlineAfterJmp,
            b"NEWLINEAFTERRTS" => Attribute::NewlineAfterRts,
            b"PAGELENGTH" => Attribute::PageLength,
        ),
        GroupKind::Range => word_among!(text;
            b"START" => Attribute::Start,
            b"END" => Attribute::End,
            b"SIZE" => Attribute::Size,
            b"TYPE" => Attribute::Role,
            b"NAME" => Attribute::Name,
            b"COMMENT" => Attribute::Comment,
        ),
        GroupKind::Label => word_among!(text;
            b"ADDR" => Attribute::Address,
            b"NAME" => Attribute::Name,
            b"SIZE" => Attribute::Size,
            b"COMMENT" => Attribute::Comment,
        ),
        GroupKind::Segment => word_among!(text;
            b"START" => Attribute::Start,
            b"END" => Attribute::End,
            b"NAME" => Attribute::Name,
        ),
        GroupKind::Include => word_among!(text;
            b"FILE" => Attribute::File,
            b"COMMENTSTART" => Attribute::CommentStart,
            b"IGNOREUNKNOWN" => Attribute::IgnoreUnknown,
        ),
    }
}

/// What the value of an attribute has to be.
#[tactic(auto, unfolding(crate::specs::Attributes::form_of))]
pub fn form_of(attribute: Attribute) -> ValueForm
    ensures { result ≡ form_of attribute }
{
    match attribute {
        Attribute::InputName | Attribute::OutputName | Attribute::File => ValueForm::FileName,
        Attribute::InputOffset => ValueForm::Number {
            low: 0,
            high: 16_777_216,
        },
        Attribute::InputSize | Attribute::Size => ValueForm::Number {
            low: 1,
            high: 0x1_0000,
        },
        Attribute::StartAddress | Attribute::Start | Attribute::End | Attribute::Address => {
            ValueForm::Address
        }
        Attribute::Cpu => ValueForm::CpuText,
        Attribute::Comments => ValueForm::Number { low: 0, high: 4 },
        Attribute::MnemonicColumn
        | Attribute::ArgumentColumn
        | Attribute::CommentColumn
        | Attribute::TextColumn => ValueForm::Number { low: 1, high: 120 },
        Attribute::LabelBreak => ValueForm::Number { low: 0, high: 120 },
        Attribute::PageLength => ValueForm::Number { low: 0, high: 0 },
        Attribute::Role => ValueForm::TypeWord,
        Attribute::Name => ValueForm::Name,
        Attribute::Comment => ValueForm::Comment,
        Attribute::CommentStart => ValueForm::Character,
        Attribute::HexOffsets
        | Attribute::NewlineAfterJmp
        | Attribute::NewlineAfterRts
        | Attribute::IgnoreUnknown => ValueForm::Boolean,
    }
}

/// What the bytes of a range are, by a type word with letters of any case.
#[tactic(auto, unfolding(crate::specs::Attributes::type_named))]
pub fn type_named(text: &[u8]) -> Option<RangeType>
    ensures { result ≡ type_named text.now }
{
    word_among!(text;
        b"CODE" => RangeType::Code,
        b"BYTETABLE" => RangeType::ByteTable,
        b"WORDTABLE" => RangeType::WordTable,
        b"DBYTETABLE" => RangeType::DbyteTable,
        b"DWORDTABLE" => RangeType::DwordTable,
        b"ADDRTABLE" => RangeType::AddrTable,
        b"RTSTABLE" => RangeType::RtsTable,
        b"TEXTTABLE" => RangeType::TextTable,
        b"SKIP" => RangeType::Skip,
    )
}

/// What a boolean word says, with letters of any case.
#[tactic(auto, unfolding(crate::specs::Attributes::boolean_named))]
pub fn boolean_named(text: &[u8]) -> Option<bool>
    ensures { result ≡ boolean_named text.now }
{
    word_among!(text;
        b"ON" => true,
        b"TRUE" => true,
        b"YES" => true,
        b"OFF" => false,
        b"FALSE" => false,
        b"NO" => false,
    )
}
