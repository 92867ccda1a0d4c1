//! The directives that give numbers, and how a table of them is printed. What they
//! code stands in `assembling::entries`.

ghost use Rattle.std.specs.Prelude.{◌≡◌, ◌≤◌};
ghost use Rattle.stmt65.specs.Words.{directive_named, directive_text, entry_len, first_directive_named, order_of};

use crate::reading::names::is_word;
use isa65::ByteOrder;

/// A directive whose entries are numbers of several bytes.
#[derive(Clone, Copy, Debug, PartialEq, Eq)]
pub enum Directive {
    /// `.word`: two bytes, low byte first.
    Word,
    /// `.dbyt`: two bytes, high byte first.
    Dbyt,
    /// `.addr`: as `.word`.
    Addr,
    /// `.dword`: four bytes, low byte first.
    Dword,
}

/// Each directive once.
const ALL: [Directive; 4] = [
    Directive::Word,
    Directive::Dbyt,
    Directive::Addr,
    Directive::Dword,
];

impl Directive {
    /// What is written.
    pub fn text(self) -> &'static [u8]
        /// Returns the text of a directive of numbers.
        ensures text { result.now ≡ directive_text self }
    {
        match self {
            Directive::Word => b".word",
            Directive::Dbyt => b".dbyt",
            Directive::Addr => b".addr",
            Directive::Dword => b".dword",
        }
    }

    /// How many bytes of a table an entry has.
    pub fn entry_len(self) -> usize
        /// Returns how many bytes an entry of a directive has: at least two.
        ensures value { result ≡ entry_len self }
        ensures some { 2 ≤ result }
    {
        match self {
            Directive::Word | Directive::Dbyt | Directive::Addr => 2,
            Directive::Dword => 4,
        }
    }

    /// In which order the bytes of an entry stand.
    pub fn order(self) -> ByteOrder
        /// Returns the order of an entry's bytes.
        ensures { result ≡ order_of self }
    {
        match self {
            Directive::Word | Directive::Addr | Directive::Dword => ByteOrder::LittleEndian,
            Directive::Dbyt => ByteOrder::BigEndian,
        }
    }

    /// The directive that the word is, in any letter case.
    #[tactic(auto, unfolding(crate::specs::Directives::directive_named))]
    pub fn from_word(word: &[u8]) -> Option<Directive>
        /// Returns the directive that a word names, in any letter case.
        ensures { result ≡ directive_named word.now }
    {
        first_of(&ALL, word)
    }
}

/// The first of these directives that the word is.
fn first_of(directives: &[Directive], word: &[u8]) -> Option<Directive>
    ensures { result ≡ first_directive_named word.now directives.now }
{
    directives
        .iter()
        .copied()
        .find(|directive| is_word(word, directive.text()))
}
