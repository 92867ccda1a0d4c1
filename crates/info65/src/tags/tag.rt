//! Groups of the lines `#: ..`, and what is given in them.

use crate::syntax::words::is_word;

/// What a group says.
#[derive(Clone, Copy, Debug, PartialEq, Eq)]
pub enum TagKind {
    /// Code begins at the address.
    Entry,
    /// A call of the address is followed by text up to and with a zero byte, or by this many bytes.
    Inline,
    /// Bytes at these places are the low and the high byte of an address.
    Halves,
    /// Variables lie there, which move with the end of the image.
    After,
    /// The word at the address is the distance of two others.
    Difference,
    /// The operand of the instruction at the address is counted from another address.
    Base,
    /// The byte at the address is a number, and halves of which it is one count for nothing.
    Number,
}

/// What can be given in a group. `First` and `Last` are START and END, or FROM and TO.
#[derive(Clone, Copy)]
pub(crate) enum TagAttribute {
    Address,
    Size,
    Low,
    High,
    First,
    Last,
}

/// A group, the line where it begins, and what is given in it.
#[derive(Clone, Copy, Debug, PartialEq, Eq)]
pub struct Tag {
    pub kind: TagKind,
    pub line: u32,
    pub address: Option<u16>,
    pub size: Option<u16>,
    pub low: Option<u16>,
    pub high: Option<u16>,
    /// START or FROM.
    pub first: Option<u16>,
    /// END or TO.
    pub last: Option<u16>,
}

/// The first of these words that is the text, with letters of any case.
macro_rules! tag_word {
    ($text:ident; $($word:literal => $value:expr,)*) => {{
        $(if is_word($text, $word) {
            return Some($value);
        })*
        None
    }};
}

/// The group of this name, with letters of any case.
pub(crate) fn tag_named(text: &[u8]) -> Option<TagKind> {
    tag_word!(text;
        b"ENTRY" => TagKind::Entry,
        b"INLINE" => TagKind::Inline,
        b"HALVES" => TagKind::Halves,
        b"AFTER" => TagKind::After,
        b"DIFFERENCE" => TagKind::Difference,
        b"BASE" => TagKind::Base,
        b"NUMBER" => TagKind::Number,
    )
}

/// The attribute of a group by its name, with letters of any case.
pub(crate) fn tag_attribute(kind: TagKind, text: &[u8]) -> Option<TagAttribute> {
    match kind {
        TagKind::Entry | TagKind::Number => tag_word!(text;
            b"ADDR" => TagAttribute::Address,
        ),
        TagKind::Inline => tag_word!(text;
            b"ADDR" => TagAttribute::Address,
            b"SIZE" => TagAttribute::Size,
        ),
        TagKind::Halves => tag_word!(text;
            b"LOW" => TagAttribute::Low,
            b"HIGH" => TagAttribute::High,
            b"SIZE" => TagAttribute::Size,
            b"ADDR" => TagAttribute::Address,
        ),
        TagKind::After => tag_word!(text;
            b"START" => TagAttribute::First,
            b"END" => TagAttribute::Last,
        ),
        TagKind::Difference => tag_word!(text;
            b"ADDR" => TagAttribute::Address,
            b"FROM" => TagAttribute::First,
            b"TO" => TagAttribute::Last,
        ),
        TagKind::Base => tag_word!(text;
            b"ADDR" => TagAttribute::Address,
            b"FROM" => TagAttribute::First,
        ),
    }
}

/// Whether the number is a value of the attribute.
pub(crate) fn is_value(attribute: TagAttribute, number: u32) -> bool {
    match attribute {
        TagAttribute::Size => 1 <= number && number <= 256,
        _ => number <= 0xFFFF,
    }
}

impl Tag {
    /// A group that begins on this line.
    pub(crate) fn new(kind: TagKind, line: u32) -> Tag {
        Tag {
            kind,
            line,
            address: None,
            size: None,
            low: None,
            high: None,
            first: None,
            last: None,
        }
    }

    /// What an attribute was given.
    pub(crate) fn given(&mut self, attribute: TagAttribute) -> &mut Option<u16> {
        match attribute {
            TagAttribute::Address => &mut self.address,
            TagAttribute::Size => &mut self.size,
            TagAttribute::Low => &mut self.low,
            TagAttribute::High => &mut self.high,
            TagAttribute::First => &mut self.first,
            TagAttribute::Last => &mut self.last,
        }
    }

    /// Whether something that the group needs is missing.
    pub(crate) fn lacks(self) -> bool {
        match self.kind {
            TagKind::Entry | TagKind::Inline | TagKind::Number => self.address.is_none(),
            TagKind::Halves => {
                !((self.low.is_some() && self.high.is_some())
                    || (self.address.is_some() && (self.low.is_some() || self.high.is_some())))
            }
            TagKind::After => !(self.first.is_some() && self.last.is_some()),
            TagKind::Difference => {
                !(self.address.is_some() && (self.first.is_some() && self.last.is_some()))
            }
            TagKind::Base => !(self.address.is_some() && self.first.is_some()),
        }
    }

    /// Whether the last address of what lies after the image is below the first.
    pub(crate) fn is_backward(self) -> bool {
        match (self.kind, self.first, self.last) {
            (TagKind::After, Some(first), Some(last)) => last < first,
            _ => false,
        }
    }
}
