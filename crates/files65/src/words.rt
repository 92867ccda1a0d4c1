//! The words and parts of a line of a listing, for what is said of a fault.

use std::alloc::{AllocError, Global};
use stmt65::{Language, Part, PlacedPart, Places, Span};
use text65::{has_name_form, is_blank, is_reserved_word, is_word_byte};

/// The letters, digits and `_` at the beginning of a line, and the rest.
pub(crate) fn first_word(line: &[u8]) -> (&[u8], &[u8]) {
    let len = line.iter().take_while(|byte| is_word_byte(**byte)).count();
    line.split_at(len)
}

/// The line without the blanks at its beginning.
pub(crate) fn after_blanks(line: &[u8]) -> &[u8] {
    let len = line.iter().take_while(|byte| is_blank(**byte)).count();
    line.get(len..).unwrap_or(&[])
}

/// Whether a word may be a name.
pub(crate) fn is_name(word: &[u8]) -> bool {
    has_name_form(word) && !is_reserved_word(word)
}

/// The parts of a line, and where they stand.
#[derive(Drop)]
pub(crate) struct Row<'a> {
    pub line: &'a [u8],
    parts: Vec<PlacedPart<'a>>,
    /// The place of the first part after the operation, or after the name to which a value is given.
    pub operands: usize,
}

impl<'a> Row<'a> {
    /// Those of a line.
    pub fn of(alloc: Global, language: Language, line: &'a [u8]) -> Result<Row<'a>, AllocError> {
        let mut parts = Vec::new(alloc);
        let mut places = Places::new(language, line);
        for _ in 0..=line.len() {
            let Some(part) = places.next() else { break };
            parts.push(part)?;
        }
        let mut places = Places::new(language, line);
        let _ = places.head();
        let end = places.end();
        let operands = parts.iter().take_while(|part| part.span.to <= end).count();
        Ok(Row {
            line,
            parts,
            operands,
        })
    }

    /// How many there are.
    pub fn len(&self) -> usize {
        self.parts.len()
    }

    /// The part at a place.
    fn part(&self, at: usize) -> Option<Part<'a>> {
        Some(self.parts.get(at)?.part)
    }

    /// From which byte of the line to before which one the part at a place stands; 0 and 0 if there is none.
    pub fn span(&self, at: usize) -> Span {
        match self.parts.get(at) {
            Some(part) => part.span,
            None => Span { from: 0, to: 0 },
        }
    }

    /// The bytes of the line from the part at a place up to the end of the one at another.
    pub fn text(&self, from: usize, to: usize) -> &'a [u8] {
        let span = self.span(from).from..self.span(to).to;
        self.line.get(span).unwrap_or(&[])
    }

    /// The byte at a place that is a part by itself; 0 if another part stands there, or none.
    pub fn mark(&self, at: usize) -> u8 {
        match self.part(at) {
            Some(Part::Mark(byte)) => byte,
            _ => 0,
        }
    }

    /// The word at a place; empty if there is none.
    pub fn word(&self, at: usize) -> &'a [u8] {
        match self.part(at) {
            Some(Part::Word(word)) => word,
            _ => &[],
        }
    }

    /// The number at a place, as it is written; empty if there is none.
    pub fn number(&self, at: usize) -> &'a [u8] {
        match self.part(at) {
            Some(Part::Number(text)) => text,
            _ => &[],
        }
    }

    /// Whether a word or a number stands at a place.
    pub fn is_term(&self, at: usize) -> bool {
        !self.word(at).is_empty() || !self.number(at).is_empty()
    }

    /// Whether a word, a number or a string stands at a place.
    pub fn is_value(&self, at: usize) -> bool {
        self.is_term(at) || self.is_string(at)
    }

    /// Whether a string stands at a place.
    pub fn is_string(&self, at: usize) -> bool {
        matches!(self.part(at), Some(Part::Text(_)))
    }

    /// Whether a value is given to a name at a place.
    pub fn is_define(&self, at: usize) -> bool {
        matches!(self.part(at), Some(Part::Define)) || self.mark(at) == b'='
    }

    /// Whether the parts at a place and after it stand side by side.
    pub fn are_close(&self, at: usize) -> bool {
        self.span(at).to == self.span(at.saturating_add(1)).from
    }

    /// How many parts are this byte by itself.
    pub fn count(&self, mark: u8) -> usize {
        (0..self.len()).filter(|at| self.mark(*at) == mark).count()
    }

    /// The operation, up to a blank, also if it is more than a word.
    pub fn operation(&self) -> &'a [u8] {
        let from = self.span(self.operands.saturating_sub(1)).from;
        let rest = self.line.get(from..).unwrap_or(&[]);
        let len = rest.iter().take_while(|byte| !is_blank(**byte)).count();
        rest.get(..len).unwrap_or(&[])
    }
}
