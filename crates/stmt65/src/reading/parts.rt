//! A cursor over the parts of a line.

ghost use Rattle.std.specs.Prelude.{◌∷◌, ◌≡◌, ◌≤◌, MatchOption, [], length};
ghost use Rattle.stmt65.specs.Words.{Eats, Reads, is_define, is_mark, is_nil, is_number_here, is_word_here, number_in, numeral_of, part_of, parts};

use crate::language::Language;
use crate::reading::lexer::{Part, first_part};
use crate::reading::numeral::Numeral;
use std::marker::Model;

/// The parts of a line that are left, which contracts see as their list. The first of them is
/// cut already, so that each is cut once.
#[derive(Drop)]
pub struct Parts<'a> {
    language: Language,
    first: Option<Part<'a>>,
    rest: &'a [u8],
}

impl<'a> Model for Parts<'a> {
    ghost use Rattle.std.specs.Prelude.{List};
    ghost use Rattle.stmt65.specs.Parts.{Part as APart};
    ghost use Rattle.stmt65.specs.Code.PartViews.{parts_from};

    ghost Value = { List APart };

    ghost view = { λ p. parts_from p.language p.first p.rest.now };
}

impl<'a> Parts<'a> {
    /// All parts of the line.
    pub fn new(language: Language, line: &'a [u8]) -> Self
        ensures { result ≡ parts language line.now }
    {
        match first_part(language, line) {
            Some((part, rest)) => Parts {
                language,
                first: Some(part),
                rest,
            },
            None => Parts {
                language,
                first: None,
                rest: line,
            },
        }
    }

    /// Takes the next part. At the end the answer is `None`, again and again.
    pub fn next(&mut self) -> Option<Part<'a>>
        ensures part { MatchOption result ((self.old ≡ []) × (self.new ≡ []))
            (λ part. self.old ≡ part_of part ∷ self.new) }
        ensures fewer { length self.new ≤ length self.old }
    {
        let part = self.first?;
        *self = Parts::new(self.language, self.rest);
        Some(part)
    }

    /// Passes over the next part if it is the one that is looked for, and returns whether it is.
    fn pass_if(&mut self, is_here: bool) -> bool
        ensures { Eats (λ parts. is_here) self.old result self.new }
    {
        if is_here {
            let _passed = self.next();
        }
        is_here
    }

    /// Takes the next part if it is this byte by itself.
    pub fn eat(&mut self, mark: u8) -> bool
        ensures { Eats (is_mark mark) self.old result self.new }
    {
        let is_here = matches!(self.first, Some(Part::Mark(b)) if b == mark);
        self.pass_if(is_here)
    }

    /// Takes the next part if it is this word, in any letter case.
    pub fn eat_word(&mut self, word: &[u8]) -> bool
        ensures { Eats (is_word_here word.now) self.old result self.new }
    {
        let is_here = matches!(self.first, Some(Part::Word(w)) if w.eq_ignore_ascii_case(word));
        self.pass_if(is_here)
    }

    /// Takes the next part if it is a number that is written so.
    pub fn eat_number(&mut self, text: &[u8]) -> bool
        ensures { Eats (is_number_here text.now) self.old result self.new }
    {
        let is_here = match self.first {
            Some(Part::Number(t)) => t == text,
            _ => false,
        };
        self.pass_if(is_here)
    }

    /// Takes the next part if it is `:=`.
    pub fn eat_define(&mut self) -> bool
        ensures { Eats is_define self.old result self.new }
    {
        let is_here = matches!(self.first, Some(Part::Define));
        self.pass_if(is_here)
    }

    /// Takes the next part if it is a number.
    pub fn number(&mut self) -> Option<Numeral<'a>>
        ensures { Reads numeral_of result number_in self.old self.new }
    {
        match self.next()? {
            Part::Number(text) => Some(Numeral { text }),
            _ => None,
        }
    }

    /// Whether no part is left.
    pub fn is_done(&self) -> bool
        ensures { result ≡ is_nil self.now }
    {
        self.first.is_none()
    }
}
