//! Where the parts of a line stand.

ghost use Rattle.std.specs.Prelude.{◌<◌, ◌∷◌, ◌≡◌, ◌≤◌, IfSome, MatchOption, [], drop, false, get_or, length};
ghost use Rattle.std.specs.Bool.{OnFalse, OnTrue};
ghost use Rattle.stmt65.specs.Words.{AreBlanks, Gives, GoesOver, IsAmong, IsPart, IsRemarkOf, ReadsAs, StandsIn, begins_operand, bytes_in, datum_of, goes_on, is_blank, part_of, parts, parts_left, value_alone, value_of};

use crate::language::Language;
use crate::reading::expressions::next_value;
use crate::reading::lexer::{Part, blank_len, part_here};
use crate::reading::names::is_name;
use crate::reading::parts::Parts;
use crate::source_line::{Datum, Half, Value};
use std::marker::Model;

/// From which byte of a line to before which one something stands.
#[derive(Clone, Copy, Debug, PartialEq, Eq)]
pub struct Span {
    pub from: usize,
    pub to: usize,
}

/// A part of a line, and where it stands.
#[derive(Clone, Copy)]
pub struct PlacedPart<'a> {
    pub part: Part<'a>,
    pub span: Span,
}

/// An operand of a line: a string, or an expression and which half of it is meant, and where it stands. The place of an
/// expression has no `<`, `>` and no parentheses.
#[derive(Clone, Copy)]
pub struct Operand<'a> {
    /// A string, an expression, or the half of one. A number is an expression.
    pub datum: Datum<'a>,
    pub span: Span,
}

/// What stands before the operands of a line: the name before `:`, `:=` or `=`, and the mnemonic or directive.
#[derive(Clone, Copy)]
pub struct Head<'a> {
    pub name: Option<PlacedPart<'a>>,
    pub operation: Option<PlacedPart<'a>>,
}

/// Goes over the parts of a line.
#[derive(Drop)]
pub struct Places<'a> {
    language: Language,
    line: &'a [u8],
    at: usize,
}

impl<'a> Model for Places<'a> {
    ghost use Rattle.std.specs.Prelude.{◌≤◌, length};
    ghost use Rattle.stmt65.specs.Places.{PlacesView};

    ghost Value = { PlacesView };

    ghost view = { λ p. record { language = p.language; line = p.line.now; at = p.at } };

    ghost invariant = { λ p. p.at ≤ length p.line.now };
}

/// The expression that the bytes are, if they are one and nothing else.
fn read_value<'a>(language: Language, bytes: &'a [u8]) -> Option<Value<'a>>
    ensures { Gives value_of result (value_alone language (parts language bytes.now)) }
{
    let mut parts = Parts::new(language, bytes);
    let value = next_value(language, &mut parts)?;
    parts.is_done().then_some(value)
}

impl<'a> Places<'a> {
    /// Over a whole line, without its line feed, in a language.
    pub fn new(language: Language, line: &'a [u8]) -> Self
        ensures { result ≡ record { language = language; line = line.now; at = 0 } }
    {
        let at = 0;
        Places { language, line, at }
    }

    /// A copy of them.
    pub fn copied(&self) -> Self
        ensures { result ≡ self.now }
    {
        Places {
            language: self.language,
            line: self.line,
            at: self.at,
        }
    }

    /// Where the last part ends that was passed over; 0 if none was.
    pub fn end(&self) -> usize
        ensures { result ≡ self.now.at }
    {
        self.at
    }

    /// Where the next part begins, or the remark or the end of the line.
    #[tactic(auto, using(crate::proofs::PartLemmas::begins))]
    fn begin(&self) -> usize
        ensures parts { parts self.now.language (drop result self.now.line) ≡ parts_left self.now }
        ensures stop { result < length self.now.line
            → is_blank (get_or (drop result self.now.line) 0 0) ≡ false }
        ensures blanks { AreBlanks self.now.line self.now.at result }
        ensures on { self.now.at ≤ result }
        ensures fits { result ≤ length self.now.line }
    {
        let (_, left) = self.line.split_at(self.at);
        self.at + blank_len(left)
    }

    /// The next part, and where it stands. At the end the answer is `None`, again and again.
    #[tactic(auto, using(crate::proofs::PartLemmas::places))]
    pub fn next(&mut self) -> Option<PlacedPart<'a>>
        /// Goes over the parts of a line as the reading has them, in order, each once. The bytes at the place of
        /// each part are those that it is written with, and its place is after those of the parts before.
        ensures over { GoesOver self.old self.new }
        ensures parts { MatchOption result (parts_left self.old ≡ [])
            (λ p. parts_left self.old ≡ part_of p.part ∷ parts_left self.new) }
        ensures text { IfSome result (StandsIn self.old.line) }
        ensures among { IfSome result (λ p. IsAmong p.span self.old self.new) }
        ensures from { IfSome result (λ p.
            parts self.old.language (drop p.span.from self.old.line) ≡ parts_left self.old) }
        ensures to { IfSome result (λ p. p.span.to ≡ self.new.at) }
        /// The part stands whole at its place, and nothing but blanks before it.
        ensures blanks { IfSome result (λ p.
            AreBlanks self.old.line self.old.at p.span.from) }
        ensures part { IfSome result (λ p.
            IsPart self.old.language self.old.line p.span.from p.span.to (part_of p.part)) }
    {
        let from = self.begin();
        let (_, left) = self.line.split_at(from);
        let (part, len) = part_here(self.language, left)?;
        self.at = from + len;
        let span = Span { from, to: self.at };
        Some(PlacedPart { part, span })
    }

    /// The next part and where it stands, if it is a word.
    fn word(&mut self) -> Option<PlacedPart<'a>>
        ensures over { GoesOver self.old self.new }
        ensures text { IfSome result (StandsIn self.old.line) }
    {
        self.next()
            .filter(|place| matches!(place.part, Part::Word(_)))
    }

    /// What stands before the operands.
    pub fn head(&mut self) -> Head<'a>
        ensures over { GoesOver self.old self.new }
        /// The places of the name before `:`, `:=` or `=` and of the operation hold parts of the line.
        ensures name { IfSome result.name (StandsIn self.old.line) }
        ensures operation { IfSome result.operation (StandsIn self.old.line) }
    {
        let first = self.word();
        let mut ahead = self.copied();
        let (name, operation) = match ahead.next().map(|place| place.part) {
            Some(Part::Mark(b':')) => (first, ahead.word()),
            Some(Part::Define | Part::Mark(b'=')) => (first, None),
            _ => return Head {
                name: None,
                operation: first,
            },
        };
        *self = ahead;
        Head { name, operation }
    }

    /// Passes over `+` or `-` and a number or a word if these are the next parts, and returns whether they are.
    fn pass_term(&mut self) -> bool
        ensures over { GoesOver self.old self.new }
        ensures is { result ≡ goes_on (parts_left self.old) }
        ensures fewer { OnTrue result
            (length (parts_left self.new) < length (parts_left self.old)) }
        ensures left { OnFalse result (self.new ≡ self.old) }
    {
        let mut ahead = self.copied();
        let Some(sign) = ahead.next() else {
            return false;
        };
        let Some(term) = ahead.next() else {
            return false;
        };
        let is_term = matches!(sign.part, Part::Mark(b'+' | b'-'))
            && matches!(term.part, Part::Number(_) | Part::Word(_));
        if is_term {
            *self = ahead;
        }
        is_term
    }

    /// Passes over what is added and subtracted after the first part of an expression, and returns where the last part
    /// ends that was passed over.
    #[tactic(auto, using(crate::proofs::PartLemmas::terms))]
    fn pass_terms(&mut self) -> usize
        ensures over { GoesOver self.old self.new }
        ensures to { result ≡ self.new.at }
        ensures ends { goes_on (parts_left self.new) ≡ false }
    {
        let mut to = self.at;
        'terms: while self.pass_term() {
            to = self.at;
        }
        to
    }

    /// The next operand, and where it stands. Marks and words that are no names are passed over.
    #[tactic(auto, using(crate::proofs::PartLemmas::terms))]
    pub fn operand(&mut self) -> Option<Operand<'a>>
        /// The bytes at the place of an operand are the string, or read as the expression and nothing else.
        ensures reads { IfSome result (λ o.
            ReadsAs self.old.language (bytes_in o.span self.old.line) (datum_of o.datum)) }
        ensures over { GoesOver self.old self.new }
    {
        let (language, line) = (self.language, self.line);
        let mut half = None;
        'parts: loop {
            let PlacedPart { part, span } = self.next()?;
            if let Part::Text(text) = part {
                let datum = Datum::String(text);
                return Some(Operand { datum, span });
            }
            if begins_operand(language, part) {
                let span = Span {
                    to: self.pass_terms(),
                    ..span
                };
                return operand_at(language, line, half, span);
            }
            half = half_after(half, part);
        }
    }

    /// Where the remark after all parts stands, with its `;`.
    pub fn remark(&mut self) -> Option<Span>
        /// A remark's place begins with `;` and goes on to the end of the line.
        ensures { IfSome result (IsRemarkOf self.old.line) }
    {
        let line = self.line;
        for _ in 0..=line.len() {
            if self.next().is_none() {
                break;
            }
        }
        let from = self.begin();
        let to = line.len();
        (line.get(from) == Some(&b';')).then_some(Span { from, to })
    }
}

/// Whether an operand can begin with the part.
fn begins_operand(language: Language, part: Part<'_>) -> bool
    ensures { result ≡ begins_operand language (part_of part.entry) }
{
    match part {
        Part::Word(word) => is_name(word),
        Part::Number(_) | Part::Text(_) => true,
        Part::Define => false,
        Part::Mark(mark) => language == Language::Repair && mark == b'*',
    }
}

/// Which half is meant by what stands before an expression.
fn half_after(half: Option<Half>, part: Part<'_>) -> Option<Half> {
    match part {
        Part::Mark(b'<') => Some(Half::Low),
        Part::Mark(b'>') => Some(Half::High),
        Part::Mark(b'(') => half,
        _ => None,
    }
}

/// An expression that stands at a place of a line, or half of it.
fn operand_at<'a>(
    language: Language,
    line: &'a [u8],
    half: Option<Half>,
    span: Span,
) -> Option<Operand<'a>>
    ensures reads { IfSome result (λ o.
        ReadsAs language (bytes_in o.span line.now) (datum_of o.datum)) }
    ensures span { IfSome result (λ o. o.span ≡ span) }
{
    let value = read_value(language, line.get(span.from..span.to)?)?;
    let datum = match half {
        None => Datum::Value(value),
        Some(half) => Datum::Half(half, value),
    };
    Some(Operand { datum, span })
}
