//! What the reading of a line is to what is written in it.

ghost use Rattle.stmt65.specs.Words.{ReadsLines, ReadsSpellings, SpellsOne, TakesParts};

#[tactic(auto, using(crate::proofs::LineLemmas::reads_spellings))]
pub fn reads_spellings()
    /// Parts parse as a statement exactly when they are a spelling of it.
    ensures { ReadsSpellings }
{}

#[tactic(auto, using(crate::proofs::LineLemmas::spells_one))]
pub fn spells_one()
    /// Parts are a spelling of at most one statement.
    ensures { SpellsOne }
{}

#[tactic(auto, using(crate::proofs::SpacingLemmas::takes_parts))]
pub fn takes_parts()
    /// The parts are those of the line, each as long as possible.
    ensures { TakesParts }
{}

#[tactic(auto, using(crate::proofs::LineLemmas::reads_lines))]
pub fn reads_lines()
    /// A line of a listing parses as a statement exactly when it is a source form of it.
    ensures { ReadsLines }
{}
