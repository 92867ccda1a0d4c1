//! What a text means, in the words of the manual: which mode an instruction has, and what the lines of a text
//! make of it.

ghost use Rattle.stmt65.specs.Words.{FindsLine, KeepsListings, MeansBytes, MeansFault, NeedsMode, StandsAtItsBytes, TakesModes};

#[tactic(auto, using(crate::proofs::ModeLemmas::takes_modes, crate::proofs::ModeLemmas::needs_mode))]
pub fn takes_modes()
    /// An instruction is coded in a mode that is written like its form, after `a:` in the absolute one, and that the
    /// mnemonic has on the CPU. If it has a zero-page and an absolute one that are written alike, the operand's size
    /// decides. It has no coding exactly when the mnemonic has none of these modes.
    ensures takes { TakesModes }
    ensures needs { NeedsMode }
{}

#[tactic(auto, using(crate::proofs::TextLemmas::stands_at_its_bytes, crate::proofs::AddressLemmas::finds_line))]
pub fn means_its_lines()
    /// A text has bytes exactly when no line has a fault. They are those of its lines in order.
    ensures bytes { MeansBytes }
    /// Each line stands at the start plus the number of bytes of the lines before it.
    ensures stands { StandsAtItsBytes }
    /// Each byte of a text comes from the first line after which the address is greater than that of the byte.
    ensures finds { FindsLine }
{}

pub fn means_first_fault()
    /// The fault of a text is that of the first line that has one.
    ensures { MeansFault }
{}

#[tactic(auto, using(crate::proofs::RepairLaw::keeps_listings))]
pub fn keeps_listings()
    /// A text that assembles as a listing assembles to the same bytes as a repair, from the same start, with the
    /// same segments.
    ensures { KeepsListings }
{}
