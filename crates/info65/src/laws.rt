//! Laws of information files.

ghost use Rattle.info65.specs.Words.{AcceptsFiles, CoversHighest, CoversOne, NamesGiven, OwnAddressWins, RangesApart, RefusesFirst, SegmentsApart, TokensStand};

pub fn accepts_files()
    /// A file is accepted exactly when its tokens are groups that meet every condition.
    ensures { AcceptsFiles }
{}

#[tactic(auto, using(crate::proofs::FileLaws::refuses_first))]
pub fn refuses_first()
    /// A refusal is the fault of the first token that has one, at its place, whatever follows; or the file ends too
    /// early; or it is too large.
    ensures { RefusesFirst }
{}

#[tactic(auto, using(crate::proofs::StandLemmas::tokens_stand))]
pub fn tokens_stand()
    /// The tokens of a text stand in it in order, each as the part of the text that it takes, with only blanks and
    /// comments between them, and the line feeds before a token count its line. What is refused because it is not a
    /// token begins outside of these.
    ensures { TokensStand }
{}

pub fn ranges_apart()
    /// The ranges are those of the groups RANGE, and no two share an address.
    ensures { RangesApart }
{}

#[tactic(auto, using(crate::proofs::CoveringLemmas::covers_highest))]
pub fn covers_highest()
    /// If several names cover an address, the one with the highest address of its own names it.
    ensures { CoversHighest }
{}

#[tactic(auto, using(crate::proofs::CoveringLemmas::own_address_wins))]
pub fn own_address_wins()
    /// A name's own address has that name, whatever else covers it.
    ensures { OwnAddressWins }
{}

pub fn names_given()
    /// The names of an information file are exactly those that its groups LABEL and RANGE give. They ascend by
    /// address, no two have one text, none is reserved, and none extends past $FFFF.
    ensures { NamesGiven }
{}

pub fn segments_apart()
    /// The segments are those of the groups SEGMENT, and no two share an address.
    ensures { SegmentsApart }
{}

#[tactic(auto, using(crate::proofs::SegmentCovering::covers_one))]
pub fn covers_one()
    /// The segment name of an address is that of the one segment that contains it.
    ensures { CoversOne }
{}
