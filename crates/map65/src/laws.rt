//! The laws of runs, pieces, items and names, each stated by a function that does nothing.

ghost use Rattle.info65.specs.Words.{AreNames};
ghost use Rattle.map65.specs.Words.{BaseLaw, EntryStartLaw, ItemLaw, MapView, NameLaw, PieceLaw, PlaceLaw, ReferenceLaw, RunLaw};

#[tactic(auto, using(crate::proofs::PieceLaws::run_law))]
pub fn run_law()
    /// Two addresses lie in one run exactly when all addresses from the one to the other have one role and no
    /// segment begins or ends between them. So a run lies in one segment or outside all.
    ensures { (m : MapView) → RunLaw m }
{}

#[tactic(auto, using(crate::proofs::PieceLaws::piece_law))]
pub fn piece_law()
    /// In a table whose entries have more than one byte, every given name after a run's first address cuts the run.
    /// Elsewhere a run is one piece.
    ensures { (m : MapView) → PieceLaw m }
{}

pub fn item_law()
    /// An item begins at an address exactly when the address is not skipped and is the first of its piece, or an
    /// item of the same piece ends just before it. The item has its full length if its piece has room, otherwise
    /// one byte. No other lengths obey this rule.
    ensures { (m : MapView) → ItemLaw m }
{}

#[tactic(auto, using(crate::proofs::NameLaws::entry_start_law))]
pub fn entry_start_law()
    /// An address inside an entry of more than one byte is called by the entry's first byte, any other by itself.
    ensures { (m : MapView) → EntryStartLaw m }
{}

#[tactic(auto, using(crate::proofs::NameLaws::reference_law))]
pub fn reference_law()
    /// An address is referenced exactly when it is a target, or the first byte of an entry that a target lies
    /// inside.
    ensures { (m : MapView) → ReferenceLaw m }
{}

#[tactic(auto, using(crate::proofs::NameLaws::name_law))]
pub fn name_law()
    /// The name of an address is that of the first case of the rule that applies.
    ensures { (m : MapView) → AreNames m.info.names → NameLaw m }
{}

#[tactic(auto, using(crate::proofs::BaseLaws::place_law))]
pub fn place_law()
    /// The place of a base name says where its address lies: outside the image or skipped, where an item begins, or
    /// inside an item of code. So no base lies inside an entry of a table.
    ensures { (m : MapView) → PlaceLaw m }
{}

#[tactic(auto, using(crate::proofs::BaseLaws::base_law))]
pub fn base_law()
    /// A base is not after the addresses that it names, and is the name of its own address. Two bases with one text
    /// are one.
    ensures { (m : MapView) → AreNames m.info.names → BaseLaw m }
{}
