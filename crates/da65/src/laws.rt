//! The laws of the listing and of its reassembly.

ghost use Rattle.map65.specs.Words.{MapView};
ghost use Rattle.da65.specs.Words.{ExpressionsHaveTheirValues, GroupGivesItsBytes, GroupsAreGroups, ItemGivesItsBytes, ListingGivesImage, ModeIsChosenBack, NamesAreDefinedOnce, NamesAreSound, TargetIsInRange, TextGivesImage, UnwrittenIsBytes};

pub fn groups_are_groups()
    /// The bytes of each group are one item of code, a line of a table of its role, or a leftover byte.
    ensures { GroupsAreGroups }
{}

#[tactic(auto, using(crate::proofs::Names::MapNames::names_are_sound))]
pub fn names_are_sound()
    /// If no byte of the image is skipped: no two base names of a map are alike. Each lies in the address space,
    /// and none after an address that it names. Exactly those outside the image have constant lines.
    ensures { NamesAreSound }
{}

#[tactic(auto, using(crate::proofs::Blocks::WholeBlock::names_are_defined_once))]
pub fn names_are_defined_once()
    /// If no byte of the image is skipped: the listing defines each base name exactly once, and its value is its
    /// address.
    ensures { NamesAreDefinedOnce }
{}

#[tactic(auto, using(crate::proofs::Instructions::ValueLaws::expressions_have_their_values))]
pub fn expressions_have_their_values()
    /// Each expression has the value that it stands for, an address or a word: names with offsets, operands in the
    /// zero page, entries less 1.
    ensures { ExpressionsHaveTheirValues }
{}

#[tactic(auto, using(crate::proofs::Statements::Reassembly::unwritten_is_bytes, std::proofs::lemmas::Grind::common_steps))]
pub fn unwritten_is_bytes()
    /// If the instruction of an item of code can't be written, its statement is the item's bytes.
    ensures { UnwrittenIsBytes }
{}

#[tactic(auto, using(crate::proofs::Statements::GroupStands::mode_is_chosen_back))]
pub fn mode_is_chosen_back()
    /// Each instruction is coded in the mode that it was decoded from.
    ensures { ModeIsChosenBack }
{}

pub fn target_is_in_range()
    /// A target that is written is in range, and its distance is the byte that was decoded.
    ensures { TargetIsInRange }
{}

pub fn item_gives_its_bytes()
    /// The statement of each item of code assembles to the item's bytes, without a fault.
    ensures { ItemGivesItsBytes }
{}

pub fn group_gives_its_bytes()
    /// The statement of each group assembles to the group's bytes, without a fault.
    ensures { GroupGivesItsBytes }
{}

#[tactic(auto, using(crate::proofs::Blocks::WholeBlock::listing_gives_image))]
pub fn listing_gives_image()
    /// If no byte is skipped, what the lines of a listing say assembles to the image.
    ensures { ListingGivesImage }
{}

#[tactic(auto, using(crate::proofs::Blocks::TextLaws::text_gives_image))]
pub fn text_gives_image()
    /// If no byte is skipped, the text of a listing assembles to the image.
    ensures { TextGivesImage }
{}
