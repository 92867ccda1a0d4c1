//! What is found of an image, as text of an information file that is read back before it is written.

ghost use Rattle.std.specs.Prelude.{◌≡◌, ◌++◌, ℕ, List, IfOk, Ok, OnOk};
ghost use Rattle.info65.specs.Words.{Adds, InfoView, OptionsView, information};
ghost use Rattle.map65.specs.Words.{is_marked};
ghost use Rattle.reach65.specs.Words.{AreInOrder, HaveAllFree, LieIn};
ghost use Rattle.trace65.specs.Words.{AreFindings, AreSkips, Begins, HaveTheRest, IsAccepted, IsReadBack, IsWritten, after_file, flow_of, proposals, proposed_ranges, unshown_lines};

use crate::advice::{Advice, Reach, followed, given_entries};
use crate::check::{need_groups, read_back};
use crate::failure::{Failure, Refused};
use crate::request::Tracing;
use crate::skips::skips_of;
use crate::text::text_of;
use crate::unshown::{put_unshown, unshown_of};
use bytes65::pieces::Pieces;
use entries65::growth::Followed;
use info65::{Info, InfoFault, InfoFaultKind, MOST_BYTES, Options, RangeSpec, Tag, accepts_files};
use map65::{Map, Marks};
use reach65::{Steps, code_of, ranges_of, reached, taken_of};
use std::alloc::{AllocError, Global};

/// The fault of an information file of too many bytes.
const TOO_LARGE: InfoFault = InfoFault {
    line: 1,
    kind: InfoFaultKind::TooLarge,
};

/// An information file, and what it says without its include files.
#[derive(Clone, Copy)]
pub struct InfoFile<'a> {
    pub bytes: &'a [u8],
    pub info: &'a Info,
    pub tags: &'a [Tag],
}

/// What is proposed of an image.
#[derive(Drop)]
pub struct Proposals {
    /// The ranges of the bytes that nothing speaks for.
    pub ranges: Vec<RangeSpec>,
    /// The ranges of opcodes that hide an instruction in their operand.
    pub skips: Vec<RangeSpec>,
    /// The addresses that get labels.
    pub labels: Vec<u16>,
    /// What is written of all that is found, after the information file.
    pub text: Vec<u8>,
}

/// What is found of an image.
#[derive(Drop)]
pub struct Findings {
    /// The entries: those that are given, those of the information file, and those that rules join to these.
    pub entries: Vec<u16>,
    /// Where the instructions begin that are reached from the entries.
    pub reached: Marks,
    pub proposed: Proposals,
}

/// What is found of an image, and what is written of it.
#[derive(Drop)]
pub struct Report {
    pub found: Findings,
    /// Where a reached instruction begins that the listing does not show: names cut it, or it overlaps another one.
    pub unshown: Vec<u16>,
    /// What is written.
    pub text: Vec<u8>,
}

impl Report {
    /// What is written.
    pub fn into_text(self) -> Vec<u8> {
        self.text
    }
}

/// The ranges of these pieces, of the addresses of the image that are not taken. Fails only if an allocation failed.
fn ranges_by(
    steps: &Steps<'_, '_>,
    taken: &Marks,
    pieces: &Pieces<'_>,
) -> Result<Vec<RangeSpec>, AllocError>
    ensures cover { IfOk result (λ l.
        HaveAllFree steps.now.map.image (is_marked taken.now) l.items) }
    ensures inside { IfOk result (λ l. LieIn steps.now.map.image l.items) }
    ensures apart { IfOk result (λ l. AreInOrder l.items) }
{
    ranges_of(
        steps.alloc(),
        steps.image(),
        taken,
        |first| pieces.piece_at(first),
    )
}

/// What is proposed of an image of which this is reached. Fails only if an allocation failed.
fn proposals_of<'a>(
    steps: &'a Steps<'a, 'a>,
    given: &[u16],
    reach: Reach<'a>,
    advice: &Advice<'a>,
) -> Result<Proposals, AllocError>
    ensures cover { IfOk result (λ p.
        HaveAllFree steps.entry.now.map.image (is_marked reach.entry.taken.now) p.ranges.items) }
    ensures inside { IfOk result (λ p. LieIn steps.entry.now.map.image p.ranges.items) }
    ensures apart { IfOk result (λ p. AreInOrder p.ranges.items) }
    ensures skips { IfOk result (λ p.
        AreSkips steps.entry.now.map reach.entry.reached.now p.skips.items) }
{
    let pieces = Pieces::of(steps.alloc(), &advice.data.ground)?;
    let ranges = ranges_by(steps, reach.taken, &pieces)?;
    let skips = skips_of(steps.alloc(), steps, reach.reached, &advice.survey.skips)?;
    let text = text_of(advice, given, &ranges, &skips)?;
    Ok(Proposals {
        ranges,
        skips,
        labels: Vec::from_slice(steps.alloc(), &advice.labels)?,
        text,
    })
}

/// Looks at an image of which this is reached. Fails only if an allocation failed.
fn propose_from<'a>(
    steps: &'a Steps<'a, 'a>,
    given: &[u16],
    reach: Reach<'a>,
) -> Result<Proposals, AllocError>
    ensures cover { IfOk result (λ p.
        HaveAllFree steps.entry.now.map.image (is_marked reach.entry.taken.now) p.ranges.items) }
    ensures inside { IfOk result (λ p. LieIn steps.entry.now.map.image p.ranges.items) }
    ensures apart { IfOk result (λ p. AreInOrder p.ranges.items) }
    ensures skips { IfOk result (λ p.
        AreSkips steps.entry.now.map reach.entry.reached.now p.skips.items) }
{
    let advice = Advice::of(steps, reach)?;
    proposals_of(steps, given, reach, &advice)
}

/// Looks at an image of which these instructions are reached. Fails only if an allocation failed.
fn propose(
    steps: &Steps<'_, '_>,
    given: &[u16],
    reached: &Marks,
    followed: &Followed,
) -> Result<Proposals, AllocError>
    ensures cover { IfOk result (λ p. HaveTheRest steps.now.map reached.now p.ranges.items) }
    ensures inside { IfOk result (λ p. LieIn steps.now.map.image p.ranges.items) }
    ensures apart { IfOk result (λ p. AreInOrder p.ranges.items) }
    ensures skips { IfOk result (λ p. AreSkips steps.now.map reached.now p.skips.items) }
{
    let code = code_of(steps.alloc(), steps, reached)?;
    let taken = taken_of(steps.alloc(), steps, &code)?;
    let reach = Reach {
        reached,
        code: &code,
        taken: &taken,
        followed,
    };
    propose_from(steps, given, reach)
}

/// Looks at an image. Fails only if an allocation failed.
fn find(alloc: Global, steps: &Steps<'_, '_>, tracing: &Tracing) -> Result<Findings, AllocError>
    ensures { IfOk result (AreFindings steps.now tracing.now) }
{
    let given = given_entries(alloc, &tracing.entries, steps.tags())?;
    let followed = followed(steps, &given, tracing.plain)?;
    let mut entries = Vec::from_slice(alloc, &tracing.entries)?;
    entries.extend_from_slice(&followed.entries)?;
    let reached = reached(alloc, steps, &entries)?;
    let proposed = propose(steps, &given, &reached, &followed)?;
    Ok(Findings {
        entries,
        reached,
        proposed,
    })
}

/// Adds a comment on these addresses to an information file whose last line ends. What the file says is as before, so
/// it is not read back again. Fails if it is too large then.
fn add_unshown(text: &mut Vec<u8>, addresses: &[u16]) -> Result<(), Failure>
    ensures added { Adds result text.old text.new (unshown_lines addresses.now) }
    ensures accepted { (o : OptionsView) (i : InfoView) → information o text.old.items ≡ Ok i
        → OnOk result (information o text.new.items ≡ Ok i) }
{
    if addresses.is_empty() {
        return Ok(());
    }
    let Some((b'\n', _)) = text.split_last() else {
        return Err(Failure::Own(Refused::Other));
    };
    put_unshown(text, addresses)?;
    if MOST_BYTES < text.len() {
        return Err(Failure::Own(Refused::Text(TOO_LARGE)));
    }
    accepts_files();
    Ok(())
}

/// All ranges that are proposed. Fails only if an allocation failed.
fn all_ranges(alloc: Global, found: &Findings) -> Result<Vec<RangeSpec>, AllocError>
    ensures { IfOk result (λ all. all.items ≡ proposed_ranges found.now) }
{
    let mut all = Vec::from_slice(alloc, &found.proposed.ranges)?;
    all.extend_from_slice(&found.proposed.skips)?;
    Ok(all)
}

/// Reads back the information file with what is found after it. Returns where the reached instructions begin that its
/// listing does not show, and all of that text with the comment on these.
fn unshown_with(
    options: &Options,
    file: &InfoFile<'_>,
    steps: &Steps<'_, '_>,
    found: &Findings,
) -> Result<(Vec<u16>, Vec<u8>), Failure>
    ensures read { IfOk result (λ r.
        IsReadBack options.now file.now steps.now.map found.now r.0.items) }
    ensures text { IfOk result (λ r.
        r.1.items ≡ file.now.bytes.now ++ proposals found.now r.0.items) }
{
    let alloc = steps.alloc();
    let mut text = Vec::from_slice(alloc, file.bytes)?;
    text.extend_from_slice(&found.proposed.text)?;
    let ranges = all_ranges(alloc, found)?;
    let labels = &found.proposed.labels;
    let info = read_back(alloc, options, file.info, &text, &ranges, labels)?;
    let map = Map::build(alloc, &info, steps.image())?;
    let unshown = unshown_of(alloc, &map, steps, &found.reached)?;
    add_unshown(&mut text, &unshown)?;
    Ok((unshown, text))
}

/// What is written of the information file with what is found after it: the whole, or only what is found.
#[tactic(auto, using(crate::proofs::ReportLemmas::rest_after))]
fn written(
    alloc: Global,
    whole: bool,
    file: &InfoFile<'_>,
    text: Vec<u8>,
) -> Result<Vec<u8>, AllocError>
    ensures { (rest : List ℕ) → text.items ≡ file.now.bytes.now ++ rest
        → IfOk result (λ all. all.items ≡ after_file whole file.now.bytes.now rest) }
{
    let len = file.bytes.len();
    if whole || len == 0 {
        return Ok(text);
    }
    Vec::from_slice(alloc, text.get(len..).unwrap_or(&[]))
}

/// Returns what is found of the image of this map, whose information the file and its include files gave, and what is
/// written of it: the information file, if the whole is asked for, what is found, and a comment for each reached
/// instruction that the listing does not show.
///
/// Nothing is trusted for the promise: the information file with what is found is read back, and unless it
/// says what it is to say, there is none.
pub fn report_of(
    alloc: Global,
    map: &Map<'_>,
    file: &InfoFile<'_>,
    tracing: &Tracing,
) -> Result<Report, Failure>
    /// The marks are exactly the addresses that are reached from the entries of the result, whatever chose these
    /// (`reached`). The entries begin with those of `--entry` (`given_first`).
    ///
    /// The proposed ranges are disjoint, in order (`apart`), lie in the image (`inside`), and cover exactly its
    /// bytes that no reached instruction and no range of the information file has (`cover`). Each further range has
    /// one byte, the opcode of a reached instruction at whose operand another one begins (`skips`).
    ensures found { IfOk result (λ r. AreFindings (flow_of map.now file.now) tracing.now r.found) }
    /// The information file, followed by everything that is added to it, is accepted under the options of the
    /// command line (`accepted`). It says what the file says, with exactly the proposed ranges after its own,
    /// default names for exactly the proposed labels among its names, and nothing else (`says`). This is about the
    /// file alone, without its include files.
    ///
    /// In the map of what was read back, an item begins at each reached instruction and is as long as it, except at
    /// the addresses that the comments `# no item of its own: ..` name. They name exactly those, in order
    /// (`shown`).
    ensures accepted { IfOk result (IsAccepted tracing.now.options file.now map.now) }
    /// What is written is the information file, if `--whole` asks for it, then what is found, and then these
    /// comments.
    ensures written { IfOk result (IsWritten tracing.now.whole file.now) }
{
    let steps = Steps::of(alloc, map, file.tags)?;
    let found = find(alloc, &steps, tracing)?;
    let (unshown, text) = unshown_with(&tracing.options, file, &steps, &found)?;
    // Those of the file have been read.
    need_groups(alloc, text.get(file.bytes.len()..).unwrap_or(&text))?;
    let text = written(alloc, tracing.whole, file, text)?;
    Ok(Report {
        found,
        unshown,
        text,
    })
}
