//! What guides: which entries join, and what the bytes may be that no code has. A call fails only if memory runs out.

use bytes65::bases::{Base, bases_of};
use bytes65::cells::{Cell, cells_of};
use bytes65::copies::{Copied, copies_of};
use bytes65::firsts::mark_firsts;
use bytes65::ground::Ground;
use bytes65::halves::{Halves, halves_of};
use bytes65::items::items_of;
use bytes65::labels::{Addressed, labels_of};
use bytes65::links::mark_links;
use bytes65::loads::{mark_calls, mark_loaded};
use bytes65::orphans::mark_orphans;
use bytes65::pointers::mark_pointers;
use bytes65::rows::{Words, mark_rows, words_of};
use bytes65::survey::Survey;
use bytes65::tables::mark_tables;
use bytes65::threads::mark_threads;
use bytes65::variables::{Variables, variables_of};
use entries65::Steps;
use entries65::declared::{declared_of, said_places};
use entries65::growth::{Followed, follow};
use entries65::pairs::Pair;
use entries65::readers::Split;
use entries65::starts::entries_of;
use info65::{Tag, TagKind};
use map65::Marks;
use reach65::image::ends;
use std::alloc::{AllocError, Global};

/// How far behind the image and its variables an address in halves may lie.
const PAGE: usize = 256;

/// Marks of what is reached in an image, and what kept more from being reached.
#[derive(Clone, Copy)]
pub struct Reach<'a> {
    /// A reached instruction begins at the address.
    pub reached: &'a Marks,
    /// One has it.
    pub code: &'a Marks,
    /// One has it, or a range of the information file.
    pub taken: &'a Marks,
    pub followed: &'a Followed,
}

/// What the bytes are that nothing speaks for.
#[derive(Drop)]
pub struct Data<'a> {
    /// What nothing speaks for, with the words among it.
    pub ground: Ground<'a>,
    /// Where words begin that may be addresses of routines and names.
    pub words: Vec<u16>,
    /// Where words begin to whose routines nothing else leads.
    pub orphans: Vec<u16>,
    /// The tables of halves.
    pub splits: Vec<Split>,
    /// The halves of the information file.
    pub declared: Vec<Split>,
    /// The words that are copied to pointers.
    pub cells: Vec<Cell>,
}

/// The addresses that reached code has otherwise than by operands in the image.
#[derive(Drop)]
pub struct Addresses {
    /// The variables after the image.
    pub variables: Variables,
    /// The code that is copied and runs elsewhere.
    pub copies: Vec<Copied>,
    /// The addresses in halves.
    pub pairs: Vec<Pair>,
    /// Those that may be one.
    pub likely: Vec<Pair>,
}

/// What is found of an image.
#[derive(Drop)]
pub struct Advice<'a> {
    pub steps: &'a Steps<'a>,
    pub reach: Reach<'a>,
    /// What reached instructions do with addresses.
    pub survey: Survey<'a>,
    pub addresses: Addresses,
    pub data: Data<'a>,
    /// The operands that are likely counted from a table behind them.
    pub bases: Vec<Base>,
    /// The addresses that get labels.
    pub labels: Vec<u16>,
}

/// Returns the entries that are given: those of the command line, and then those of the groups ENTRY.
pub fn given_entries(alloc: Global, given: &[u16], tags: &[Tag]) -> Result<Vec<u16>, AllocError> {
    let mut entries = Vec::from_slice(alloc, given)?;
    for tag in tags {
        if let (TagKind::Entry, Some(address)) = (tag.kind, tag.address) {
            entries.push(address)?;
        }
    }
    Ok(entries)
}

/// Returns all entries: where reading begins, with those that are given, and, unless no more than the entries are to be
/// followed, those that join them.
pub fn followed(steps: &Steps<'_>, given: &[u16], plain: bool) -> Result<Followed, AllocError> {
    follow(steps, &entries_of(steps, given, plain)?, plain)
}

/// The addresses that nothing speaks for, with the words and halves of tables among them, and those that lead on or
/// stand in threads; the tables of halves; and where further words begin that may be addresses.
fn ground_of<'a>(
    survey: &Survey<'a>,
    reach: Reach<'a>,
    said: &Marks,
    pairs: &[Pair],
) -> Result<(Ground<'a>, Vec<Split>, Vec<u16>), AllocError> {
    let alloc = survey.steps.alloc();
    let mut ground = Ground::of(survey, reach.taken, said.copy(alloc)?)?;
    ground.put_vectors(reach.reached);
    let splits = mark_tables(&mut ground, survey, &reach.followed.tables)?;
    for &at in &reach.followed.words {
        ground.put_word(usize::from(at));
    }
    let Words { leading, near } = words_of(&ground, survey)?;
    mark_links(alloc, &mut ground, &near)?;
    if !reach.followed.words.is_empty() {
        mark_threads(&mut ground, survey, pairs)?;
    }
    Ok((ground, splits, leading))
}

impl<'a> Data<'a> {
    /// Looks at the bytes that nothing speaks for. Code has the addresses of these pairs.
    fn of(
        survey: &Survey<'a>,
        reach: Reach<'a>,
        said: &Marks,
        pairs: &[Pair],
    ) -> Result<Data<'a>, AllocError> {
        let declared = declared_of(survey.steps, &reach.followed.tables)?;
        let (mut ground, splits, words) = ground_of(survey, reach, said, pairs)?;
        mark_rows(&mut ground, survey, &words);
        mark_loaded(&mut ground, survey)?;
        mark_calls(&mut ground, survey);
        mark_pointers(&mut ground, survey, pairs)?;
        mark_firsts(&mut ground, survey, pairs)?;
        let orphans = mark_orphans(&mut ground, survey, pairs, &words)?;
        let cells = cells_of(&ground, survey)?;
        Ok(Data {
            ground,
            words,
            orphans,
            splits,
            declared,
            cells,
        })
    }
}

/// The pairs of halves, whose addresses lie in the image or little behind the last of these variables, or of those that
/// may be some. None is at a place that `said` has.
fn pairs_of(
    survey: &Survey<'_>,
    taken: &Marks,
    said: Marks,
    variables: &Variables,
) -> Result<Halves, AllocError> {
    let (_, end) = ends(survey.steps.image());
    let items = items_of(survey, taken)?;
    let behind = |addresses: &[u16]| {
        let last = addresses.last().map_or(end, |last| usize::from(*last));
        last.saturating_add(PAGE)
    };
    let limit = behind(&variables.addresses);
    let most = limit.max(behind(&variables.beyond));
    halves_of(survey, &items, said, (limit, most))
}

impl Addresses {
    /// Looks for the addresses that reached code has. No pair is at a place that `said` has.
    fn of(survey: &Survey<'_>, taken: &Marks, said: &Marks) -> Result<Addresses, AllocError> {
        let variables = variables_of(survey)?;
        let copies = copies_of(survey)?;
        let said = said.copy(survey.steps.alloc())?;
        let Halves { mut sure, likely } = pairs_of(survey, taken, said, &variables)?;
        sure.retain(|pair| !copies.iter().any(|copied| copied.hides(pair.low)));
        Ok(Addresses {
            variables,
            copies,
            pairs: sure,
            likely,
        })
    }
}

impl<'a> Advice<'a> {
    /// Looks at an image of which this is reached.
    pub fn of(steps: &'a Steps<'a>, reach: Reach<'a>) -> Result<Advice<'a>, AllocError> {
        let said = said_places(steps.alloc(), steps.tags())?;
        let survey = Survey::of(steps, reach.reached, reach.code)?;
        let addresses = Addresses::of(&survey, reach.taken, &said)?;
        let data = Data::of(&survey, reach, &said, &addresses.pairs)?;
        let mut bases = bases_of(&survey)?;
        let copies = &addresses.copies;
        bases.retain(|base| !copies.iter().any(|copied| copied.reader == base.reader));
        let addressed = Addressed {
            pairs: &addresses.pairs,
            variables: &addresses.variables.addresses,
            bases: &bases,
            tables: [&data.splits, &data.declared],
        };
        let labels = labels_of(&survey, addressed)?;
        Ok(Advice {
            steps,
            reach,
            survey,
            addresses,
            data,
            bases,
            labels,
        })
    }
}
