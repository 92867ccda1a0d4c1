//! The names of an information with those of an include file.

ghost use Rattle.std.specs.Prelude.{Ok};
ghost use Rattle.info65.specs.Words.{AreNames, Gives, MayName, ReadsFile, line_adds, name_result_seen, optional_adds, unless_ignored};

use crate::fault::{InfoFault, InfoFaultKind};
use crate::includes::include::IncludeSpec;
use crate::includes::include_lines::line_in;
use crate::information::info::Info;
use crate::information::name::Given;
use crate::information::pool::NamePool;
use crate::lookup::index::Index;
use crate::syntax::lexer::MOST_BYTES;
use std::alloc::{Allocator, Global};
use std::marker::Model;
use text65::first_line;

// What a name counts for that is there before a file, beside the bytes of the file.
const BYTES_OF_A_NAME: usize = 16;

// The index of the names of an information, where those of that many bytes are to come.
#[tactic(auto, using(crate::proofs::Rules::index_of_rules))]
fn index_of<'a, A: Allocator + Copy>(
    alloc: A,
    info: &'a Info<A>,
    bytes: usize,
) -> Result<Index<'a, A>, InfoFault>
    ensures names { Gives (λ i. i) result (Ok info.entry.now.names) }
    ensures sound { AreNames info.entry.now.names }
{
    let count = info.given_count();
    let mut index = Index::new(
        alloc,
        bytes.saturating_add(count.saturating_mul(BYTES_OF_A_NAME)),
    );
    for place in 0..count {
        index.add(info.given(place))?;
    }
    Ok(index)
}

// What a line adds to the names of the index by what it says, or its fault.
fn optional_adds<'a, A: Allocator + Copy>(
    index: &Index<'a, A>,
    said: Result<Option<Given<'a>>, InfoFaultKind>,
) -> Result<Option<Given<'a>>, InfoFaultKind>
    ensures { MayName result (optional_adds index.now (name_result_seen said.entry)) }
{
    match said? {
        Some(name) => index.name_adds(name),
        None => Ok(None),
    }
}

// The same at a line of this number. Where faults are passed over, a line that has one adds nothing.
fn unless_ignored<'a>(
    ignore_unknown: bool,
    number: u32,
    added: Result<Option<Given<'a>>, InfoFaultKind>,
) -> Result<Option<Given<'a>>, InfoFault>
    ensures { MayName result (unless_ignored ignore_unknown number (name_result_seen added.entry)) }
{
    match added {
        Ok(added) => Ok(added),
        Err(kind) => {
            if ignore_unknown {
                Ok(None)
            } else {
                Err(InfoFault::new(number, kind))
            }
        }
    }
}

// What a line of this number adds to the names of the index, or its fault.
#[tactic(auto, using(crate::proofs::Rules::line_adds_rules), unfolding(crate::specs::Includes::line_adds))]
fn line_adds<'a, A: Allocator + Copy>(
    index: &Index<'a, A>,
    include: &IncludeSpec<A>,
    number: u32,
    line: &'a [u8],
) -> Result<Option<Given<'a>>, InfoFault>
    ensures { MayName result (line_adds include.now number index.now line.now) }
{
    let said = line_in(include.comment_start, line);
    let added = optional_adds(index, said);
    unless_ignored(include.ignore_unknown, number, added)
}

// The names with those of an include file, or its first fault.
#[tactic(auto, unfolding(crate::specs::Includes::names_included))]
fn with_file<'a, A: Allocator + Copy>(
    index: Index<'a, A>,
    include: &IncludeSpec<A>,
    bytes: &'a [u8],
) -> Result<Index<'a, A>, InfoFault>
    ensures { ReadsFile include.now index.entry bytes.entry.now result }
{
    if bytes.len() > MOST_BYTES {
        return Err(InfoFault::new(1, InfoFaultKind::TooLarge));
    }
    let mut names = index;
    let mut rest = bytes;
    let mut number = 1;
    'lines: while let Some((line, after)) = first_line(rest) {
        let added = line_adds(&names, include, number, line)?;
        rest = after;
        number += 1;
        let Some(name) = added else {
            continue;
        };
        names.add(name)?;
    }
    Ok(names)
}

/// An information to which the names of include files are added, file by file. A contract sees it as
/// the information with the names so far.
#[derive(Drop)]
pub struct Inclusion<'a, A: Allocator = Global> {
    info: &'a Info<A>,
    names: Index<'a, A>,
}

impl<'a, A: Allocator> Model for Inclusion<'a, A> {
    ghost use Rattle.info65.specs.Includes.{with_names};
    ghost use Rattle.info65.specs.Labels.{by_address};
    ghost use Rattle.info65.specs.Names.{AreGiven};
    ghost use Rattle.info65.specs.Views.{InfoView};

    ghost Value = { InfoView };

    ghost view = { λ i. with_names i.info.now (by_address i.names) };

    ghost invariant = { λ i. AreGiven i.names };
}

impl<'a, A: Allocator + Copy> Inclusion<'a, A> {
    ghost use Rattle.std.specs.Prelude.{◌≡◌, ◌<◌, Ok, length};
    ghost use Rattle.info65.specs.Words.{AreIncludes, AreNames, Gives, included};

    /// The information as it is. `bytes` is how many bytes its include files have together: memory for looking names up
    /// is taken in proportion to it.
    pub fn of(alloc: A, info: &'a Info<A>, bytes: usize) -> Result<Self, InfoFault>
        /// An `Inclusion` takes include files one after the other over one index. It starts with the names of the
        /// information that it borrows; or memory ran out.
        ensures { Gives (λ i. i) result (Ok info.entry.now) }
    {
        let names = index_of(alloc, info, bytes)?;
        Ok(Inclusion { info, names })
    }

    /// The include files of the information, in the order of their groups.
    pub fn includes(&self) -> &'a [IncludeSpec<A>]
        /// Returns the include files of the information.
        ensures includes { result.now ≡ self.now.includes }
        ensures sound { AreIncludes self.now.includes }
    {
        self.info.includes()
    }

    /// Adds the names of the include file at this place, whose bytes these are.
    /// [`read_include`](crate::read_include) says which names are added, and when a file is refused. What was read
    /// is then gone, and the information is as before.
    pub fn with(self, index: usize, bytes: &'a [u8]) -> Result<Self, InfoFault>
        requires { index < length self.includes }
        /// Each file is accepted with exactly its names, or refused, as by `read_include`; or out of memory. After
        /// a failure nothing of the index is left.
        ensures { Gives (λ i. i) result (included self.entry index bytes.entry.now) }
    {
        let Inclusion { info, names } = self;
        let names = with_file(names, &info.includes()[index], bytes)?;
        Ok(Inclusion { info, names })
    }

    /// All names, by address, for [`Info::set_names`].
    pub fn names(self, alloc: A) -> Result<NamePool<A>, InfoFault>
        /// Returns the names of the information with those of the files so far; or out of memory.
        ensures names { Gives (λ n. n) result (Ok self.entry.names) }
        ensures sound { AreNames self.entry.names }
    {
        let Inclusion { info: _, names } = self;
        names.names(alloc)
    }
}
