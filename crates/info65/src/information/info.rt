//! What an information file says.

ghost use Rattle.std.specs.Prelude.{◌≡◌, ◌<◌, IfErr, IfOk, Ok, length, option_copied, option_map};
ghost use Rattle.info65.specs.Words.{AreAllFormed, AreFormed, AreInLimits, AreIncludes, AreNames, AreRanges, AreSegments, Gives, Includes, covering, given_seen, global_seen, groups_seen, includes_of, information, name_at, out_of_memory, segment_covering, segments_of, segments_seen, settings_of, with_names};

use crate::fault::{InfoFault, InfoFaultKind};
use crate::groups::include_groups::includes_of;
use crate::groups::segment_groups::segments_of;
use crate::includes::include::IncludeSpec;
use crate::includes::included::Inclusion;
use crate::information::merge::settings_of;
use crate::information::name::Given;
use crate::information::options::Options;
use crate::information::pool::NamePool;
use crate::information::range::RangeSpec;
use crate::information::segment::SegmentSpec;
use crate::information::segment_table::SegmentTable;
use crate::information::settings::Settings;
use crate::syntax::assignment::Group;
use crate::syntax::lexer::MOST_BYTES;
use crate::syntax::parser::read_groups;
use std::alloc::{Allocator, Global};
use std::marker::Model;

/// An information file that was accepted, merged with the options. The bytes of all names stand in one pool.
#[derive(Drop)]
pub struct Info<A: Allocator = Global> {
    settings: Settings<A>,
    ranges: Vec<RangeSpec, A>,
    segments: SegmentTable<A>,
    names: NamePool<A>,
    includes: Vec<IncludeSpec<A>, A>,
}

impl<A: Allocator> Model for Info<A> {
    ghost use Rattle.info65.specs.Sound.{IsSound};
    ghost use Rattle.info65.specs.Views.{InfoView};

    ghost Value = { InfoView };

    ghost view = { λ i. record { settings = i.settings; ranges = i.ranges.items; segments = i.segments; names = i.names; includes = i.includes.items } };

    ghost invariant = { λ i. IsSound i.settings i.ranges.items i.segments i.names i.includes.items };
}

impl<A: Allocator> Info<A> {
    /// The settings: the options, the groups GLOBAL and the defaults.
    pub fn settings(&self) -> &Settings<A>
        /// Returns the settings that the file and the options gave, which are in their limits.
        ensures settings { result.now ≡ self.now.settings }
        ensures limits { AreInLimits self.now.settings }
    {
        &self.settings
    }

    /// The ranges, in the order of their groups. No two of them share an address.
    pub fn ranges(&self) -> &[RangeSpec]
        /// Returns the ranges that the file gave.
        ensures ranges { result.now ≡ self.now.ranges }
        /// None of the ranges ends before it begins, and no two share an address.
        ensures sound { AreRanges self.now.ranges }
    {
        self.ranges.as_slice()
    }

    /// The segments, in the order of their groups. No two of them share an address.
    pub fn segments(&self) -> &[SegmentSpec<A>]
        /// Returns the segments of the groups SEGMENT, in their order.
        ensures segments { segments_seen result.now ≡ self.now.segments }
        /// None of the segments ends before it begins, and no address belongs to two.
        ensures sound { AreSegments self.now.segments }
    {
        self.segments.as_slice()
    }

    /// The name of the segment that contains an address.
    /// It takes a time that grows with the logarithm of the number of segments.
    pub fn segment_covering(&self, address: u16) -> Option<&[u8]>
        /// Returns the name of the segment that an address belongs to.
        ensures name { option_copied result ≡ segment_covering self.now.segments address }
        /// As in `Info::segments`.
        ensures sound { AreSegments self.now.segments }
    {
        self.segments.covering(address)
    }

    /// The include files, in the order of their groups, 16 at most. A file that two groups name is there twice.
    pub fn includes(&self) -> &[IncludeSpec<A>]
        /// Returns the include files, at most 16.
        ensures includes { result.now ≡ self.now.includes }
        ensures sound { AreIncludes self.now.includes }
    {
        self.includes.as_slice()
    }

    /// How many names are given.
    pub fn given_count(&self) -> usize
        /// Returns the number of names.
        ensures count { result ≡ length self.now.names }
        /// The names ascend by address, and no two have one text.
        ensures sound { AreNames self.now.names }
    {
        self.names.count()
    }

    /// The given name at this place, by address.
    pub fn given(&self, index: usize) -> Given<'_>
        requires { index < length self.now.names }
        /// Returns a name by its number.
        ensures name { given_seen result ≡ name_at self.now.names index }
        /// As in `Info::given_count`.
        ensures sound { AreNames self.now.names }
    {
        self.names.given(index)
    }

    /// The given name of an address: of those that are for it the one with the highest address of its own.
    /// It takes a time that grows with the square of the logarithm of the number of names, however these overlap.
    pub fn covering(&self, address: u16) -> Option<Given<'_>>
        /// Returns exactly the name that covers the address, by the definition.
        ensures name { option_map given_seen result ≡ covering self.now.names address }
        /// As in `Info::given_count`.
        ensures sound { AreNames self.now.names }
    {
        self.names.covering(address)
    }

    /// Puts names in the place of its own: those of an [`Inclusion`](crate::Inclusion) of this information.
    pub fn set_names(&mut self, names: NamePool<A>)
        requires { AreNames names }
        /// The names of the index replace those of the `Info`, which is otherwise unchanged.
        ensures { self.new ≡ with_names self.old names }
    {
        self.names = names;
    }
}

// What the groups say that are read again.
#[derive(Drop)]
struct Said<A: Allocator> {
    settings: Settings<A>,
    segments: SegmentTable<A>,
    includes: Vec<IncludeSpec<A>, A>,
}

// The segments of these groups.
fn segments_in<A: Allocator + Copy, B: Allocator>(
    alloc: A,
    groups: &[Group<B>],
) -> Result<SegmentTable<A>, InfoFault>
    ensures { Gives (λ t. t) result (Ok (segments_of (groups_seen groups.now))) }
{
    SegmentTable::new(alloc, segments_of(alloc, groups)?)
}

// The settings, segments and include files of the groups that are read again.
fn said_again<A: Allocator + Copy, B: Allocator>(
    alloc: A,
    options: &Options<B>,
    groups: &[Group<A>],
) -> Result<Said<A>, InfoFault>
    requires settings { AreFormed (global_seen groups.now) }
    requires includes { AreAllFormed (groups_seen groups.now) }
    ensures settings { IfOk result (λ s. settings_of options.now (global_seen groups.now) ≡ s.settings) }
    ensures segments { IfOk result (λ s. segments_of (groups_seen groups.now) ≡ s.segments) }
    ensures includes { IfOk result (λ s. includes_of (groups_seen groups.now) ≡ s.includes.items) }
    ensures err { IfErr result (λ e. e ≡ out_of_memory) }
{
    let settings = settings_of(alloc, options, groups)?;
    let segments = segments_in(alloc, groups)?;
    let includes = includes_of(alloc, groups)?;
    Ok(Said {
        settings,
        segments,
        includes,
    })
}

/// Reads an information file under the options of the command line. No information file is the empty one.
///
/// The grammar is that of the da65 Users Guide, with these groups and attributes: GLOBAL with INPUTNAME, OUTPUTNAME,
/// INPUTOFFS, INPUTSIZE, STARTADDR, CPU, COMMENTS, MNEMONICCOLUMN, ARGUMENTCOLUMN, COMMENTCOLUMN, TEXTCOLUMN,
/// LABELBREAK, HEXOFFS, NEWLINEAFTERJMP, NEWLINEAFTERRTS and PAGELENGTH; RANGE with START, END, SIZE, TYPE, NAME and
/// COMMENT; LABEL with ADDR, NAME, SIZE and COMMENT; SEGMENT with START, END and NAME; ASMINC with FILE, COMMENTSTART
/// and IGNOREUNKNOWN. Include files are read apart, by [`read_include`]. A file is accepted exactly when its tokens are
/// groups that keep every condition; else it is refused for the first fault from left to right, with that fault's line.
/// A file of more than 1,048,576 bytes is TooLarge at line 1. It returns Memory at line 0 only if an allocation failed.
/// The time grows with the size of the file: no group is read again at a closing brace.
// The reader is large: a program that calls it in several places has it once.
#[tactic(auto, unfolding(crate::specs::Reader::information))]
#[inline(never)]
pub fn read_info<A: Allocator + Copy, B: Allocator>(
    alloc: A,
    options: &Options<B>,
    bytes: &[u8],
) -> Result<Info<A>, InfoFault>
    /// Accepts the file with exactly the merged settings, the ranges, segments and include files in their order,
    /// and the names with their comments by address. Or refuses it with exactly the line and kind of the
    /// definition; or out of memory.
    ensures { Gives (λ i. i) result (information options.now bytes.now) }
{
    if bytes.len() > MOST_BYTES {
        return Err(InfoFault::new(1, InfoFaultKind::TooLarge));
    }
    // This does nothing; its clause says which numbers the options have.
    options.limits();
    let closed = read_groups(alloc, options, bytes)?;
    let said = said_again(alloc, options, closed.kept())?;
    let (ranges, names) = closed.ranges_and_names(alloc)?;
    Ok(Info {
        settings: said.settings,
        ranges,
        segments: said.segments,
        names,
        includes: said.includes,
    })
}

/// Adds the names of an include file to an information. `index` is the file's place in [`Info::includes`], and
/// `bytes` is what it holds. Files are meant to be read in the order of their places.
///
/// Lines end by a line feed, and one carriage return at a line's end is dropped. A comment begins at the first
/// COMMENTSTART byte of a line. What is left is blank, or it is `name = value` or `name := value`: a letter or `_`,
/// then letters, digits and `_`; and a number 0 to 65,535, in decimal, after `$` in hex, or after `%` in binary. Spaces
/// and TABs may stand around each part. Any other line is BadInclude. A name of more than 80 bytes is BadName, and a
/// reserved one ReservedName. Then a line whose address has a name already is passed over, and a name that stands at
/// another address is NameTwice. The first fault is returned, with its line. With IGNOREUNKNOWN each line that has a
/// fault is passed over. A file of more than 1,048,576 bytes is TooLarge at line 1, with IGNOREUNKNOWN too. It returns
/// Memory at line 0 only if an allocation failed.
///
/// If it returns an error, the information is as before.
pub fn read_include<A: Allocator + Copy>(
    alloc: A,
    info: &mut Info<A>,
    index: usize,
    bytes: &[u8],
) -> Result<(), InfoFault>
    requires { index < length info.old.includes }
    /// Accepts an include file, and adds exactly the names of its lines, or refuses it with exactly the line and
    /// kind of the definition; or out of memory. On every refusal the `Info` is unchanged.
    ensures { Includes info.old index bytes.now result info.new }
{
    let read = Inclusion::of(alloc, info, bytes.len())?.with(index, bytes)?;
    let names = read.names(alloc)?;
    info.set_names(names);
    Ok(())
}
