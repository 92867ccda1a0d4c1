//! The lines of a listing, one at a time.

ghost use Rattle.std.specs.Prelude.{◌≡◌, ◌≤◌, [], ◌∷◌, IfSome, OnOk, OnErr};
ghost use Rattle.std.specs.Bool.{OnTrue, OnFalse};
ghost use Rattle.std.specs.Io.KnownBytes.{Appends};
ghost use Rattle.map65.specs.Words.{AppendsFront, Counts};
ghost use Rattle.da65.specs.Words.{Constant, Header, IsGroupPlace, IsGroupStart, IsNext, IsPlace, LeadsTo, MayBeNextAt, groups_left, left_from, lines_of, text_of};
ghost use Rattle.da65.specs.declared.listing.place.ListingPlace.TheVariants.{Group};

use crate::listing::constant_lines::{put_assignment, put_next_constant};
use crate::listing::group_lines::{group_at, put_group_line, put_statement};
use crate::listing::grouping::is_skipped;
use crate::listing::heading_lines::first_heading;
use crate::listing::listed_image::ListedImage;
use crate::listing::place::ListingPlace;
use crate::listing::plain_lines::{put_blank, put_header_line};
use info65::Info;
use map65::{DeviceFault, Image, Map, Sink, write_whole};
use std::alloc::{Allocator, Global};
use std::marker::Model;
use stmt65::Line;

/// The lines of a listing that are left.
#[derive(Drop)]
pub struct Lines<'a, A: Allocator = Global> {
    listed: ListedImage<'a, A>,
    place: ListingPlace,
}

impl<'a, A: Allocator> Model for Lines<'a, A> {
    ghost use Rattle.std.specs.Prelude.{ℕ, List};

    ghost Value = { List (List ℕ) };

    ghost use Rattle.da65.specs.Lines.{lines_from};

    ghost view = { λ l. lines_from l.place l.listed };

    ghost use Rattle.da65.specs.Lines.{IsPlace};

    ghost invariant = { λ l. IsPlace l.place l.listed };
}

/// The first byte from this one on that is not skipped, if there is one. A group begins with it.
fn shown_from<A: Allocator>(listed: &ListedImage<'_, A>, from: usize) -> Option<usize>
    requires { IsGroupPlace listed.now from }
    ensures lines { LeadsTo listed.now from result }
    ensures start { IfSome result (IsGroupStart listed.now) }
{
    for at in from..listed.bytes().len() {
        if !is_skipped(listed.map(), listed.address(at)) {
            return Some(at);
        }
    }
    None
}

/// Whether a group begins with the byte of this index, where one may: the byte is not skipped.
#[inline(always)]
#[tactic(auto, using(crate::proofs::Rules::is_shown_rules, std::proofs::lemmas::Grind::common_steps))]
fn is_shown<A: Allocator>(listed: &ListedImage<'_, A>, index: usize) -> bool
    requires { IsGroupPlace listed.now index }
    ensures { OnTrue result (IsGroupStart listed.now index) }
{
    if listed.bytes().len() <= index {
        return false;
    }
    // No item begins at a skipped byte.
    if listed.map().item_len(listed.address(index)) == 0 {
        return false;
    }
    true
}

/// Replaces the buffer by the first line of the group that begins with the byte of
/// this index, and returns the next place.
#[inline(always)]
fn put_first_line<A: Allocator>(
    out: &mut Line,
    listed: &ListedImage<'_, A>,
    index: usize,
) -> ListingPlace
    requires { IsGroupStart listed.now index }
    ensures { IsNext listed.now (groups_left listed.now index) out.new.items result }
{
    let group = group_at(listed, index);
    put_group_line(out, group, first_heading(group))
}

/// Replaces the buffer by the first line of the next group from this byte on, and returns the next place.
#[inline(never)]
#[tactic(auto, using(crate::proofs::Rules::put_next_group_rules, std::proofs::lemmas::Grind::common_steps))]
fn put_next_group<A: Allocator>(
    out: &mut Line,
    listed: &ListedImage<'_, A>,
    from: usize,
) -> Option<ListingPlace>
    requires { IsGroupPlace listed.now from }
    ensures { MayBeNextAt listed.now (Group from) out.new.items result }
{
    let index = shown_from(listed, from)?;
    Some(put_first_line(out, listed, index))
}

/// Replaces the buffer by the next line of constants from this address on, else by what
/// follows them, and returns the next place.
fn put_constants<A: Allocator>(
    out: &mut Line,
    listed: &ListedImage<'_, A>,
    address: usize,
    after_another: bool,
) -> Option<ListingPlace>
    requires { address ≤ 65536 }
    ensures { MayBeNextAt listed.now (Constant address after_another) out.new.items result }
{
    if let Some(next) = put_next_constant(out, listed, address) {
        return Some(next);
    }
    if after_another {
        put_blank(out, listed.style());
        return Some(ListingPlace::Group { index: 0 });
    }
    put_next_group(out, listed, 0)
}

/// Replaces the buffer by the line of this number of the header, and returns the next place.
fn put_header<A: Allocator>(
    out: &mut Line,
    listed: &ListedImage<'_, A>,
    number: usize,
) -> ListingPlace
    requires { IsPlace (Header number) listed.now }
    ensures { IsNext listed.now (left_from (Header number) listed.now) out.new.items result }
{
    put_header_line(out, listed.style(), number);
    if number < 3 {
        ListingPlace::Header { number: number + 1 }
    } else {
        ListingPlace::Constant {
            address: 0,
            after_another: false,
        }
    }
}

/// Replaces the buffer by the line at a place, and returns the place of the next one.
#[inline(always)]
fn put_next<A: Allocator>(
    out: &mut Line,
    listed: &ListedImage<'_, A>,
    place: ListingPlace,
) -> Option<ListingPlace>
    requires { IsPlace place listed.now }
    ensures { MayBeNextAt listed.now place out.new.items result }
{
    match place {
        ListingPlace::Header { number } => Some(put_header(out, listed, number)),
        ListingPlace::Constant {
            address,
            after_another,
        } => put_constants(out, listed, address, after_another),
        ListingPlace::Assignment { address } => Some(put_assignment(out, listed, address)),
        ListingPlace::Group { index } => put_next_group(out, listed, index),
        ListingPlace::Heading { index, number } => {
            Some(put_group_line(out, group_at(listed, index), number))
        }
        ListingPlace::Statement { index } => { Some(put_statement(out, group_at(listed, index))) }
        ListingPlace::Ending { index } => {
            put_blank(out, listed.style());
            Some(ListingPlace::Group { index })
        }
    }
}

impl<'a, A: Allocator> Lines<'a, A> {
    /// All lines of the listing of an image, by a map that was built from these two.
    #[tactic(auto, using(crate::proofs::Rules::lines_new_rules, std::proofs::lemmas::Grind::common_steps), unfolding(crate::specs::Listing::lines_of))]
    pub fn new(info: &'a Info<A>, image: &'a Image<A>, map: &'a Map<'a, A>) -> Lines<'a, A>
        requires { map.now ≡ record { info = info.now; image = image.now } }
        /// The lines are those of the definition for the map.
        ensures { result ≡ lines_of map.entry.now }
    {
        Lines {
            listed: ListedImage::new(map),
            place: ListingPlace::Header { number: 0 },
        }
    }

    /// Replaces the buffer by the next line, with its line feed, and takes it off the lines that are
    /// left. If none is left it returns false, and the buffer is empty. Allocates nothing.
    #[tactic(auto, using(crate::proofs::NextLine::NextLemmas::next_lines))]
    pub fn next_line(&mut self, out: &mut Line) -> bool
        /// Returns exactly the lines that are left, in order, each once. The call is given no allocator.
        ensures next { OnTrue result (self.old ≡ out.new.items ∷ self.new) }
        ensures end { OnFalse result (self.old ≡ []) }
        ensures still { OnFalse result (self.new ≡ []) }
        ensures empty { OnFalse result (out.new.items ≡ []) }
    {
        // The old line is blanked here once, for all kinds of lines.
        out.clear();
        if let ListingPlace::Group { index } = self.place {
            // Most lines are the first of a group, and are made here.
            if is_shown(&self.listed, index) {
                self.place = put_first_line(out, &self.listed, index);
                return true;
            }
        }
        self.next_other(out)
    }

    /// The next line, as of `next_line`, wherever the place is. It has a stack frame of its own, so
    /// that that of most lines is small.
    #[inline(never)]
    #[tactic(auto, using(crate::proofs::NextLine::NextLemmas::next_lines))]
    fn next_other(&mut self, out: &mut Line) -> bool
        ensures next { OnTrue result (self.old ≡ out.new.items ∷ self.new) }
        ensures end { OnFalse result (self.old ≡ []) }
        ensures still { OnFalse result (self.new ≡ []) }
        ensures empty { OnFalse result (out.new.items ≡ []) }
    {
        match put_next(out, &self.listed, self.place) {
            Some(next) => {
                self.place = next;
                true
            }
            None => {
                out.clear();
                false
            }
        }
    }
}

/// Writes the remaining lines in order. Allocates nothing.
#[tactic(auto, using(crate::proofs::NextLine::TakenLemmas::line_taken, crate::proofs::NextLine::TakenLemmas::front_taken), unfolding(crate::specs::Listing::text_of))]
pub fn write_lines<A: Allocator, W: Sink>(
    mut lines: Lines<'_, A>,
    out: &mut W,
) -> Result<(), DeviceFault>
    /// Writes the remaining lines in order. If a write fails, a prefix of their text has been written.
    ensures whole { OnOk result (Appends (W.taken out.old) (W.taken out.new) (text_of lines.entry)) }
    ensures front { OnErr result (AppendsFront (W.taken out.old) (W.taken out.new) (text_of lines.entry)) }
    ensures count { Counts (W.faults out.old) (W.faults out.new) result }
{
    let mut line = Line::new();
    'lines: while lines.next_line(&mut line) {
        write_whole(out, line.as_slice())?;
    }
    Ok(())
}
