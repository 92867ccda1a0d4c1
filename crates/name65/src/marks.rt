//! The addresses that groups of the lines `#: ..` name.

ghost use Rattle.std.specs.Prelude.{◌≡◌, ℕ, IfOk};
ghost use Rattle.map65.specs.Words.{is_marked};
ghost use Rattle.name65.specs.Compared.{names_one};
ghost use Rattle.name65.specs.Marks.{MarksAlso, count_to, has_address, is_among, is_named, is_one, names_seen};

use info65::{Tag, TagKind};
use map65::Marks;
use std::alloc::{AllocError, Global};

/// What groups say of bytes.
#[derive(Clone, Copy)]
enum Sort {
    /// They are halves of an address.
    Half,
    /// They are numbers.
    Number,
    /// They are named by another group.
    Other,
}

/// Marks this many addresses from one on, if there is one, up to $FFFF.
fn mark_among(marks: &mut Marks, first: Option<u16>, count: usize)
    ensures { MarksAlso (is_among first count) marks.old marks.new }
{
    if let Some(first) = first {
        let from = usize::from(first);
        marks.set_span(from, from.saturating_add(count));
    }
}

/// How many addresses there are from one to another.
fn count_to(first: Option<u16>, last: Option<u16>) -> usize
    ensures { result ≡ count_to first last }
{
    match (first, last) {
        (Some(first), Some(last)) => (usize::from(last) + 1).saturating_sub(usize::from(first)),
        _ => 0,
    }
}

/// Marks the addresses of which a group says this.
#[tactic(auto, unfolding(crate::specs::Marks::has_address))]
fn mark_tag(marks: &mut Marks, sort: Sort, tag: Tag)
    ensures { MarksAlso (λ a. has_address sort a tag) marks.old marks.new }
{
    match (sort, tag.kind) {
        (Sort::Half, TagKind::Halves) => {
            let count = usize::from(tag.size.unwrap_or(1));
            mark_among(marks, tag.low, count);
            mark_among(marks, tag.high, count);
        }
        (Sort::Number, TagKind::Number) => mark_among(marks, tag.address, 1),
        (Sort::Other, TagKind::Difference) => mark_among(marks, tag.address, 2),
        (Sort::Other, TagKind::Base) => mark_among(marks, tag.address, 1),
        (Sort::Other, TagKind::After) => {
            mark_among(marks, tag.first, count_to(tag.first, tag.last));
        }
        _ => {}
    }
}

/// Marks the addresses of which these groups say this, and no others.
fn marks_of(alloc: Global, sort: Sort, tags: &[Tag]) -> Result<Marks, AllocError>
    ensures { IfOk result (λ marks. (a : ℕ) → is_marked marks a ≡ is_one sort tags.now a) }
{
    let mut marks = Marks::none(alloc)?;
    'tags: for &tag in tags {
        mark_tag(&mut marks, sort, tag);
    }
    Ok(marks)
}

/// Which bytes groups name: halves, but not those that are numbers, and others.
#[derive(Drop)]
pub struct NamedBytes {
    halves: Marks,
    numbers: Marks,
    others: Marks,
}

impl NamedBytes {
    /// The bytes that these groups name.
    pub fn new(alloc: Global, tags: &[Tag]) -> Result<NamedBytes, AllocError>
        ensures { IfOk result (λ named. (a : ℕ) → names_seen named a ≡ is_named tags.now a) }
    {
        Ok(NamedBytes {
            halves: marks_of(alloc, Sort::Half, tags)?,
            numbers: marks_of(alloc, Sort::Number, tags)?,
            others: marks_of(alloc, Sort::Other, tags)?,
        })
    }

    /// Whether a group NUMBER has the byte.
    pub fn is_number(&self, address: u64) -> bool {
        self.numbers.get_at(address as usize)
    }

    /// Whether a group names the byte.
    pub fn names(&self, address: u64) -> bool
        ensures { result ≡ names_seen self.now address }
    {
        let place = address as usize;
        self.others.get_at(place) || self.halves.get_at(place) && !self.numbers.get_at(place)
    }

    /// Whether a group names one of the bytes from `at` to before `end`.
    pub fn names_one(&self, at: u64, end: u64) -> bool
        ensures { result ≡ names_one (names_seen self.now) at end }
    {
        (at..end).any(|address| self.names(address))
    }
}
