//! Names by address, with the bytes of all of them in one pool.

ghost use Rattle.std.specs.Prelude.{◌≡◌, ◌+◌, ◌-◌, ◌<◌, ◌≤◌, ◌++◌, IfErr, IfOk, OnErr, length, map, option_copied, option_map};
ghost use Rattle.std.specs.List.Sorted.{IsNonDecreasingBy};
ghost use Rattle.info65.specs.Words.{Adds, AreAbove, AreBlocks, AreNames, IsPool, IsWithin, ReachTo, block_start, bytes_of, covering, entry_covers, entry_seen, given_seen, name_at, optional, out_of_memory, reach_of, span_of};

use crate::fault::InfoFault;
use crate::information::name::Given;
use crate::lookup::numbers::narrow;
use std::alloc::{Allocator, Global};
use std::marker::Model;

/// Bytes of the pool.
#[derive(Clone, Copy)]
pub struct Span {
    pub first: u32,
    pub size: u32,
}

/// A name, by its bytes in the pool. None of the entries of the block that it ends reaches further than `most`, so a
/// search passes over a block that ends before its address.
#[derive(Clone, Copy)]
pub struct Entry {
    pub address: u16,
    pub size: u32,
    pub text: Span,
    pub comment: Option<Span>,
    pub most: u32,
}

/// The names of an information, by address, with the bytes of all of them in one pool. A contract sees the list of the
/// names. Names are added at the end, and a pool that was not taken over leaves nothing behind.
#[derive(Drop)]
pub struct NamePool<A: Allocator = Global> {
    entries: Vec<Entry, A>,
    bytes: Vec<u8, A>,
}

impl<A: Allocator> Model for NamePool<A> {
    ghost use Rattle.std.specs.Prelude.{List, map};
    ghost use Rattle.info65.specs.Code.Pool.{IsPool, entry_seen};
    ghost use Rattle.info65.specs.Views.{NameView};

    ghost Value = { List NameView };

    ghost view = { λ p. map (entry_seen p.bytes.items) p.entries.items };

    ghost invariant = { λ p. IsPool p.bytes.items p.entries.items };
}

impl<A: Allocator + Copy> NamePool<A> {
    ghost use Rattle.std.specs.Prelude.{Ok, []};
    ghost use Rattle.info65.specs.Words.{Gives};

    /// No names, with room for so many.
    pub(crate) fn with_room(alloc: A, names: usize) -> Result<Self, InfoFault>
        ensures { Gives (λ p. p) result (Ok []) }
    {
        let entries = Vec::with_capacity(alloc, names)?;
        let bytes = Vec::new(alloc);
        Ok(NamePool { entries, bytes })
    }
}

impl<A: Allocator> NamePool<A> {
    ghost use Rattle.std.specs.Prelude.{◌≡◌, ◌<◌, ◌∷◌, ◌++◌, IfErr, [], OnOk, length, option_map};
    ghost use Rattle.info65.specs.Words.{AreNames, covering, given_seen, name_at, out_of_memory};

    /// How many names there are.
    pub(crate) fn count(&self) -> usize
        ensures { result ≡ length self.now }
    {
        self.entries.len()
    }

    /// The name at this place.
    pub(crate) fn given(&self, index: usize) -> Given<'_>
        requires { index < length self.now }
        ensures { given_seen result ≡ name_at self.now index }
    {
        given_at(self.entries.as_slice(), self.bytes.as_slice(), index)
    }

    /// The last of the names that covers the address.
    pub(crate) fn covering(&self, address: u16) -> Option<Given<'_>>
        requires { AreNames self.now }
        ensures { option_map given_seen result ≡ covering self.now address }
    {
        covering_in(self.entries.as_slice(), self.bytes.as_slice(), address)
    }

    /// Adds a name at the end.
    #[inline(always)]
    pub(crate) fn add(&mut self, name: Given<'_>) -> Result<(), InfoFault>
        ensures done { OnOk result (self.new ≡ self.old ++ given_seen name.entry ∷ []) }
        ensures err { IfErr result (λ e. e ≡ out_of_memory) }
    {
        let text = put(&mut self.bytes, name.text)?;
        let comment = put_optional(&mut self.bytes, name.comment)?;
        let reach = u64::from(name.address) + u64::from(name.size);
        let most = narrow(most_reached(self.entries.as_slice(), reach) as usize)?;
        self.entries.push(Entry {
            address: name.address,
            size: name.size,
            text,
            comment,
            most,
        })?;
        Ok(())
    }
}

// Adds bytes, and returns where they are.
fn put<A: Allocator>(bytes: &mut Vec<u8, A>, text: &[u8]) -> Result<Span, InfoFault>
    ensures bytes { Adds result bytes.old bytes.new text.now }
    ensures span { IfOk result (λ s. s ≡ span_of bytes.old.items text.now) }
    ensures same { OnErr result (bytes.new.items ≡ bytes.old.items) }
    ensures err { IfErr result (λ e. e ≡ out_of_memory) }
{
    let first = narrow(bytes.len())?;
    let size = narrow(text.len())?;
    bytes.extend_from_slice(text)?;
    Ok(Span { first, size })
}

// Adds bytes if there are some.
fn put_optional<A: Allocator>(
    bytes: &mut Vec<u8, A>,
    text: Option<&[u8]>,
) -> Result<Option<Span>, InfoFault>
    ensures bytes { Adds result bytes.old bytes.new (optional (option_copied text.entry)) }
    ensures span { IfOk result (λ s. s ≡ option_map (span_of bytes.old.items) (option_copied text.entry)) }
    ensures same { OnErr result (bytes.new.items ≡ bytes.old.items) }
    ensures err { IfErr result (λ e. e ≡ out_of_memory) }
{
    match text {
        Some(text) => Ok(Some(put(bytes, text)?)),
        None => Ok(None),
    }
}

// Where the block begins that ends before the n-th entry. Each n has a block, which has as many entries as its lowest
// bit says, and the blocks that begin in another one end in it. So a search passes over all entries in a few blocks.
#[tactic(auto, unfolding(crate::specs::Code::Pool::block_start))]
fn block_start(end: usize) -> usize
    requires { 0 < end }
    ensures value { result ≡ block_start end }
    ensures below { result < end }
{
    end & (end - 1)
}

// How far the entries of a block reach whose last one is put after these and reaches so far.
fn most_reached(entries: &[Entry], reach: u64) -> u64
    requires { AreBlocks entries.now }
    ensures own { reach ≤ result }
    ensures block { ReachTo entries.now (block_start (length entries.now + 1)) (length entries.now) result }
{
    let first = block_start(entries.len() + 1);
    let mut most = reach;
    let mut left = entries.len();
    'left: while first < left {
        most = most.max(u64::from(entries[left - 1].most));
        left = block_start(left);
    }
    most
}

fn bytes_of<'a>(pool: &'a [u8], span: Span) -> &'a [u8]
    requires { IsWithin pool.now span }
    ensures { result.now ≡ bytes_of pool.entry.now span }
{
    let first = span.first as usize;
    &pool[first..first + span.size as usize]
}

// The name of the entry at this place.
fn given_at<'a>(entries: &[Entry], pool: &'a [u8], index: usize) -> Given<'a>
    requires within { index < length entries.now }
    requires pool { IsPool pool.now entries.now }
    ensures { given_seen result ≡ name_at (map (entry_seen pool.entry.now) entries.now) index }
{
    let entry = entries[index];
    let comment = match entry.comment {
        Some(span) => Some(bytes_of(pool, span)),
        None => None,
    };
    Given {
        address: entry.address,
        size: entry.size,
        text: bytes_of(pool, entry.text),
        comment,
    }
}

fn reach_of(entry: &Entry) -> u64
    ensures { result ≡ reach_of entry.now }
{
    u64::from(entry.address) + u64::from(entry.size)
}

fn covers(entry: &Entry, address: u16) -> bool
    ensures { result ≡ entry_covers entry.now address }
{
    entry.address <= address && u64::from(address) < reach_of(entry)
}

// The last of the entries that covers the address.
fn covering_in<'a>(entries: &[Entry], pool: &'a [u8], address: u16) -> Option<Given<'a>>
    requires names { AreNames (map (entry_seen pool.now) entries.now) }
    requires pool { IsPool pool.now entries.now }
    ensures { option_map given_seen result ≡ covering (map (entry_seen pool.entry.now) entries.now) address }
{
    let mut left = count_upto(entries, address);
    'left: while 0 < left {
        if covers(&entries[left - 1], address) {
            return Some(given_at(entries, pool, left - 1));
        }
        left = rest_after(entries, left, address);
    }
    None
}

// How many entries have addresses up to this one.
fn count_upto(entries: &[Entry], address: u16) -> usize
    requires { IsNonDecreasingBy (λ (e : Entry). e.address) entries.now }
    ensures bound { result ≤ length entries.now }
    ensures rest { AreAbove entries.now result address }
{
    entries.partition_point(|entry| entry.address <= address)
}

// How many entries are still to be looked at after the last of these, which does not cover the address.
fn rest_after(entries: &[Entry], left: usize, address: u16) -> usize
    requires blocks { AreBlocks entries.now }
    requires some { 0 < left }
    requires within { left ≤ length entries.now }
    ensures below { result < left }
    ensures passed { ReachTo entries.now result (left - 1) address }
{
    if entries[left - 1].most <= u32::from(address) {
        block_start(left)
    } else {
        left - 1
    }
}
