//! Words that lead on, each to the next one, as the links of a dictionary or of a list do.

use crate::ground::Ground;
use std::alloc::{AllocError, Global};

/// How many words lead on at least.
const LEAST: u16 = 4;

/// How far apart a word and the one to which it leads stand at most.
pub const FAR: u16 = 256;

/// How far apart they stand at least.
const NEAR: u16 = 3;

/// A word that leads to data near it: where it stands, where it leads, and how many words lead on from it, this one
/// counted.
#[derive(Clone, Copy)]
struct Link {
    at: u16,
    to: u16,
    count: u16,
}

/// The link that begins at the address.
fn link_at(links: &[Link], at: u16) -> Option<Link> {
    let place = links.binary_search_by_key(&at, |link| link.at).ok()?;
    links.get(place).copied()
}

/// Counts how many words lead on from the link at the index. Those behind it in its direction are counted.
fn count_at(links: &mut [Link], index: usize) {
    let Some(link) = links.get(index).copied() else {
        return;
    };
    let more = match link_at(links, link.to) {
        Some(next) => next.count,
        None => 0,
    };
    if let Some(it) = links.get_mut(index) {
        it.count = more.saturating_add(1);
    }
}

/// Marks the links that stand one behind the other from this one on.
fn put_links(ground: &mut Ground<'_>, links: &[Link], first: Link) {
    let mut link = first;
    for _ in 0..links.len() {
        let at = usize::from(link.at);
        if ground.word(at).is_none() {
            break;
        }
        ground.put_words(0, at, at.saturating_add(2));
        match link_at(links, link.to) {
            Some(next) => link = next,
            None => break,
        }
    }
}

/// The words among these that lead to data that nothing speaks for, at least three bytes away: `back` those that lead
/// to lower addresses, else those that lead to higher ones.
fn links_of(
    alloc: Global,
    ground: &Ground<'_>,
    near: &[u16],
    back: bool,
) -> Result<Vec<Link>, AllocError> {
    let mut found = Vec::new(alloc);
    for &at in near {
        if let Some(to) = ground.word(usize::from(at))
            && NEAR <= to.abs_diff(at)
            && (to < at) == back
            && ground.is_plain(usize::from(to))
        {
            found.push(Link { at, to, count: 0 })?;
        }
    }
    Ok(found)
}

/// Marks the words of data that lead on in one direction, each to the next one, which is 3 to 256 bytes away, if there
/// are four of them at least. `near` has where words begin that lead to at most 256 bytes from there, in order.
pub fn mark_links(alloc: Global, ground: &mut Ground<'_>, near: &[u16]) -> Result<(), AllocError> {
    for back in [true, false] {
        let mut links = links_of(alloc, ground, near, back)?;
        let count = links.len();
        for step in 0..count {
            let index = if back {
                step
            } else {
                count.saturating_sub(step).saturating_sub(1)
            };
            count_at(links.as_mut_slice(), index);
        }
        for &link in links.as_slice() {
            if LEAST <= link.count {
                put_links(ground, links.as_slice(), link);
            }
        }
    }
    Ok(())
}
