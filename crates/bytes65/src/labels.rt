//! The addresses that get labels with default names.

use crate::bases::Base;
use crate::survey::Survey;
use entries65::Steps;
use entries65::declared::words_in;
use entries65::pairs::Pair;
use entries65::readers::Split;
use info65::TagKind;
use map65::{Map, is_skip};
use std::alloc::AllocError;

/// The addresses of groups ENTRY, in order.
fn entries_of(steps: &Steps<'_>) -> Result<Vec<u16>, AllocError> {
    let mut entries = Vec::new(steps.alloc());
    for tag in steps.tags() {
        if let (TagKind::Entry, Some(address)) = (tag.kind, tag.address) {
            entries.push(address)?;
        }
    }
    entries.sort()?;
    Ok(entries)
}

/// How much less than the one that is meant an address of a group HALVES is: one, if a routine begins after it and no
/// instruction at the address itself, since `rts` goes on after the address that it takes.
fn less(survey: &Survey<'_>, address: u16) -> u16 {
    let next = usize::from(address).saturating_add(1);
    u16::from(survey.is_routine(next) && !survey.reached.get(address))
}

/// What has addresses that may get labels.
#[derive(Clone, Copy)]
pub struct Addressed<'a> {
    pub pairs: &'a [Pair],
    pub variables: &'a [u16],
    pub bases: &'a [Base],
    /// The tables of halves, and the halves of the information file.
    pub tables: [&'a [Split]; 2],
}

/// The addresses that get labels unless names cover them.
#[derive(Drop)]
struct Labels<'a> {
    map: &'a Map<'a>,
    /// Those of groups ENTRY, in order.
    entries: Vec<u16>,
    found: Vec<u16>,
}

impl Labels<'_> {
    /// Whether the name of the next address moves with this one: a constant line does not move with a byte of the
    /// image.
    fn moves_with_next(&self, address: u16) -> bool {
        match self.map.role(address.saturating_add(1)) {
            Some(role) => !is_skip(role),
            None => self.map.role(address).is_none(),
        }
    }

    /// Adds the label for an address in halves, which is so much less than the one that is meant: of that; or its own,
    /// unless it is rather the address of the next name less one. A group ENTRY gets a name for that.
    fn put(&mut self, address: u16, less: u16) -> Result<(), AllocError> {
        let info = self.map.info();
        let next = address.saturating_add(1);
        let is_before = less == 1 || self.entries.binary_search(&next).is_ok();
        let label = if is_before && self.moves_with_next(address) {
            next
        } else if info.covering(next).is_some() && self.moves_with_next(address) {
            return Ok(());
        } else {
            address
        };
        if less == 1 || info.covering(address).is_none() {
            self.found.push(label)?;
        }
        Ok(())
    }

    /// Adds what groups HALVES and BASE give by themselves.
    fn put_tags(&mut self, survey: &Survey<'_>) -> Result<(), AllocError> {
        for tag in survey.steps.tags() {
            match (tag.kind, tag.address, tag.first) {
                (TagKind::Halves, Some(address), _) => self.put(address, less(survey, address))?,
                (TagKind::Base, _, Some(table)) => self.found.push(table)?,
                _ => {}
            }
        }
        Ok(())
    }
}

/// Returns the addresses that get labels, in order: of the pairs and the variables, of the tables from which operands
/// are counted, in tables of halves, and those that groups HALVES and BASE give by themselves, but for those that a
/// name of the file covers, and those in halves that are rather the address of the next name less one.
pub fn labels_of(survey: &Survey<'_>, addressed: Addressed<'_>) -> Result<Vec<u16>, AllocError> {
    let steps = survey.steps;
    let mut labels = Labels {
        map: steps.map(),
        entries: entries_of(steps)?,
        found: Vec::from_slice(steps.alloc(), addressed.variables)?,
    };
    for base in addressed.bases {
        labels.found.push(base.table)?;
    }
    for splits in addressed.tables {
        for &(word, less) in &words_in(steps, splits)? {
            labels.put(word, less)?;
        }
    }
    for pair in addressed.pairs {
        labels.put(pair.address, pair.less)?;
    }
    labels.put_tags(survey)?;
    let Labels { mut found, .. } = labels;
    found.sort()?;
    found.dedup();
    let info = steps.map().info();
    found.retain(|address| info.covering(*address).is_none());
    Ok(found)
}
