//! What keeps bytes from being code: where reading cannot go on that looks like code up to there.

use crate::Steps;
use crate::search::Search;
use crate::sound::begins;
use isa65::Mnemonic;
use std::alloc::AllocError;
use std::cmp::Reverse;

/// How many bytes have to be read as code before.
const LEAST: usize = 16;

/// How many obstacles are told.
const MOST: usize = 3;

/// An address where code cannot go on, and how many bytes read as code before the longest way came there.
#[derive(Clone, Copy)]
pub struct Obstacle {
    pub address: u16,
    pub bytes: usize,
}

/// Returns where code cannot go on, of an instruction at the address that is not fine:
/// there, behind it, or where it leads.
pub fn obstacle_of(steps: &Steps<'_>, address: u16) -> u16 {
    let Some(step) = steps.at(address) else {
        return address;
    };
    if step.op.mnemonic == Mnemonic::Brk {
        return address;
    }
    for lead in [step.next, step.goal] {
        if let Some(to) = lead
            && !begins(steps, lead)
        {
            return to;
        }
    }
    address
}

/// Returns those of the obstacles of a search that keep the most bytes from being code, three at most, from the worst
/// on.
pub fn worst_of(search: &Search<'_>) -> Result<Vec<Obstacle>, AllocError> {
    let alloc = search.steps.alloc();
    let mut sorted = Vec::from_slice(alloc, &search.obstacles)?;
    sorted.sort_by_key(|obstacle| (Reverse(obstacle.bytes), obstacle.address))?;
    let mut found: Vec<Obstacle> = Vec::new(alloc);
    for &obstacle in &sorted {
        let is_new = !found.iter().any(|other| other.address == obstacle.address);
        if found.len() < MOST && LEAST <= obstacle.bytes && is_new {
            found.push(obstacle)?;
        }
    }
    Ok(found)
}
