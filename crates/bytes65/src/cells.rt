//! Words of data that a loop of reached code copies to the zero page, where code reads or writes through them.

use crate::copies::{Move, len_of};
use crate::ground::Ground;
use crate::survey::Survey;
use isa65::Mode;
use map65::{Marks, is_inside};
use reach65::image::ends;
use std::alloc::AllocError;

/// How many such words are told.
const TOLD: usize = 64;

/// The end of the zero page.
const PAGE: u16 = 0x100;

/// A word that is copied to a pointer: where it stands, the address that it is, the pointer, and which instruction
/// loads it.
#[derive(Clone, Copy)]
pub struct Cell {
    pub place: u16,
    pub address: u16,
    pub pointer: u16,
    pub reader: u16,
}

/// Marks of the pointers in the zero page through which reached code reads or writes.
fn pointers_of(survey: &Survey<'_>) -> Result<Marks, AllocError> {
    let mut pointers = Marks::none(survey.steps.alloc())?;
    let (start, end) = ends(survey.steps.image());
    for at in start..end {
        if let Some(placed) = survey.steps.marked(survey.reached, at as u16)
            && matches!(placed.step.op.mode, Mode::Indx | Mode::Indy | Mode::Zpind)
            && let Some(pointer) = placed.step.byte
        {
            pointers.set(u16::from(pointer));
        }
    }
    Ok(pointers)
}

/// Returns the words that nothing speaks for and that a loop copies to pointers, if they are addresses of the image
/// that no code has, or where a routine begins.
pub fn cells_of(ground: &Ground<'_>, survey: &Survey<'_>) -> Result<Vec<Cell>, AllocError> {
    let steps = survey.steps;
    let mut found = Vec::new(steps.alloc());
    let mut pointers = None;
    for &Move { load, from, to } in &survey.moves {
        if PAGE <= to {
            continue;
        }
        if pointers.is_none() {
            pointers = Some(pointers_of(survey)?);
        }
        for offset in 0..len_of(survey, load).min(PAGE - to) {
            let (place, pointer) = (from.saturating_add(offset), to.saturating_add(offset));
            if found.len() < TOLD
                && let Some(pointers) = &pointers
                && pointers.get(pointer)
                && let Some(address) = ground.word(usize::from(place))
                && is_inside(ground.image, usize::from(address))
                && survey.is_likely(address)
            {
                found.push(Cell {
                    place,
                    address,
                    pointer,
                    reader: load.at,
                })?;
            }
        }
    }
    Ok(found)
}
