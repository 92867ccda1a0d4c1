//! Values by addresses.

use std::alloc::{AllocError, Global};

/// At most one value for each address. It has a place for each address up to the page of the last one that has a
/// value, so a look takes no search.
#[derive(Drop)]
pub struct ByAddress<T: Copy> {
    /// For each address which of the values it has, from 1; 0 stands for none.
    places: Vec<usize>,
    values: Vec<T>,
}

impl<T: Copy> ByAddress<T> {
    /// No values.
    pub fn none(alloc: Global) -> ByAddress<T> {
        ByAddress {
            places: Vec::new(alloc),
            values: Vec::new(alloc),
        }
    }

    /// The value of an address.
    pub fn get(&self, address: u64) -> Option<T> {
        let place = *self.places.get(address as usize)?;
        self.values.get(place.checked_sub(1)?).copied()
    }

    /// Whether an address has a value.
    pub fn has(&self, address: u64) -> bool {
        matches!(self.places.get(address as usize), Some(&place) if place != 0)
    }

    /// Gives an address a value in the place of any that it had. A page has 256 addresses.
    pub fn put(&mut self, address: u16, value: T) -> Result<(), AllocError> {
        let count = (usize::from(address / 256) + 1) * 256;
        if self.places.len() < count {
            self.places.resize(count, 0)?;
        }
        self.values.push(value)?;
        if let Some(place) = self.places.get_mut(usize::from(address)) {
            *place = self.values.len();
        }
        Ok(())
    }
}
