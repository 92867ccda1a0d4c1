//! A byte of both runs, and where in the image it comes from.

use run65::{Operation, Value};

/// The most places that a value is known to come from.
const MOST: usize = 6;

/// Places of the image, in order, each once. Of more than fit there are `MOST` + 1, of which none is known.
#[derive(Clone, Copy, PartialEq, Eq)]
pub struct Places {
    count: u8,
    at: [u16; MOST],
}

impl Places {
    pub const NONE: Places = Places {
        count: 0,
        at: [0; MOST],
    };

    pub fn one(place: u16) -> Places {
        Places {
            count: 1,
            at: [place, 0, 0, 0, 0, 0],
        }
    }

    /// The places, if they are known.
    pub fn as_slice(&self) -> &[u16] {
        self.at.get(..usize::from(self.count)).unwrap_or(&[])
    }

    /// These places and those.
    pub fn with(self, other: Places) -> Places {
        if self.count == 0 || MOST < usize::from(other.count) {
            return other;
        }
        let mut both = self;
        for &place in other.as_slice() {
            if both.as_slice().contains(&place) {
                continue;
            }
            let count = usize::from(both.count);
            let Some(free) = both.at.get_mut(count) else {
                return Places {
                    count: (MOST + 1) as u8,
                    ..Places::NONE
                };
            };
            *free = place;
            both.count = both.count.saturating_add(1);
        }
        both
    }
}

/// A byte of both runs: where the image belongs, and in the image that lies later.
#[derive(Clone, Copy)]
pub struct Pair {
    pub here: u8,
    pub later: u8,
    /// Whether it comes from the image, or from an address of the code.
    pub is_known: bool,
    /// Whether something comes into it that nobody knows.
    pub is_mixed: bool,
    /// The places of the image that it comes from.
    pub places: Places,
}

impl Pair {
    /// Bytes that come from these places of the image, or from an address of the code.
    pub fn known(here: u8, later: u8, places: Places) -> Pair {
        Pair {
            here,
            later,
            is_known: true,
            is_mixed: false,
            places,
        }
    }

    /// These bytes, which come from another one too.
    pub fn with_origin(self, other: Pair) -> Pair {
        Pair {
            is_known: self.is_known || other.is_known,
            is_mixed: self.is_mixed || other.is_mixed,
            places: self.places.with(other.places),
            ..self
        }
    }
}

impl Value for Pair {
    fn of(byte: u8) -> Pair {
        Pair {
            is_known: false,
            ..Pair::known(byte, byte, Places::NONE)
        }
    }

    fn byte(self) -> u8 {
        self.here
    }

    #[inline(always)]
    fn apply(operation: Operation, a: Pair, b: Pair, c: Pair) -> Pair {
        let both = Pair {
            here: operation.result(a.here, b.here, c.here),
            later: operation.result(a.later, b.later, c.later),
            ..a.with_origin(b)
        };
        match operation {
            Operation::SumCarry | Operation::DecimalCarry => both.with_origin(c),
            _ => both,
        }
    }

    #[inline(always)]
    fn alone(self, operation: Operation) -> Pair {
        Pair {
            here: operation.result(self.here, self.here, self.here),
            later: operation.result(self.later, self.later, self.later),
            ..self
        }
    }
}
