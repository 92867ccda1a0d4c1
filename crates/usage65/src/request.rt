//! What a command line asks for.

ghost use Rattle.std.specs.Prelude.{List, Result};
ghost use Rattle.clap.specs.Words.{Row, found_of, rows_of};
ghost use Rattle.usage65.specs.Requests.{Gives};
ghost use Rattle.usage65.specs.Words.{Refusal};

use crate::request_fault::RequestFault;
use clap::ArgMatches;
use std::alloc::Global;

/// What a command line asks for: a text about the program, or a run of it.
#[derive(Drop)]
pub enum Request<T> {
    /// The help text or the version.
    Text(Vec<u8>),
    Run(T),
}

/// What a program runs on, from the matches of its command line.
pub trait FromMatches: Sized {
    /// What the definitions see of it.
    ghost Seen: { Type 0 };
    /// As that.
    ghost seen: { Self → Seen };
    /// What the program's definition makes of the rows of the matches: that, or the first refusal.
    ghost from_rows: { List Row → Result Seen Refusal };

    /// What the matches ask for.
    fn from_matches(alloc: Global, matches: &ArgMatches) -> Result<Self, RequestFault>
        /// What is made of the matches is what the program's definition makes of their rows, or the first refusal of
        /// that; or out of memory.
        ensures { Gives seen result (from_rows (rows_of (found_of matches.now))) };
}
