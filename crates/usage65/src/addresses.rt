//! The addresses of an option, with commas between them.

ghost use Rattle.std.specs.Prelude.{◌≡◌, IfOk, map, vec_items};
ghost use Rattle.clap.specs.Words.{first_of, found_of, rows_of};
ghost use Rattle.usage65.specs.Values.{Gives};
ghost use Rattle.usage65.specs.Words.{addresses_between, addresses_given, addresses_in, parts_of};

use crate::fault::UsageFault;
use crate::number::address_in;
use crate::value::text_of;
use clap::ArgMatches;
use std::alloc::{AllocError, Global};

/// The texts between the commas of a text.
fn parts_of(alloc: Global, text: &str) -> Result<Vec<&str>, AllocError>
    ensures { IfOk result (λ parts. map (λ part. part.now) parts.items ≡ parts_of text.now) }
{
    text.split(',').collect(alloc)
}

/// The addresses of these texts.
fn addresses_in(alloc: Global, texts: &[&str]) -> Result<Vec<u16>, UsageFault>
    ensures { Gives vec_items result (addresses_in (map (λ text. text.now) texts.now)) }
{
    let mut found = Vec::new(alloc);
    'texts: for text in texts {
        found.push(address_in(text.as_bytes())?)?;
    }
    Ok(found)
}

/// The addresses of a text, with commas between them.
#[tactic(auto, unfolding(crate::specs::Addresses::addresses_between))]
fn addresses_between(alloc: Global, text: &str) -> Result<Vec<u16>, UsageFault>
    ensures { Gives vec_items result (addresses_between text.now) }
{
    addresses_in(alloc, &parts_of(alloc, text)?)
}

/// Returns the addresses that an option has, with commas between them; none if it is not given. Fails as
/// `address_in` does for the first that is none.
pub fn addresses_of(alloc: Global, matches: &ArgMatches, id: &str) -> Result<Vec<u16>, UsageFault>
    /// Returns the addresses of an option, with commas between them, in order; none if it is not given. Fails as for
    /// one address, for the first that is none; or out of memory.
    ensures { Gives vec_items result
        (addresses_given (first_of id.now (rows_of (found_of matches.now)))) }
{
    match text_of(matches, id) {
        Some(text) => addresses_between(alloc, text),
        None => Ok(Vec::new(alloc)),
    }
}
