//! The values in the matches of a command line.

ghost use Rattle.std.specs.Prelude.{IfOk, ◌≡◌};
ghost use Rattle.clap.specs.Words.{first_of, found_of, rows_of};
ghost use Rattle.info65.specs.Words.{name_seen};
ghost use Rattle.usage65.specs.Words.{address_in, byte_in, cpu_in, given, is_set, text_seen};

use crate::fault::UsageFault;
use crate::number::{address_in, byte_in};
use clap::ArgMatches;
use isa65::Cpu;
use std::alloc::{AllocError, Global};

/// Returns the text that a match has under this id.
#[tactic(auto, using(crate::proofs::MatchLemmas::read_rows))]
pub fn text_of<'a>(matches: &ArgMatches<'a>, id: &str) -> Option<&'a str>
    /// Returns the text that the matches have under an id.
    ensures { text_seen result ≡ first_of id.now (rows_of (found_of matches.now)) }
{
    matches.get_str(id)
}

/// Whether the flag of this id is given.
pub fn is_set(matches: &ArgMatches, id: &str) -> bool
    /// Returns whether a flag is given.
    ensures { result ≡ is_set id.now (rows_of (found_of matches.now)) }
{
    match text_of(matches, id) {
        Some(text) => text == "true",
        None => false,
    }
}

/// Returns a copy of a text, if there is one.
pub fn owned(alloc: Global, text: Option<&str>) -> Result<Option<String>, AllocError>
    /// Returns a copy of a text; or out of memory.
    ensures { IfOk result (λ copy. name_seen copy ≡ text_seen text.entry) }
{
    match text {
        Some(text) => Ok(Some(String::from_str(alloc, text)?)),
        None => Ok(None),
    }
}

/// Returns the address that an option has, if it is given. Fails as `address_in` does.
pub fn address_of(matches: &ArgMatches, id: &str) -> Result<Option<u16>, UsageFault>
    /// Returns the address of an option, if it is given. Fails if the value is not a number, or is above $FFFF.
    ensures { result ≡ given address_in (first_of id.now (rows_of (found_of matches.now))) }
{
    match text_of(matches, id) {
        Some(text) => Ok(Some(address_in(text.as_bytes())?)),
        None => Ok(None),
    }
}

/// Returns the byte that an option has, if it is given. Fails as `byte_in` does.
pub fn byte_of(matches: &ArgMatches, id: &str) -> Result<Option<u8>, UsageFault>
    /// Returns the byte of an option, if it is given. Fails if the value is not a number, or is above $FF.
    ensures { result ≡ given byte_in (first_of id.now (rows_of (found_of matches.now))) }
{
    match text_of(matches, id) {
        Some(text) => Ok(Some(byte_in(text.as_bytes())?)),
        None => Ok(None),
    }
}

/// Returns the CPU that an option names, if it is given. Fails with `OutOfRange` if there is none of this name.
pub fn cpu_of(matches: &ArgMatches, id: &str) -> Result<Option<Cpu>, UsageFault>
    /// Returns the CPU of an option, if it is given. Fails if the value is not a CPU.
    ensures { result ≡ given cpu_in (first_of id.now (rows_of (found_of matches.now))) }
{
    match text_of(matches, id) {
        Some(text) => Ok(Some(cpu_in(text)?)),
        None => Ok(None),
    }
}

fn cpu_in(text: &str) -> Result<Cpu, UsageFault>
    ensures { result ≡ cpu_in text.now }
{
    match Cpu::from_bytes(text.as_bytes()) {
        Some(cpu) => Ok(cpu),
        None => Err(UsageFault::OutOfRange),
    }
}
