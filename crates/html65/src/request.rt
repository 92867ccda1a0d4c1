//! What a command line asks for.

ghost use Rattle.std.specs.Prelude.{map};
ghost use Rattle.std.specs.String.{string_bytes};
ghost use Rattle.usage65.specs.Requests.{Gives};
ghost use Rattle.usage65.specs.Words.{asked, asked_of};
ghost use Rattle.html65.specs.Command.{this_program};
ghost use Rattle.html65.specs.Request.{ShowingView, shown_in, shown_of};

use crate::command::this_program;
use clap::ArgMatches;
use std::alloc::Global;
use usage65::{
    FileNames, FromMatches, Request, RequestFault, address_of, byte_of, info_named, input_named,
    names_apart, output_named, text_of,
};

/// A listing is to be written as a page.
#[derive(Drop)]
pub struct Showing {
    pub names: FileNames,
    /// The address of the first byte; without one the information file says where it is, or the last byte is at $FFFF.
    pub start: Option<u16>,
    /// The byte between segments that begin at their START; without one the segments move nothing.
    pub fill: Option<u8>,
}

/// What the words ask for. The first word is the program's name.
///
/// Each option and the name of the listing may be given once. Help comes first, then the version, both
/// before any value is read. Standard input may not be both the listing and the information file, nor may the
/// output have the name of an input.
#[tactic(auto, using(crate::proofs::CommandLemmas::app_is_plain))]
pub fn request_of(alloc: Global, words: &[String]) -> Result<Request<Showing>, RequestFault>
    /// For all words the request is that of the definition. It says which options there are, and takes help and
    /// version before the start, and the start before the byte of `--fill`. It refuses standard input given twice,
    /// and an output with the name of an input. The first refusal in this order counts; or out of memory.
    ensures { Gives (asked_of shown_of) result
        (asked this_program shown_in (map string_bytes words.now)) }
{
    this_program().request(alloc, words)
}

impl FromMatches for Showing {
    ghost Seen = { ShowingView };

    ghost seen = { shown_of };

    ghost from_rows = { shown_in };

    /// The page that the matches ask for.
    #[tactic(auto, unfolding(crate::specs::Request::shown_in))]
    fn from_matches(alloc: Global, matches: &ArgMatches) -> Result<Showing, RequestFault> {
        let start = address_of(matches, "start")?;
        let fill = byte_of(matches, "fill")?;
        let listing = input_named(text_of(matches, "listing"));
        let info = info_named(text_of(matches, "info"));
        let output = output_named(text_of(matches, "output"));
        let names = names_apart(alloc, listing, info, output)?;
        Ok(Showing { names, start, fill })
    }
}
