//! What a command line asks for.

ghost use Rattle.std.specs.Prelude.{◌≡◌, map, unwrap_or};
ghost use Rattle.std.specs.String.{string_bytes};
ghost use Rattle.usage65.specs.Requests.{Gives};
ghost use Rattle.usage65.specs.Words.{asked, asked_of};
ghost use Rattle.move65.specs.Command.{this_program};
ghost use Rattle.move65.specs.Request.{MovingView, moving_in, moving_of};

use crate::command::this_program;
use crate::runs::LONG;
use clap::ArgMatches;
use info65::Options;
use std::alloc::Global;
use usage65::{
    FileNames, FromMatches, Request, RequestFault, UsageFault, address_of, addresses_of, cpu_of,
    info_named, input_named, names_apart, output_named, text_of,
};

/// A listing is to be run here and later.
#[derive(Drop)]
pub struct Moving {
    pub names: FileNames,
    /// The options of da65 that say where the first byte belongs and which CPU runs.
    pub options: Options,
    /// Where code begins.
    pub entries: Vec<u16>,
    /// How much later the second image lies.
    pub by: u16,
    /// How many instructions a run has, at most.
    pub steps: u32,
}

/// How much later the second image lies, if nothing else is asked for: each half of an address is another one then.
const BY: u16 = 257;

/// What the words ask for. The first word is the program's name. Help comes first, then the
/// version, both before any value is looked at.
#[tactic(auto, using(crate::proofs::CommandLemmas::app_is_plain))]
pub fn request_of(alloc: Global, words: &[String]) -> Result<Request<Moving>, RequestFault>
    /// For all words the request is that of the definition. It says which options there are, and takes help and
    /// version before any value, then the start, the CPU, the entries, `--by` and `--steps`. It refuses a distance or
    /// a number of instructions that is 0, then standard input given twice, and an output with the name of an input.
    /// The first refusal in this order counts; or out of memory.
    ensures { Gives (asked_of moving_of) result
        (asked this_program moving_in (map string_bytes words.now)) }
{
    this_program().request(alloc, words)
}

/// How many instructions a run has, at most, by the option for it.
fn steps_of(given: Option<u16>) -> u32
    ensures { result ≡ unwrap_or given LONG }
{
    match given {
        Some(steps) => u32::from(steps),
        None => LONG,
    }
}

impl FromMatches for Moving {
    ghost Seen = { MovingView };

    ghost seen = { moving_of };

    ghost from_rows = { moving_in };

    /// The run that the matches ask for.
    #[tactic(auto, unfolding(crate::specs::Request::moving_in))]
    fn from_matches(alloc: Global, matches: &ArgMatches) -> Result<Moving, RequestFault> {
        let mut options = Options::none();
        options.start = address_of(matches, "start")?;
        options.cpu = cpu_of(matches, "cpu")?;
        let entries = addresses_of(alloc, matches, "entry")?;
        let by = address_of(matches, "by")?.unwrap_or(BY);
        let steps = steps_of(address_of(matches, "steps")?);
        if by == 0 || steps == 0 {
            return Err(RequestFault::Usage(UsageFault::OutOfRange));
        }
        let listing = input_named(text_of(matches, "listing"));
        let info = info_named(text_of(matches, "info"));
        let output = output_named(text_of(matches, "output"));
        let names = names_apart(alloc, listing, info, output)?;
        Ok(Moving {
            names,
            options,
            entries,
            by,
            steps,
        })
    }
}
