//! What a command line asks for.

ghost use Rattle.std.specs.Prelude.{◌≡◌};
ghost use Rattle.usage65.specs.Requests.{Gives};
ghost use Rattle.usage65.specs.Words.{asked, asked_of, texts_seen};
ghost use Rattle.trace65.specs.Words.{TracingView, this_program, traced_in, tracing_of};

use crate::command::this_program;
use clap::ArgMatches;
use info65::Options;
use std::alloc::Global;
use usage65::{
    FromMatches, Request, RequestFault, address_of, addresses_of, cpu_of, info_named, is_set,
    is_taken, output_named, owned, text_of,
};

/// What is reached is to be written.
#[derive(Drop)]
pub struct Tracing {
    /// The options of da65 that say what the image is.
    pub options: Options,
    /// The addresses that are given as entries.
    pub entries: Vec<u16>,
    /// Whether no more than the entries are followed.
    pub plain: bool,
    /// Whether the information file is written first.
    pub whole: bool,
    /// The file that the text is written to; without one standard output.
    pub output: Option<String>,
}

/// What the words ask for. The first word is the program's name.
///
/// Each option and the name of the image may be given once. Help comes first, then the version, both
/// before any value is looked at. Then the start, the CPU and the entries are read, in this order.
/// `Memory` is returned only if memory ran out.
#[tactic(auto, using(crate::proofs::CommandLemmas::app_is_plain))]
pub fn request_of(alloc: Global, words: &[String]) -> Result<Request<Tracing>, RequestFault>
    /// For all words the request is that of the definition. It says which options there are, and takes help and
    /// version before any value, then the start, the CPU, the entries, `--plain` and `--whole`. It refuses standard
    /// input as both image and information file, after any fault of a value. The first refusal in this order
    /// counts; or out of memory.
    ensures { Gives (asked_of tracing_of) result
        (asked this_program traced_in (texts_seen words.now)) }
{
    this_program().request(alloc, words)
}

impl FromMatches for Tracing {
    ghost Seen = { TracingView };

    ghost seen = { tracing_of };

    ghost from_rows = { traced_in };

    /// The image that is to be traced.
    #[tactic(auto, unfolding(crate::specs::Request::traced_in))]
    fn from_matches(alloc: Global, matches: &ArgMatches) -> Result<Tracing, RequestFault> {
        let start = address_of(matches, "start")?;
        let cpu = cpu_of(matches, "cpu")?;
        let entries = addresses_of(alloc, matches, "entry")?;
        let info = info_named(text_of(matches, "info"));
        let image = info_named(text_of(matches, "image"));
        if let Some(image) = image
            && is_taken(info, image)
        {
            return Err(RequestFault::StandardTwice);
        }
        let mut options = Options::none();
        options.info = owned(alloc, info)?;
        options.input = owned(alloc, image)?;
        options.start = start;
        options.cpu = cpu;
        Ok(Tracing {
            options,
            entries,
            plain: is_set(matches, "plain"),
            whole: is_set(matches, "whole"),
            output: owned(alloc, output_named(text_of(matches, "output")))?,
        })
    }
}
