//! What a command line asks for.

ghost use Rattle.std.specs.Prelude.{◌≡◌, map};
ghost use Rattle.std.specs.String.{string_bytes};
ghost use Rattle.usage65.specs.Requests.{Gives};
ghost use Rattle.usage65.specs.Words.{asked, asked_of};
ghost use Rattle.as65.specs.Words.{WorkView, given_of, is_compare_word, is_comparing, this_program, to_compare, to_write, work_in, work_of};

use crate::command::this_program;
use clap::ArgMatches;
use std::alloc::Global;
use std::env::{Env, FillError};
use usage65::{
    FileNames, FromMatches, Request, RequestFault, UsageFault, address_of, byte_of, info_named,
    input_named, is_set, is_taken, names_apart, output_named, text_of,
};

/// The length of `--compare=`, which is the longest that is looked for in a word.
const LONGEST: usize = 10;

/// What is to be done with a listing.
#[derive(Drop)]
pub enum Work {
    Write(Writing),
    Compare(Comparing),
}

/// What says where the bytes of a listing belong.
#[derive(Clone, Copy)]
pub struct Placement {
    /// The address of the first byte; without one the information file says where it is, or the image ends at $FFFF.
    pub start: Option<u16>,
    /// The byte between segments that begin at their START; without one the segments move nothing.
    pub fill: Option<u8>,
    /// Whether each label `LXXXX` has to be at $XXXX.
    pub in_place: bool,
}

/// The bytes of a listing are to be written, or its names.
#[derive(Drop)]
pub struct Writing {
    pub names: FileNames,
    pub place: Placement,
    /// Whether the names are to be written in their place.
    pub labels: bool,
}

/// A listing is to be compared with an image. The output is standard output.
#[derive(Drop)]
pub struct Comparing {
    pub names: FileNames,
    pub place: Placement,
    pub image: String,
}

/// What is given for both.
#[derive(Clone, Copy)]
struct Given<'a> {
    listing: &'a str,
    info: Option<&'a str>,
    output: Option<&'a str>,
    place: Placement,
    labels: bool,
}

/// Whether a comparison is asked for, however well: trouble then has a status of its own.
pub fn is_comparing(words: &[String]) -> bool
    /// Returns whether a comparison is asked for; the status of trouble depends on it.
    ensures { result ≡ is_comparing words.now }
{
    words
        .iter()
        .skip(1)
        .take_while(|word| word.as_str() != "--")
        .any(|word| is_compare_word(word.as_str().as_bytes()))
}

fn is_compare_word(word: &[u8]) -> bool
    ensures { result ≡ is_compare_word word.now }
{
    word == b"--compare".as_slice() || word.starts_with(b"--compare=")
}

/// Whether the words of the process ask for a comparison. Only their first bytes are looked at, so that it takes no
/// memory. No contract can say what these words are.
pub fn is_compared_by<E: Env>(process: &E) -> bool {
    let mut word = [0u8; LONGEST];
    for at in 1..usize::MAX {
        let len = match process.arg(at, &mut word) {
            Ok(len) => len,
            // Its first bytes are there.
            Err(FillError::TooLong) => LONGEST,
            Err(FillError::NotPresent) => return false,
        };
        if &word[..len] == b"--".as_slice() {
            return false;
        }
        if is_compare_word(&word[..len]) {
            return true;
        }
    }
    false
}

/// What the words ask for. The first word is the program's name.
///
/// Each option and the name of the listing may be given once. Help comes first, then the version, both before
/// any value is looked at. Then the values are read. No output, `--in-place` or `--labels` may stand beside an image;
/// without one `--labels` may not stand beside `--in-place`, and there must be a start. Standard input can be one of
/// the inputs alone, and the output may not have the name of one.
#[tactic(auto, using(crate::proofs::CommandLemmas::app_is_plain))]
pub fn request_of(alloc: Global, words: &[String]) -> Result<Request<Work>, RequestFault>
    /// For all words the request is that of the definition. It says which options there are, and takes help and
    /// version before any value, then the start and the byte of `--fill`. A comparison takes no output, `--in-place`
    /// or `--labels`, and then no image that is standard input beside another input that is. Without a comparison
    /// `--labels` may not stand beside `--in-place`, and then there has to be a start or an information file. Last,
    /// the listing and the information file may not both be standard input, and then the output may have the name
    /// of neither. The first refusal in this order counts; or out of memory.
    ensures { Gives (asked_of work_of) result
        (asked this_program work_in (map string_bytes words.now)) }
{
    this_program().request(alloc, words)
}

impl FromMatches for Work {
    ghost Seen = { WorkView };

    ghost seen = { work_of };

    ghost from_rows = { work_in };

    /// The work that the matches ask for.
    #[tactic(auto, unfolding(crate::specs::Request::work_in))]
    fn from_matches(alloc: Global, matches: &ArgMatches) -> Result<Work, RequestFault> {
        let start = address_of(matches, "start")?;
        let fill = byte_of(matches, "fill")?;
        let in_place = is_set(matches, "in-place");
        let given = Given {
            listing: input_named(text_of(matches, "listing")),
            info: info_named(text_of(matches, "info")),
            output: output_named(text_of(matches, "output")),
            place: Placement {
                start,
                fill,
                in_place,
            },
            labels: is_set(matches, "labels"),
        };
        match text_of(matches, "compare") {
            Some(image) => to_compare(alloc, given, input_named(Some(image))),
            None => to_write(alloc, given),
        }
    }
}

/// The bytes of a listing are to be written: there is a start, or an information file that may have one.
#[tactic(auto, unfolding(crate::specs::Request::to_write))]
fn to_write(alloc: Global, given: Given<'_>) -> Result<Work, RequestFault>
    ensures { Gives work_of result (to_write (given_of given.entry)) }
{
    if given.place.in_place && given.labels {
        return Err(RequestFault::Usage(UsageFault::Words));
    }
    if !(given.place.start.is_some() || given.info.is_some()) {
        return Err(RequestFault::NoStart);
    }
    let names = names_apart(alloc, given.listing, given.info, given.output)?;
    let place = given.place;
    let labels = given.labels;
    Ok(Work::Write(Writing {
        names,
        place,
        labels,
    }))
}

/// A listing is to be compared with an image, without another output or names; labels may be anywhere. Standard
/// input can be only one of the inputs.
#[tactic(auto, unfolding(crate::specs::Request::to_compare))]
fn to_compare(alloc: Global, given: Given<'_>, image: &str) -> Result<Work, RequestFault>
    ensures { Gives work_of result (to_compare (given_of given.entry) image.now) }
{
    if given.output.is_some() || given.place.in_place || given.labels {
        return Err(RequestFault::Usage(UsageFault::Words));
    }
    if is_taken(Some(given.listing), image) || is_taken(given.info, image) {
        return Err(RequestFault::StandardTwice);
    }
    let names = names_apart(alloc, given.listing, given.info, None)?;
    let image = String::from_str(alloc, image)?;
    Ok(Work::Compare(Comparing {
        names,
        place: given.place,
        image,
    }))
}
