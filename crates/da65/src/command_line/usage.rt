//! The options of a command line, and their values.

ghost use Rattle.std.specs.Prelude.{IfOk, IfSome, map, ◌≡◌, ◌≤◌};
ghost use Rattle.std.specs.String.{string_bytes};
ghost use Rattle.clap.specs.Words.{first_of, found_of, rows_of};
ghost use Rattle.usage65.specs.Words.{decimal_in, given};
ghost use Rattle.usage65.specs.Values.{Gives};
ghost use Rattle.da65.specs.Words.{IsLayout, layout_in, options_in, usage_of};

use crate::command_line::command::this_program;
use clap::ArgMatches;
use info65::Options;
use std::alloc::Global;
use usage65::{UsageFault, address_of, cpu_of, decimal_in, is_set, owned, text_of};

/// Returns the options of a command line. The first word is the program's name.
///
/// Each option and the input name may be given once. Fails with `Words` if a word fits no option, an option
/// is given twice or a value is missing; else with the first fault of a value, in the order of the help text:
/// `BadNumber` if it is not a number, `OutOfRange` if the number is outside its limits or the CPU is unknown.
/// Help and version are options like the others: the other words are checked beside them. `Memory` is
/// returned only if memory ran out.
#[tactic(auto, unfolding(crate::specs::Usage::usage_of), using(crate::proofs::CommandLemmas::app_is_plain))]
pub fn options_of(alloc: Global, words: &[String]) -> Result<Options, UsageFault>
    /// Returns the options of clap's matches. Fails with Words if clap rejects the command line, otherwise with the
    /// first fault of the start address, the CPU, the comment level, the columns and the label break; or out of
    /// memory.
    ensures { Gives (λ o. o) result (usage_of (map string_bytes words.now)) }
{
    let matches = this_program().matches(alloc, words)?;
    options_in(alloc, &matches)
}

/// What the options say of a listing's layout.
#[derive(Clone, Copy)]
struct Layout {
    comments: Option<u8>,
    mnemonic_column: Option<u8>,
    argument_column: Option<u8>,
    comment_column: Option<u8>,
    text_column: Option<u8>,
    label_break: Option<u8>,
}

/// What the matches say of a listing's layout, in the order of the option table.
#[tactic(auto, unfolding(crate::specs::Usage::layout_in))]
fn layout_in(matches: &ArgMatches) -> Result<Layout, UsageFault>
    ensures value { result ≡ layout_in (rows_of (found_of matches.now)) }
    ensures limits { IfOk result IsLayout }
{
    let comments = number_of(matches, "comments", 0, 4)?;
    let mnemonic_column = number_of(matches, "mnemonic-column", 1, 120)?;
    let argument_column = number_of(matches, "argument-column", 1, 120)?;
    let comment_column = number_of(matches, "comment-column", 1, 120)?;
    let text_column = number_of(matches, "text-column", 1, 120)?;
    let label_break = number_of(matches, "label-break", 0, 120)?;
    Ok(Layout {
        comments,
        mnemonic_column,
        argument_column,
        comment_column,
        text_column,
        label_break,
    })
}

/// The options of the matches. Those that can be refused come first, in the order of the option table.
#[tactic(auto, unfolding(crate::specs::Usage::options_in))]
fn options_in(alloc: Global, matches: &ArgMatches) -> Result<Options, UsageFault>
    ensures { Gives (λ o. o) result (options_in (rows_of (found_of matches.now))) }
{
    let start = address_of(matches, "start")?;
    let cpu = cpu_of(matches, "cpu")?;
    let layout = layout_in(matches)?;
    let info = owned(alloc, text_of(matches, "info"))?;
    let input = owned(alloc, text_of(matches, "input"))?;
    let output = owned(alloc, text_of(matches, "output"))?;
    let hexoffs = is_set(matches, "hexoffs");
    let help = is_set(matches, "help");
    let version = is_set(matches, "version");
    Ok(Options {
        info,
        input,
        output,
        start,
        cpu,
        comments: layout.comments,
        mnemonic_column: layout.mnemonic_column,
        argument_column: layout.argument_column,
        comment_column: layout.comment_column,
        text_column: layout.text_column,
        label_break: layout.label_break,
        hexoffs,
        help,
        version,
    })
}

/// The number of an option, from `least` to `most`.
fn number_of(matches: &ArgMatches, id: &str, least: u8, most: u8) -> Result<Option<u8>, UsageFault>
    ensures value { result ≡ given (decimal_in least most) (first_of id.now (rows_of (found_of matches.now))) }
    ensures low { IfOk result (λ o. IfSome o (λ n. least ≤ n)) }
    ensures high { IfOk result (λ o. IfSome o (λ n. n ≤ most)) }
{
    match text_of(matches, id) {
        Some(text) => Ok(Some(decimal_in(text.as_bytes(), least, most)?)),
        None => Ok(None),
    }
}
