//! A program's command line, as it is read and as the program describes it.

ghost use Rattle.std.specs.Prelude.{IfOk, OnOk, map, option_map, ◌≡◌, ◌++◌};
ghost use Rattle.std.specs.List.{flat_map};
ghost use Rattle.clap.specs.Words.{FailsBy, app_of, fault_of, found_of, matches_of, rows_of};
ghost use Rattle.usage65.specs.Requests.{Gives as Asks};
ghost use Rattle.usage65.specs.Words.{IsPlain, accepted, asked, asked_of, bare, choice_of, command_of, help_line, help_of, program_of, text_asked, texts_seen, version_of, with_choices};
ghost use Rattle.usage65.specs.Values.{Gives};

use crate::choice::Choice;
use crate::fault::UsageFault;
use crate::request::{FromMatches, Request};
use crate::request_fault::RequestFault;
use crate::value::is_set;
use clap::error::ErrorKind;
use clap::{Arg, ArgMatches, Command, Error};
use std::alloc::{AllocError, Global};

/// A program's command line.
#[derive(Clone, Copy, Debug)]
pub struct Program<'a> {
    pub name: &'a str,
    /// What the help text says before the options.
    pub usage: &'a str,
    /// The options, in the order of the help text.
    pub choices: &'a [Choice<'a>],
    /// The id of a name without an option, which may be left out.
    pub input: &'a str,
}

impl<'a> Program<'a> {
    /// Reads the words. The first word is the program's name. Fails with `Words` if a word fits no option, an option is
    /// given twice, or a value is missing. `Memory` is returned only if memory ran out.
    pub fn matches(&self, alloc: Global, words: &'a [String]) -> Result<ArgMatches<'a>, UsageFault>
        requires { IsPlain (command_of (program_of self.now)) }
        /// Returns clap's matches of the words, by the command of the table: its options in their order, and an
        /// optional name. Fails with Words if clap rejects the words; or out of memory.
        ensures { Gives (λ m. rows_of (found_of m)) result
            (accepted (command_of (program_of self.now)) (texts_seen words.entry.now)) }
    {
        accepted(self.command(alloc)?, words)
    }

    /// The command for `clap`, without `clap`'s own help and version.
    #[tactic(auto, unfolding(crate::specs::Command::command_of))]
    fn command(&self, alloc: Global) -> Result<Command<'a>, AllocError>
        ensures { IfOk result (λ c. app_of c ≡ command_of (program_of self.now)) }
    {
        let command = bare_command(alloc, self.name);
        with_choices(alloc, command, self.choices)?.arg(Arg::new(alloc, self.input))
    }

    /// Returns what `--help` prints: what stands before the options, and a line for each of them.
    #[tactic(auto, unfolding(crate::specs::Help::help_of))]
    pub fn help_text(&self, alloc: Global) -> Result<Vec<u8>, AllocError>
        /// The help text has a line for each option of the table, and no other; or out of memory.
        ensures { IfOk result (λ text. text.items ≡ help_of (program_of self.now)) }
    {
        let mut text = Vec::new(alloc);
        text.extend_from_slice(self.usage.as_bytes())?;
        text.extend_from_slice(b"\n")?;
        put_help_lines(alloc, &mut text, self.choices)?;
        Ok(text)
    }

    /// Returns what `--version` prints.
    #[tactic(auto, unfolding(crate::specs::Help::version_of))]
    pub fn version_text(&self, alloc: Global) -> Result<Vec<u8>, AllocError>
        /// The version is the name, ` profile 1` and a line feed; or out of memory.
        ensures { IfOk result (λ text. text.items ≡ version_of (program_of self.now)) }
    {
        let mut text = Vec::new(alloc);
        text.extend_from_slice(self.name.as_bytes())?;
        text.extend_from_slice(b" profile 1\n")?;
        Ok(text)
    }

    /// Returns the text about the program that these matches ask for, if they do: the help text before the version.
    #[tactic(auto, unfolding(crate::specs::Help::text_asked))]
    pub fn text_asked(
        &self,
        alloc: Global,
        matches: &ArgMatches,
    ) -> Result<Option<Vec<u8>>, AllocError>
        /// Returns the help text if that is asked for, else the version if that is, else nothing; or out of memory.
        ensures { IfOk result (λ text. option_map (λ t. t.items) text
            ≡ text_asked (program_of self.now) (rows_of (found_of matches.now))) }
    {
        if is_set(matches, "help") {
            return Ok(Some(self.help_text(alloc)?));
        }
        if is_set(matches, "version") {
            return Ok(Some(self.version_text(alloc)?));
        }
        Ok(None)
    }

    /// Returns what the words ask for. The first word is the program's name. Help comes first, then the version, both
    /// before any value is read.
    pub fn request<R: FromMatches>(
        &self,
        alloc: Global,
        words: &'a [String],
    ) -> Result<Request<R>, RequestFault>
        requires { IsPlain (command_of (program_of self.now)) }
        /// For all words the request is that of the definition, by the table of the options: the help text, else the
        /// version, else what the program's definition makes of the matches. The first refusal counts; or out of
        /// memory.
        ensures { Asks (asked_of R.seen) result
            (asked (program_of self.now) R.from_rows (texts_seen words.entry.now)) }
    {
        let matches = self.matches(alloc, words)?;
        match self.text_asked(alloc, &matches)? {
            Some(text) => Ok(Request::Text(text)),
            None => Ok(Request::Run(R::from_matches(alloc, &matches)?)),
        }
    }
}

fn bare_command(alloc: Global, name: &str) -> Command<'_>
    ensures { app_of result ≡ bare name.entry.now }
{
    Command::new(alloc, name)
        .disable_help_flag(true)
        .disable_version_flag(true)
}

fn with_choices<'a>(
    alloc: Global,
    command: Command<'a>,
    choices: &[Choice<'a>],
) -> Result<Command<'a>, AllocError>
    ensures { IfOk result (λ c.
        app_of c ≡ with_choices (app_of command.entry) (map choice_of choices.now)) }
{
    let mut command = command;
    'choices: for choice in choices {
        command = command.arg(choice.arg(alloc))?;
    }
    Ok(command)
}

fn put_help_lines(
    alloc: Global,
    out: &mut Vec<u8>,
    choices: &[Choice<'_>],
) -> Result<(), AllocError>
    ensures { OnOk result (out.new.items ≡ out.old.items ++ flat_map help_line (map choice_of choices.now)) }
{
    'lines: for choice in choices {
        choice.put_help_line(alloc, out)?;
    }
    Ok(())
}

fn matches_in<'a>(command: Command<'a>, words: &'a [String]) -> Result<ArgMatches<'a>, Error>
    requires { IsPlain (app_of command) }
    ensures matches { IfOk result (λ m.
        rows_of (found_of m) ≡ matches_of (app_of command.entry) (texts_seen words.entry.now)) }
    ensures faults { FailsBy (fault_of (app_of command.entry) (texts_seen words.entry.now)) result }
{
    command.try_get_matches_from(words)
}

#[tactic(auto, unfolding(crate::specs::Values::accepted))]
fn accepted<'a>(command: Command<'a>, words: &'a [String]) -> Result<ArgMatches<'a>, UsageFault>
    requires { IsPlain (app_of command) }
    ensures { Gives (λ m. rows_of (found_of m)) result
        (accepted (app_of command.entry) (texts_seen words.entry.now)) }
{
    match matches_in(command, words) {
        Ok(matches) => Ok(matches),
        Err(error) => {
            if error.kind() == ErrorKind::OutOfMemory {
                Err(UsageFault::Memory)
            } else {
                Err(UsageFault::Words)
            }
        }
    }
}
