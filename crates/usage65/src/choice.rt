//! An option of a command line.

ghost use Rattle.std.specs.Prelude.{IfOk, OnOk, ◌≡◌, ◌++◌};
ghost use Rattle.clap.specs.Words.{new_rule};
ghost use Rattle.usage65.specs.Words.{HasRule, choice_of, help_line, names, names_and_value, rule_for, text_seen, with_value};

use clap::{Arg, ArgAction};
use std::alloc::{AllocError, Global};

/// How many columns the help text has for the names and the value of an option.
const COLUMNS: usize = 25;

/// An option of a command line. One without a value is a flag.
pub type Choice<'a> = ChoiceOf<&'a str>;

/// An option of a command line, with texts of this type. A table of them can be named in definitions, so that it stands
/// in the code alone.
#[derive(Clone, Copy, Debug)]
pub struct ChoiceOf<T> {
    /// What finds its value in the matches.
    pub id: T,
    /// Its letter, in ASCII.
    pub short: Option<u8>,
    pub long: Option<T>,
    /// What its value is called.
    pub value: Option<T>,
    /// What it is for.
    pub purpose: T,
}

impl<'a> ChoiceOf<&'a str> {
    /// The option as `clap` takes it.
    pub fn arg(&self, alloc: Global) -> Arg<'a>
        /// Returns the option as an argument of clap, with its letter, its long name, and a value unless it is a
        /// flag.
        ensures { HasRule result (rule_for (choice_of self.now)) }
    {
        let arg = named(alloc, self.id, self.short, self.long);
        match self.value {
            Some(_) => arg,
            None => arg.action(ArgAction::SetTrue),
        }
    }

    /// Appends the option's line in the help text: its names and its value, and what it is for.
    pub fn put_help_line(&self, alloc: Global, out: &mut Vec<u8>) -> Result<(), AllocError>
        /// Appends the line of the option; or memory ran out.
        ensures { OnOk result (out.new.items ≡ out.old.items ++ help_line (choice_of self.now)) }
    {
        let mut names = self.names_and_value(alloc)?;
        names.resize(names.len().max(COLUMNS), b' ')?;
        out.extend_from_slice(b"  ")?;
        out.extend_from_slice(&names)?;
        out.extend_from_slice(self.purpose.as_bytes())?;
        out.extend_from_slice(b"\n")
    }

    fn names_and_value(&self, alloc: Global) -> Result<Vec<u8>, AllocError>
        ensures { IfOk result (λ text. text.items ≡ names_and_value (choice_of self.now)) }
    {
        let mut text = Vec::new(alloc);
        put_names(&mut text, self.short, self.long)?;
        put_value(&mut text, self.value)?;
        Ok(text)
    }
}

/// An argument of these names.
fn named<'a>(alloc: Global, id: &'a str, short: Option<u8>, long: Option<&'a str>) -> Arg<'a>
    ensures { HasRule result (record (new_rule id.entry.now)
        { short = short; long = text_seen long.entry }) }
{
    let arg = Arg::new(alloc, id);
    match (short, long) {
        (Some(short), Some(long)) => arg.short(char::from(short)).long(long),
        (Some(short), None) => arg.short(char::from(short)),
        (None, Some(long)) => arg.long(long),
        (None, None) => arg,
    }
}

/// Appends `-i, --info`, or the one of the two that there is.
fn put_names(out: &mut Vec<u8>, short: Option<u8>, long: Option<&str>) -> Result<(), AllocError>
    ensures { OnOk result (out.new.items ≡ out.old.items ++ names short (text_seen long.entry)) }
{
    match (short, long) {
        (Some(short), Some(long)) => {
            out.extend_from_slice(&[b'-', short, b',', b' ', b'-', b'-'])?;
            out.extend_from_slice(long.as_bytes())
        }
        (Some(short), None) => out.extend_from_slice(&[b'-', short]),
        (None, Some(long)) => {
            out.extend_from_slice(b"--")?;
            out.extend_from_slice(long.as_bytes())
        }
        (None, None) => Ok(()),
    }
}

/// Appends a blank and what the value is called.
fn put_value(out: &mut Vec<u8>, value: Option<&str>) -> Result<(), AllocError>
    ensures { OnOk result (out.new.items ≡ out.old.items ++ with_value (text_seen value.entry)) }
{
    match value {
        Some(value) => {
            out.extend_from_slice(b" ")?;
            out.extend_from_slice(value.as_bytes())
        }
        None => Ok(()),
    }
}
