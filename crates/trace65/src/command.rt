//! The program's command line.

ghost use Rattle.std.specs.Prelude.{◌≡◌};
ghost use Rattle.usage65.specs.Words.{program_of};
ghost use Rattle.trace65.specs.Words.{this_program};

use usage65::{CPU, Choice, ENTRY, HELP, INFO, NEW_OUTPUT, Program, START, VERSION};

/// The options, in the order of the help text.
static CHOICES: [Choice<'static>; 9] = [
    INFO,
    NEW_OUTPUT,
    START,
    CPU,
    ENTRY,
    Choice {
        id: "plain",
        short: None,
        long: Some("plain"),
        value: None,
        purpose: "follow no more than the entries",
    },
    Choice {
        id: "whole",
        short: None,
        long: Some("whole"),
        value: None,
        purpose: "write the information file first",
    },
    HELP,
    VERSION,
];

/// The program: its options, and an optional image.
pub fn this_program() -> Program<'static>
    /// The options are those of the table, which the definition cites. So the help text has a line for each
    /// option of the command and no other, and the version is `trace65 profile 1` and a line feed (`usage65`).
    ensures { program_of result ≡ this_program }
{
    Program {
        name: "trace65",
        usage: "Usage: trace65 [options] [image]",
        choices: &CHOICES,
        input: "image",
    }
}
