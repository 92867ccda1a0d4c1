//! The program's command line.

ghost use Rattle.std.specs.Prelude.{◌≡◌};
ghost use Rattle.usage65.specs.Words.{program_of};
ghost use Rattle.html65.specs.Command.{this_program};

use usage65::{Choice, FILL, HELP, INFO, OUTPUT, Program, START, VERSION};

/// The options, in the order of the help text.
static CHOICES: [Choice<'static>; 6] = [
    Choice {
        purpose: "information file, for the start and the segments",
        ..INFO
    },
    START,
    FILL,
    OUTPUT,
    HELP,
    VERSION,
];

/// The program: its options, and an optional listing.
pub fn this_program() -> Program<'static>
    /// The options are those of the table, which the definition cites. So the help text has a line for each
    /// option of the command and no other, and the version is `html65 profile 1` and a line feed (`usage65`).
    ensures { program_of result ≡ this_program }
{
    Program {
        name: "html65",
        usage: "Usage: html65 [options] [listing]",
        choices: &CHOICES,
        input: "listing",
    }
}
