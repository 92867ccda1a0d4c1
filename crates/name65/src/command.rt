//! The program's command line.

ghost use Rattle.std.specs.Prelude.{◌≡◌};
ghost use Rattle.usage65.specs.Words.{program_of};
ghost use Rattle.name65.specs.Command.{this_program};

use usage65::{Choice, FILL, HELP, INFO, OUTPUT, Program, START, VERSION};

/// The options, in the order of the help text.
static CHOICES: [Choice<'static>; 8] = [
    Choice {
        purpose: "information file, for its lines `#: ..` and the start",
        ..INFO
    },
    START,
    FILL,
    OUTPUT,
    Choice {
        id: "used",
        short: None,
        long: Some("used"),
        value: None,
        purpose: "leave out constant lines of names that no other line uses",
    },
    Choice {
        id: "labels-first",
        short: None,
        long: Some("labels-first"),
        value: None,
        purpose: "put a label before the names inside its instruction",
    },
    HELP,
    VERSION,
];

/// The program: its options, and an optional listing.
pub fn this_program() -> Program<'static>
    /// The options are those of the table, which the definition cites. So the help text has a line for each
    /// option of the command and no other, and the version is `name65 profile 1` and a line feed (`usage65`).
    ensures { program_of result ≡ this_program }
{
    Program {
        name: "name65",
        usage: "Usage: name65 [options] [listing]",
        choices: &CHOICES,
        input: "listing",
    }
}
