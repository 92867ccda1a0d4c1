//! The program's command line.

ghost use Rattle.std.specs.Prelude.{◌≡◌};
ghost use Rattle.usage65.specs.Words.{program_of};
ghost use Rattle.move65.specs.Command.{this_program};

use usage65::{CPU, Choice, ENTRY, HELP, INFO, NEW_OUTPUT, Program, START, VERSION};

/// The options, in the order of the help text.
static CHOICES: [Choice<'static>; 9] = [
    INFO,
    START,
    CPU,
    ENTRY,
    Choice {
        id: "by",
        short: None,
        long: Some("by"),
        value: Some("n"),
        purpose: "how much later the second image lies: 257 by default",
    },
    Choice {
        id: "steps",
        short: None,
        long: Some("steps"),
        value: Some("n"),
        purpose: "how many instructions a run has, at most",
    },
    NEW_OUTPUT,
    HELP,
    VERSION,
];

/// The program: its options, and an optional listing.
pub fn this_program() -> Program<'static>
    ensures { program_of result ≡ this_program }
{
    Program {
        name: "move65",
        usage: "Usage: move65 [options] [listing]",
        choices: &CHOICES,
        input: "listing",
    }
}
