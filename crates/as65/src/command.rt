//! The program's command line.

ghost use Rattle.std.specs.Prelude.{◌≡◌};
ghost use Rattle.usage65.specs.Words.{program_of};
ghost use Rattle.as65.specs.Words.{this_program};

use usage65::{Choice, FILL, HELP, INFO, OUTPUT, Program, START, VERSION};

/// The options, in the order of the help text.
static CHOICES: [Choice<'static>; 9] = [
    Choice {
        purpose: "information file of da65, for the start and the part",
        ..INFO
    },
    START,
    FILL,
    Choice {
        id: "in-place",
        short: None,
        long: Some("in-place"),
        value: None,
        purpose: "refuse a listing in which a label LXXXX is not at $XXXX",
    },
    OUTPUT,
    Choice {
        id: "compare",
        short: None,
        long: Some("compare"),
        value: Some("image"),
        purpose: "print where the bytes differ from an image",
    },
    Choice {
        id: "labels",
        short: None,
        long: Some("labels"),
        value: None,
        purpose: "write the names for emulators, in place of the bytes",
    },
    HELP,
    VERSION,
];

/// The program: its options, and an optional listing. What listings are stands above the usage line.
pub fn this_program() -> Program<'static>
    /// The options are those of the table, which the definition cites. So the help text has a line for each
    /// option of the command and no other, and the version is `as65 profile 1` and a line feed (`usage65`).
    ensures { program_of result ≡ this_program }
{
    Program {
        name: "as65",
        usage: "as65 reads ca65's language as far as listings need it; for everything else there is ca65.\n\
                Usage: as65 [options] [listing]",
        choices: &CHOICES,
        input: "listing",
    }
}
