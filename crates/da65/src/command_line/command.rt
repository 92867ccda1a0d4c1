//! The program's command line.

ghost use Rattle.std.specs.Prelude.{◌≡◌};
ghost use Rattle.usage65.specs.Words.{program_of};
ghost use Rattle.da65.specs.Words.{this_program};

use usage65::{CPU, Choice, HELP, INFO, OUTPUT, Program, START, VERSION};

/// An option that takes a number.
macro_rules! number_choice {
    ($long:literal, $purpose:literal) => {
        Choice {
            id: $long,
            short: None,
            long: Some($long),
            value: Some("n"),
            purpose: $purpose,
        }
    };
}

/// The options, in the order of the help text.
static CHOICES: [Choice<'static>; 13] = [
    INFO,
    OUTPUT,
    START,
    CPU,
    number_choice!("comments", "comment level, 0 to 4"),
    number_choice!("mnemonic-column", "column of mnemonics"),
    number_choice!("argument-column", "column of operands"),
    number_choice!("comment-column", "column of remarks"),
    number_choice!("text-column", "column of characters"),
    number_choice!("label-break", "longest label before a line break"),
    Choice {
        id: "hexoffs",
        short: None,
        long: Some("hexoffs"),
        value: None,
        purpose: "offsets in hexadecimal",
    },
    HELP,
    VERSION,
];

/// The program: its options, and an optional input name.
pub fn this_program() -> Program<'static>
    /// The table of the options is that of the definition. So the help text has a line for each option of the
    /// command and no other, and the version is `da65 profile 1` and a line feed (`usage65`).
    ensures { program_of result ≡ this_program }
{
    Program {
        name: "da65",
        usage: "Usage: da65 [options] [inputfile]",
        choices: &CHOICES,
        input: "input",
    }
}
