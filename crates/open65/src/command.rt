//! The program's command line.

ghost use Rattle.std.specs.Prelude.{◌≡◌};
ghost use Rattle.usage65.specs.Words.{program_of};
ghost use Rattle.open65.specs.Command.{this_program};

use usage65::{Choice, HELP, NEW_OUTPUT, Program, VERSION};

/// An option: its id, its names, its value, and what it is for.
macro_rules! choice {
    ($id:literal: $short:expr, $long:expr, $value:expr => $purpose:literal) => {
        Choice {
            id: $id,
            short: $short,
            long: $long,
            value: $value,
            purpose: $purpose,
        }
    };
}

/// The options, in the order of the help text.
static CHOICES: [Choice<'static>; 12] = [
    choice!("list": None, Some("list"), None => "list the parts, and write nothing"),
    choice!("folder": Some(b'd'), None, Some("folder") => "folder of the files that are written"),
    choice!("kind": None, Some("kind"), Some("kind") => "what the file is, as the manual lists it"),
    choice!("file": None, Some("file"), Some("name") => "the only file of a disk or tape"),
    choice!("at": None, Some("at"), Some("addr") => "address of a plain image or of its banks"),
    choice!("bank": None, Some("bank-size"), Some("size") => "size of the banks of a plain image"),
    choice!("machine": None, Some("machine"), Some("machine") => "whose names are included, or none"),
    choice!("names": None, Some("names"), Some("folder") => "folder of the names of machines"),
    choice!("back": None, Some("back"), None => "put images of parts back: input -o name PART=IMAGE .."),
    NEW_OUTPUT,
    HELP,
    VERSION,
];

/// The program: its options, and a file.
pub fn this_program() -> Program<'static>
    /// The options are those of the table, which the definition cites. So the help text has a line for each
    /// option of the command and no other, and the version is `open65 profile 1` and a line feed (`usage65`).
    ensures { program_of result ≡ this_program }
{
    Program {
        name: "open65",
        usage: "Usage: open65 [options] input",
        choices: &CHOICES,
        input: "input",
    }
}
