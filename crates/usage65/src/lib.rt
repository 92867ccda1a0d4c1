//! What the command lines of several programs share: the table of a program's options, from which come the command for
//! `clap` that reads the program's words, the help text and the version; what the words ask for, of which each program
//! says its part by [`FromMatches`]; the values in the matches, the names of files and that they are apart, and why a
//! command line is refused.
#![tactic(auto)]

mod addresses;
mod choice;
mod choices;
mod fault;
mod file_names;
mod names;
mod number;
mod program;
mod request;
mod request_fault;
mod value;
mod words;

pub use addresses::addresses_of;
pub use choice::{Choice, ChoiceOf};
pub use choices::{CPU, ENTRY, FILL, HELP, INFO, NEW_OUTPUT, OUTPUT, START, VERSION};
pub use fault::UsageFault;
pub use file_names::{info_named, input_named, is_taken, output_named};
pub use names::{FileNames, names_apart};
pub use number::{address_in, byte_in, decimal_in};
pub use program::Program;
pub use request::{FromMatches, Request};
pub use request_fault::RequestFault;
pub use value::{address_of, byte_of, cpu_of, is_set, owned, text_of};
pub use words::words_of;
