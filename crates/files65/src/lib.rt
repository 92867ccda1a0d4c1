//! The files of a program, by their names.
//!
//! [`Input::open`] opens what is read and [`Output::create`] creates what is written, by [`write_text`].
//! [`read_information`] and [`read_listing`] read such a file up to its limit, [`contents`] any other. [`Placeholders`]
//! stand for standard streams that are closed. [`keep_inputs`] and [`keep_named`], [`keep_apart`] and [`need_plain`]
//! refuse an output that is an input, a stream that is two inputs, and an output that is no file. [`obey`] does what a
//! command line asks for. [`say`] says why a program gives up, a [`Failure`], and [`end`] ends it; a [`FileFault`] is
//! what can go wrong with a file. [`information_of`] and [`tags_of`] are what an information file says; [`layout_of`]
//! and [`start_or_end`] say where the bytes of a listing belong.
//!
//! [`assembled`] is what a listing means. [`failure_of`] says which line of it has a fault, with the line and a hint:
//! what the assembler found it to be about, or a guess from its text (`hint`, and what it names). The hint is advice.
#![tactic(auto)]

mod definitions;
mod failure;
mod fault;
mod faulty_line;
mod forms;
mod frame;
mod guess;
mod guesses;
mod hint;
mod information;
mod input;
mod limits;
mod lines;
mod message;
mod named_twice;
mod output;
mod place;
mod placeholders;
mod reading;
mod same;
mod shown;
mod words;

pub use failure::{Failure, said_after};
pub use fault::FileFault;
pub use faulty_line::{assembled, failure_of};
pub use frame::obey;
pub use information::{information_at, information_of, tags_of};
pub use input::Input;
pub use lines::{after_lines, first_of, line_at};
pub use message::{end, say};
pub use output::{Output, write_text};
pub use place::{layout_of, repair, start_or_end};
pub use placeholders::Placeholders;
pub use reading::{
    INFORMATION_LIMIT, contents, needed_contents, read_from, read_information, read_listing,
};
pub use same::{keep_apart, keep_files, keep_inputs, keep_named, need_plain};
pub use shown::{at_most, put_dots, put_shown, trimmed};
