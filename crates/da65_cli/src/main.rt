//! Lists a binary image as ca65 source: `da65 [options] [inputfile]`.
//!
//! In order: the options, then help or version, the information file, its include files, the input, the output
//! file, which is created empty, and the run. The listing goes to the output file or to standard output, messages go
//! to standard error once the whole listing is written. The status is 0 if the listing, the help text or
//! the version was written, otherwise 1.
#![tactic(auto)]

mod block;
mod buffered;
mod include_files;
mod listing;
mod message_buffer;

use da65::{
    Info, InfoFault, Options, RunFault, Status, Told, needs_read, options_of, read_info,
    this_program,
};
use files65::{FileFault, Input, Output, Placeholders, read_information, say, write_text};
use include_files::{Content, files_for_run, include_files};
use listing::{Listed, run_read_buffered};
use std::process::ExitCode;
use usage65::{RequestFault, words_of};

/// What ends the program early. A refusal is none of these, since `run` writes its message. After a failed write of a
/// message, of the help text or of the version nothing more is said.
type Failure = files65::Failure<RunFault>;

/// The options of the program's words.
fn options(rt: &HostRuntime) -> Result<Options, RequestFault> {
    let words = words_of(rt)?;
    Ok(options_of(rt.alloc(), &words)?)
}

/// Writes a text about the program on standard output.
fn tell(rt: &HostRuntime, text: &[u8]) -> Result<Status, Failure> {
    match write_text(&mut Output::standard(rt), text) {
        Ok(()) => Ok(Status::Done),
        Err(_) => Err(Failure::Own(RunFault::Messages)),
    }
}

/// Opens the named input, then creates the output. Without an input name the run is refused, and no output
/// file is created.
fn devices(
    rt: &HostRuntime,
    input: Option<String>,
    output: Option<String>,
) -> Result<(Input, Output), FileFault> {
    let Some(name) = input else {
        return Ok((Input::Nothing, Output::standard(rt)));
    };
    let input = Input::open(rt, name.as_str())?;
    Ok((input, Output::create(rt, output)?))
}

/// Opens the input and the output, and lists.
fn list_image(
    rt: &HostRuntime,
    read: Result<Info, InfoFault>,
    contents: &[Content],
    input: Option<String>,
    output: Option<String>,
) -> Result<Status, Failure> {
    let alloc = rt.alloc();
    let files = files_for_run(alloc, contents)?;
    let (mut input, output) = devices(rt, input, output)?;
    let mut errors = Told::new(rt.stderr());
    let listed = run_read_buffered(alloc, read, &files, &mut input, output, &mut errors);
    let Listed {
        output: _output,
        result,
    } = listed;
    result.map_err(Failure::Own)
}

/// Reads the information file and its include files, and lists under them.
fn list_by_options(rt: &HostRuntime, options: &Options) -> Result<Status, Failure> {
    let read = read_info(
        rt.alloc(),
        options,
        &read_information(rt, options.info.as_deref())?,
    );
    let needs = needs_read(rt.alloc(), &read)?;
    let contents = include_files(rt, needs.includes)?;
    list_image(rt, read, &contents, needs.input, needs.output)
}

/// Does what the options ask for.
fn obey(rt: &HostRuntime, options: &Options) -> Result<Status, Failure> {
    if options.help {
        return tell(rt, &this_program().help_text(rt.alloc())?);
    }
    if options.version {
        return tell(rt, &this_program().version_text(rt.alloc())?);
    }
    list_by_options(rt, options)
}

fn program(rt: &HostRuntime) -> Result<Status, Failure> {
    // Messages to a closed standard error must not end up in the output file.
    let _placeholders = Placeholders::take(rt)?;
    let options = options(rt)?;
    obey(rt, &options)
}

fn main(rt: HostRuntime) -> ExitCode {
    match program(&rt) {
        Ok(Status::Done) => ExitCode::SUCCESS,
        Ok(Status::Refused) | Err(Failure::Own(RunFault::Messages)) => ExitCode::FAILURE,
        Err(failure) => {
            let _ = say(&rt, "da65", format!(in rt.alloc(); "{failure}"), &[]);
            ExitCode::FAILURE
        }
    }
}
