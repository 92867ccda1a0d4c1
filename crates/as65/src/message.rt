//! Messages on standard error.

use crate::failure::{Failure, Refused, said_after};
use crate::named_start::NamedStart;
use std::alloc::AllocError;

/// Says a text. Where that fails, nothing more is to be written.
fn say_text(rt: &HostRuntime, text: Result<String, AllocError>) -> Result<(), Failure> {
    match files65::say(rt, "as65", Ok(text?), &[]) {
        Ok(()) => Ok(()),
        Err(_) => Err(Failure::Own(Refused::Silent)),
    }
}

/// Says why the program gives up, unless a message could not be written before.
pub fn say(rt: &HostRuntime, failure: &Failure) {
    if matches!(failure, Failure::Own(Refused::Silent)) {
        return;
    }
    let text = format!(in rt.alloc(); "{failure}");
    let _ = files65::say(rt, "as65", text, said_after(failure));
}

/// Says where an image of this name is taken to begin whose start nobody gave, and which other
/// start the names of the listing speak for.
pub fn say_starts(
    rt: &HostRuntime,
    name: &str,
    start: u16,
    named: Option<NamedStart>,
) -> Result<(), Failure> {
    let taken = format!(in rt.alloc(); "{name} is taken to begin at ${start:04X}");
    say_text(rt, taken)?;
    let Some(NamedStart { start, labels }) = named else {
        return Ok(());
    };
    let other = format!(in rt.alloc();
        "{labels} of the labels LXXXX would be at $XXXX with -S 0x{start:04X}"
    );
    say_text(rt, other)
}
