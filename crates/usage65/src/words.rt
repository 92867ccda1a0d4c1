//! The words of the program's command line.

use crate::fault::UsageFault;
use std::env;

/// Returns the words of the command line, of which the first is the program's name. Fails with `Words` if one is not
/// valid UTF-8. No contract can say what the words are: `UsageFault::of_words` says what a failure means.
pub fn words_of(rt: &HostRuntime) -> Result<Vec<String>, UsageFault> {
    let args = match env::args(rt) {
        Ok(args) => args,
        Err(error) => return Err(UsageFault::of_words(&error)),
    };
    let mut words = Vec::new(rt.alloc());
    for word in args {
        words.push(word)?;
    }
    Ok(words)
}
