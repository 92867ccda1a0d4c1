//! What a command line asks for.

use crate::command::this_program;
use crate::kinds::is_kind;
use clap::ArgMatches;
use std::alloc::{AllocError, Global};
use usage65::{Request, RequestFault, UsageFault, address_of, is_set, owned, text_of};

/// A file is to be opened, or images are to be put back.
#[derive(Drop)]
pub struct Asked {
    pub input: Option<String>,
    pub kind: Option<String>,
    /// The only file of a disk or tape that counts.
    pub file: Option<String>,
    pub at: Option<u16>,
    pub bank: Option<u16>,
    pub machine: Option<String>,
    /// The folder of the names of machines, and that of what is written.
    pub names: Option<String>,
    pub folder: Option<String>,
    /// Whether the parts are listed alone, and whether images are put back: the words PART=IMAGE.
    pub is_list: bool,
    pub is_back: bool,
    pub images: Vec<String>,
    /// The new file.
    pub output: Option<String>,
}

/// Takes the words PART=IMAGE, which `clap` does not see, if there is a word `--back`: they do not begin with a dash or
/// follow an option. Returns the other words, and these.
fn words_apart(alloc: Global, words: &[String]) -> Result<(Vec<String>, Vec<String>), AllocError> {
    let (mut others, mut images) = (Vec::new(alloc), Vec::new(alloc));
    let mut is_back = false;
    let mut is_after_option = true;
    for word in words {
        let text = word.as_str();
        let is_option = text.starts_with('-');
        let is_image = is_back && !is_option && !is_after_option && text.contains('=');
        let list = if is_image { &mut images } else { &mut others };
        list.push(String::from_str(alloc, text)?)?;
        is_back |= text == "--back";
        is_after_option = is_option;
    }
    Ok((others, images))
}

/// What the words ask for. The first word is the program's name.
#[tactic(auto, using(crate::proofs::CommandLemmas::app_is_plain))]
pub fn request_of(alloc: Global, words: &[String]) -> Result<Request<Asked>, RequestFault> {
    let (words, images) = words_apart(alloc, words)?;
    let program = this_program();
    let matches = program.matches(alloc, &words)?;
    if let Some(text) = program.text_asked(alloc, &matches)? {
        return Ok(Request::Text(text));
    }
    Ok(Request::Run(asked_by(alloc, &matches, images)?))
}

/// What the matches ask for, with these images.
fn asked_by(
    alloc: Global,
    matches: &ArgMatches,
    images: Vec<String>,
) -> Result<Asked, RequestFault> {
    let (at, bank) = (address_of(matches, "at")?, address_of(matches, "bank")?);
    let kind = text_of(matches, "kind");
    if !is_kind(kind.unwrap_or("plain")) {
        return Err(RequestFault::Usage(UsageFault::OutOfRange));
    }
    Ok(Asked {
        input: owned(alloc, text_of(matches, "input"))?,
        kind: owned(alloc, kind)?,
        file: owned(alloc, text_of(matches, "file"))?,
        at,
        bank,
        machine: owned(alloc, text_of(matches, "machine"))?,
        names: owned(alloc, text_of(matches, "names"))?,
        folder: owned(alloc, text_of(matches, "folder"))?,
        is_list: is_set(matches, "list"),
        is_back: is_set(matches, "back"),
        images,
        output: owned(alloc, text_of(matches, "output"))?,
    })
}
