//! What the parts and their files are called, and the lines that list them.

use crate::found::Found;
use crate::text::Text;
use std::alloc::{AllocError, Global};

/// The name of a file without its folder and its end. Each byte that is no letter, digit or one of `.+-_` is `_` there.
fn stem_of(alloc: Global, name: &str) -> Text {
    let file = name.rsplit_once('/').map_or(name, |pair| pair.1);
    let stem = match file.rsplit_once('.') {
        Some((stem, _)) if !stem.is_empty() => stem,
        _ => file,
    };
    let mut text = Text::new(alloc);
    for (index, byte) in stem.bytes().enumerate() {
        let is_inside = 0 < index && matches!(byte, b'-' | b'.');
        let is_plain = byte.is_ascii_alphanumeric() || matches!(byte, b'_' | b'+');
        text.put(&[if is_plain || is_inside { byte } else { b'_' }]);
    }
    text
}

/// Names the parts. The only part is called as the file is.
pub fn name_parts(found: &mut Found<'_>) -> Result<(), AllocError> {
    let (alloc, input) = (found.alloc, found.given.name);
    let is_only = found.parts.len() == 1;
    for part in found.parts.iter_mut() {
        let mut files = stem_of(alloc, input);
        let mut name = stem_of(alloc, input);
        if !is_only {
            name = Text::new(alloc);
            name.number(part.word, part.number);
            files.say("_");
            files.number(part.word, part.number);
        }
        part.name = name.string(alloc)?;
        part.files = files.string(alloc)?;
    }
    Ok(())
}

/// Appends a line for the file, one for each part, and one for each guess.
pub fn put_lines(text: &mut Text, found: &Found<'_>) {
    text.say(found.given.name);
    text.say(": ");
    put_kind(text, found);
    text.number(", ", found.parts.len());
    text.say(if found.parts.len() == 1 {
        " part\n"
    } else {
        " parts\n"
    });
    for part in &found.parts {
        text.say(part.name.as_str());
        text.say("  ");
        text.count(part.len);
        text.address(" at ", part.start);
        text.say("  ");
        text.say(part.files.as_str());
        text.say(".info");
        text.say(if part.title.is_empty() { "" } else { "  " });
        text.put(&part.title);
        text.say("\n");
    }
    put_guesses(text, found, "");
}

/// Appends what the file is.
pub fn put_kind(text: &mut Text, found: &Found<'_>) {
    text.say(found.kind);
    if let Some(number) = found.number {
        text.number(" ", number);
    }
}

/// Appends a line for each guess, with this before it.
pub fn put_guesses(text: &mut Text, found: &Found<'_>, before: &str) {
    for guess in &found.guesses {
        text.say(before);
        text.say("guessed: ");
        text.say(guess);
        text.say("\n");
    }
}
