//! The information file of a part.

ghost use Rattle.std.specs.Prelude.{IfOk, IsOk, None};
ghost use Rattle.info65.specs.Words.{information};
ghost use Rattle.files65.specs.Faults.{options_at};

use crate::failure::{Failure, Refused};
use crate::found::{ADDRESSES, Found, Part};
use crate::names::{put_guesses, put_kind};
use crate::text::Text;
use files65::information_at;
use info65::Info;

/// From how many bytes of one value on they are filler.
const FILLER: usize = 256;

/// The instruction that does nothing: many of them may be code.
const NOP: u8 = 0xEA;

/// What an information file is made of: a part, its image, the name of the file that has it, and the include file of
/// the machine's names, if there is one.
#[derive(Clone, Copy)]
pub struct Source<'s> {
    pub part: &'s Part,
    pub image: &'s [u8],
    pub name: &'s str,
    pub include: Option<&'s str>,
}

/// Appends a range.
fn put_range(text: &mut Text, start: usize, end: usize, kind: &str) {
    text.address("RANGE { START ", start);
    text.address("; END ", end.saturating_sub(1));
    text.say("; TYPE ");
    text.say(kind);
    text.say("; };\n");
}

/// Appends tables of addresses that are at known places: the vectors, unless they are filler, and what a cartridge of
/// the C64 begins with. Returns where the first byte is that is in none of these at the end.
fn put_tables(text: &mut Text, source: &Source<'_>) -> usize {
    let (start, end) = (source.part.start, source.part.end());
    if start == 0x8000 && source.image.get(4..9) == Some(b"\xC3\xC2\xCD80".as_slice()) {
        put_range(text, 0x8000, 0x8004, "AddrTable");
    }
    match source.image.split_last_chunk::<6>() {
        Some((_, last)) if end == ADDRESSES && *last != [last[0]; 6] => {
            put_range(text, 0xFFFA, ADDRESSES, "AddrTable");
            text.say("SEGMENT { START $FFFA; END $FFFF; NAME \"VECTORS\"; };\n");
            0xFFFA
        }
        _ => end,
    }
}

/// Appends a range for each stretch of filler before an address.
fn put_filler(text: &mut Text, source: &Source<'_>, limit: usize) {
    let start = source.part.start;
    let mut begin = start;
    for (place, byte) in source.image.iter().enumerate() {
        let after = place.saturating_add(1);
        if source.image.get(after) == Some(byte) {
            continue;
        }
        let at = start.saturating_add(after);
        let end = at.min(limit);
        if FILLER <= end.saturating_sub(begin) && *byte != NOP {
            put_range(text, begin, end, "ByteTable");
        }
        begin = at;
    }
}

/// Appends what the file says.
fn put_information(text: &mut Text, found: &Found<'_>, source: &Source<'_>) {
    text.say("# ");
    put_kind(text, found);
    text.say("\n");
    put_guesses(text, found, "# ");
    text.say("GLOBAL { INPUTNAME \"");
    text.say(source.name);
    text.number("\"; INPUTOFFS ", source.part.place().unwrap_or(0));
    text.number("; INPUTSIZE ", source.part.len);
    text.address("; STARTADDR ", source.part.start);
    if let Some(cpu) = found.cpu {
        text.say("; CPU \"");
        text.say(cpu);
        text.say("\"");
    }
    text.say("; };\n");
    for entry in &source.part.entries {
        text.address("#: ENTRY { ADDR ", *entry);
        text.say("; };\n");
    }
    let limit = put_tables(text, source);
    put_filler(text, source, limit);
    if let Some(include) = source.include {
        text.say("ASMINC { FILE \"");
        text.say(include);
        text.say("\"; };\n");
    }
}

/// Returns an information file. It is read back: unless it is accepted, and says where the image is, there is none.
pub fn information(found: &Found<'_>, source: &Source<'_>) -> Result<Vec<u8>, Failure>
    /// An information file is accepted as it is, without any option.
    ensures { IfOk result (λ text. IsOk (information (options_at None) text.items)) }
{
    let mut text = Text::new(found.alloc);
    put_information(&mut text, found, source);
    let text = text.whole()?;
    let info = match information_at::<Refused>(found.alloc, None, &text) {
        Ok(info) => info,
        Err(Failure::Memory) => return Err(Failure::Memory),
        Err(_refused) => return Err(unnamed(found, source)),
    };
    if says(&info, source) {
        return Ok(text);
    }
    Err(unnamed(found, source))
}

/// The failure of a name that no information file can have.
fn unnamed(found: &Found<'_>, source: &Source<'_>) -> Failure {
    match String::from_str(found.alloc, source.name) {
        Ok(name) => Failure::Own(Refused::Name(name)),
        Err(_lost) => Failure::Memory,
    }
}

/// Whether an information file says where the image is.
fn says(info: &Info, source: &Source<'_>) -> bool {
    let settings = info.settings();
    let (size, start) = (settings.size.unwrap_or(0), settings.start.unwrap_or(0));
    settings.input.as_deref() == Some(source.name)
        && settings.offset as usize == source.part.place().unwrap_or(0)
        && size as usize == source.part.len
        && usize::from(start) == source.part.start
}
