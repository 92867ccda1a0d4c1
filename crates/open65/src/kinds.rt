//! The kinds of files.

use crate::bytes::Bytes;
use crate::found::Found;
use crate::{apple, atari, commodore, d64, nes, others, records};
use std::alloc::Global;

/// All kinds, each by the word of `--kind`, how the names of such files end, and whether bytes alone tell it. Those
/// whose names end as that of the file are tried first, in this order, and then those that are told by bytes.
static KINDS: [(&str, &str, bool); 24] = [
    ("nes", ".nes", true),
    ("crt", ".crt", true),
    ("sid", ".sid", true),
    ("vsf", ".vsf", true),
    ("p00", ".p00", true),
    ("t64", ".t64", true),
    ("d64", ".d64", true),
    ("single", ".as", true),
    ("car", ".car", true),
    ("a78", ".a78", true),
    ("lnx", ".lnx", true),
    ("oric", ".tap", true),
    ("a26", ".a26 .atari2600", false),
    ("3f", ".3f", false),
    ("e0", ".e0", false),
    ("a52", ".a52", false),
    ("ssd", ".ssd", false),
    ("do", ".dsk .do", false),
    ("po", ".po", false),
    ("sys", ".system .sys", true),
    ("xex", ".xex .com .exe .obx", true),
    ("records", ".hex .s19 .s28 .srec", true),
    ("dos33", ".dos33", true),
    ("prg", ".prg", true),
];

/// What a command line says of a file beside its bytes.
#[derive(Clone, Copy)]
pub struct Given<'g> {
    pub name: &'g str,
    pub kind: Option<&'g str>,
    pub at: Option<u16>,
    pub bank: Option<u16>,
}

/// Whether there is a kind of this word.
pub fn is_kind(word: &str) -> bool {
    let mut is_kind = word == "plain";
    for (kind, _, _) in &KINDS {
        is_kind |= *kind == word;
    }
    is_kind
}

/// Whether a name has one of these ends.
fn has_end(name: &str, ends: &str) -> bool {
    for end in ends.split(' ') {
        let front = name.len().saturating_sub(end.len());
        if let Some(last) = name.as_bytes().get(front..)
            && last.eq_ignore_ascii_case(end.as_bytes())
        {
            return true;
        }
    }
    false
}

/// Returns what is found in a file: of the kind that is given, or of the first one that it is, or a plain
/// image.
pub fn found_in<'f>(alloc: Global, file: Bytes<'f>, given: Given<'f>) -> Found<'f> {
    for is_named in [true, false] {
        for (word, ends, is_told) in &KINDS {
            let has_end = has_end(given.name, ends);
            let is_tried = match given.kind {
                Some(kind) => kind == *word && is_named,
                None => has_end == is_named && (is_named || *is_told),
            };
            if is_tried {
                let found = found_as(alloc, file, given, (*word, is_named));
                if !found.kind.is_empty() || found.lost || given.kind.is_some() {
                    return found;
                }
            }
        }
    }
    found_as(alloc, file, given, ("plain", true))
}

/// Returns what is found in a file as one of a kind, which it may be named as.
fn found_as<'f>(
    alloc: Global,
    file: Bytes<'f>,
    given: Given<'f>,
    (word, named): (&'static str, bool),
) -> Found<'f> {
    let mut found = Found::new(alloc, file, given);
    found.word = word;
    read(&mut found, named);
    if let Some(at) = given.at
        && let [part] = found.parts.as_mut_slice()
    {
        part.start = usize::from(at);
        part.entries.clear();
        found.close();
    }
    found
}

/// Reads a file as one of the kind.
fn read(found: &mut Found<'_>, named: bool) {
    match found.word {
        "nes" => nes::read_nes(found),
        "crt" => commodore::read_cartridge(found),
        "sid" => commodore::read_tune(found),
        "vsf" => commodore::read_snapshot(found),
        "p00" => commodore::read_p00(found),
        "t64" => commodore::read_tape(found, named),
        "d64" => d64::read_disk(found, named),
        "single" => apple::read_single(found),
        "car" => atari::read_car(found),
        "a78" => atari::read_7800(found),
        "lnx" => atari::read_lynx(found),
        "oric" => others::read_oric(found),
        "a26" => atari::read_2600(found, 0x1000),
        "3f" => atari::read_2600(found, 0x0800),
        "e0" => atari::read_2600(found, 0x0400),
        "a52" => atari::read_5200(found),
        "ssd" => others::read_dfs(found),
        "do" => apple::read_disk(found, false),
        "po" => apple::read_disk(found, true),
        "sys" => apple::read_system(found, named),
        "xex" => atari::read_executable(found, named),
        "records" => records::read_records(found),
        "dos33" => apple::read_binary(found, named),
        "prg" => commodore::read_program(found, named),
        _ => others::read_plain(found),
    }
}
