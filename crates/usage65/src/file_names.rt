//! The names of files on a command line: `-` stands for a standard stream.

ghost use Rattle.std.specs.Prelude.{◌≡◌};
ghost use Rattle.usage65.specs.Words.{info_named, input_named, is_name, is_taken, output_named, text_seen};

/// What an input without a name is read from.
const STANDARD_INPUT: &str = "/dev/stdin";

/// The name of what is read. `-`, and an input without a name, is standard input.
pub fn input_named(name: Option<&str>) -> &str
    ensures { result.now ≡ input_named (text_seen name.entry) }
{
    match name {
        Some(name) if name != "-" => name,
        _ => STANDARD_INPUT,
    }
}

/// The name of the information file, if there is one.
pub fn info_named(name: Option<&str>) -> Option<&str>
    ensures { text_seen result ≡ info_named (text_seen name.entry) }
{
    match name {
        Some(_) => Some(input_named(name)),
        None => None,
    }
}

/// The name of the output. `-`, and none, is standard output.
pub fn output_named(name: Option<&str>) -> Option<&str>
    ensures { text_seen result ≡ output_named (text_seen name.entry) }
{
    match name {
        Some(name) if name != "-" => Some(name),
        _ => None,
    }
}

/// Whether this is the name that is given, if one is.
pub fn is_name(given: Option<&str>, name: &str) -> bool
    ensures { result ≡ is_name (text_seen given.entry) name.now }
{
    match given {
        Some(given) => given == name,
        None => false,
    }
}

/// Whether standard input would have to be this input and the information file.
pub fn is_taken(info: Option<&str>, name: &str) -> bool
    ensures { result ≡ is_taken (text_seen info.entry) name.now }
{
    name == STANDARD_INPUT && is_name(info, STANDARD_INPUT)
}
