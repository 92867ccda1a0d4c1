//! The beginning of a line, as it is shown.

ghost use Rattle.std.specs.Prelude.{◌≡◌, ◌++◌, OnOk, map, take};
ghost use Rattle.files65.specs.Shown.{dots_above, is_control, shown, shown_byte, trimmed};

use std::alloc::AllocError;

/// How many characters of a line are shown.
const SHOWN_CHARACTERS: usize = 80;

/// Appends two dots after what is not shown whole.
pub fn put_dots(out: &mut Vec<u8>, most: usize, len: usize) -> Result<(), AllocError>
    ensures { OnOk result (out.new.items ≡ out.old.items ++ dots_above most len) }
{
    if most < len {
        out.extend_from_slice(b" ..")?;
    }
    Ok(())
}

/// The first elements, if there are more than this many.
pub fn at_most(bytes: &[u8], most: usize) -> &[u8]
    ensures { result.now ≡ take most bytes.now }
{
    if bytes.len() <= most {
        return bytes;
    }
    &bytes[..most]
}

/// Whether a terminal may take a byte for a command: those from $80 on are the controls of 8 bits.
fn is_control(byte: u8) -> bool
    ensures { result ≡ is_control byte }
{
    byte.is_ascii_control() || 128 <= byte && byte <= 159
}

/// Appends bytes, with `?` for each control byte.
fn put_characters(out: &mut Vec<u8>, line: &[u8]) -> Result<(), AllocError>
    ensures { OnOk result (out.new.items ≡ out.old.items ++ map shown_byte line.now) }
{
    'characters: for byte in line {
        out.push(if is_control(*byte) { b'?' } else { *byte })?;
    }
    Ok(())
}

/// The line without the blanks around it.
pub fn trimmed(line: &[u8]) -> &[u8]
    ensures { result.now ≡ trimmed line.now }
{
    line.trim_ascii()
}

/// Appends the first characters.
#[tactic(auto, unfolding(crate::specs::Shown::shown))]
pub fn put_shown(out: &mut Vec<u8>, line: &[u8]) -> Result<(), AllocError>
    /// Shows the first 80 characters of a line, with `?` for each that a terminal may take for a command, and two dots
    /// if there are more.
    ensures { OnOk result (out.new.items ≡ out.old.items ++ shown line.now) }
{
    put_characters(out, at_most(line, SHOWN_CHARACTERS))?;
    put_dots(out, SHOWN_CHARACTERS, line.len())
}
