//! The messages of a run, each one line.

ghost use Rattle.std.specs.Prelude.{◌≡◌, ◌+◌, ◌≤◌, ◌++◌, decimal, length};
ghost use Rattle.arrayvec.specs.ArrayVec.{array_vec_len};
ghost use Rattle.da65.specs.Words.{image_message, include_message, info_message, missing_message, no_input_message, warnings_for};

use arrayvec::ArrayVec;
use info65::InfoFault;
use itoa::Buffer;
use map65::ImageFault;

/// The longest message names an include file of 255 bytes.
pub type Message = ArrayVec<u8, 320>;

fn put(out: &mut Message, bytes: &[u8])
    requires { array_vec_len out.old + length bytes.now ≤ 320 }
    ensures { out.new.items ≡ out.old.items ++ bytes.now }
{
    let taken = out.try_extend_from_slice(bytes);
    prove!(taken.is_ok());
}

fn put_decimal(out: &mut Message, number: u32)
    requires { array_vec_len out.old + 10 ≤ 320 }
    ensures items { out.new.items ≡ out.old.items ++ decimal number }
    ensures len { array_vec_len out.new ≤ array_vec_len out.old + 10 }
{
    let mut buffer = Buffer::new();
    put(out, buffer.format(number).as_bytes());
}

/// The message of a refused information file: the line, and the text of the fault.
#[tactic(auto, unfolding(crate::specs::Outcome::info_message))]
pub fn info_message(fault: InfoFault) -> Message
    ensures { result.items ≡ info_message fault }
{
    let mut out = Message::new();
    put(&mut out, b"da65: info:");
    put_decimal(&mut out, fault.line);
    put(&mut out, b": ");
    put(&mut out, fault.kind.text().as_bytes());
    put(&mut out, b"\n");
    out
}

/// The message of a refused include file of this name: the line, and the text of the fault.
#[tactic(auto, unfolding(crate::specs::Outcome::include_message))]
pub fn include_message(name: &[u8], fault: InfoFault) -> Message
    requires { length name.now ≤ 255 }
    ensures { result.items ≡ include_message name.now fault }
{
    let mut out = Message::new();
    put(&mut out, b"da65: include ");
    put(&mut out, name);
    put(&mut out, b":");
    put_decimal(&mut out, fault.line);
    put(&mut out, b": ");
    put(&mut out, fault.kind.text().as_bytes());
    put(&mut out, b"\n");
    out
}

/// The message if no file of this name is handed in.
#[tactic(auto, unfolding(crate::specs::Outcome::missing_message))]
pub fn missing_message(name: &[u8]) -> Message
    requires { length name.now ≤ 255 }
    ensures { result.items ≡ missing_message name.now }
{
    let mut out = Message::new();
    put(&mut out, b"da65: cannot read include ");
    put(&mut out, name);
    put(&mut out, b"\n");
    out
}

/// The message if no input is named.
#[tactic(auto, unfolding(crate::specs::Outcome::no_input_message))]
pub fn no_input_message() -> Message
    ensures { result.items ≡ no_input_message }
{
    let mut out = Message::new();
    put(&mut out, b"da65: no input file\n");
    out
}

/// The message of a refused input. Running out of memory has none.
#[tactic(auto, unfolding(crate::specs::Outcome::image_message))]
pub fn image_message(fault: ImageFault) -> &'static [u8]
    ensures message { result.now ≡ image_message fault }
    ensures len { length result.now ≤ 320 }
{
    match fault {
        ImageFault::Read => b"da65: cannot read the input\n",
        ImageFault::Short => b"da65: input is too short\n",
        ImageFault::Empty => b"da65: input is empty\n",
        ImageFault::TooLarge => b"da65: input is too large\n",
        ImageFault::Memory => b"",
    }
}

/// The warnings after a listing.
#[tactic(auto, unfolding(crate::specs::Outcome::entered_warning, crate::specs::Outcome::skipped_warning))]
pub fn warnings(has_skipped: bool, is_entered_again: bool) -> Message
    ensures { result.items ≡ warnings_for has_skipped is_entered_again }
{
    let mut out = Message::new();
    if has_skipped {
        put(
            &mut out,
            b"da65: warning: skipped bytes, the listing does not assemble to the image\n",
        );
    }
    if is_entered_again {
        put(&mut out, b"da65: warning: a segment is entered again\n");
    }
    out
}
