//! A comparison of an image with a listing.

ghost use Rattle.std.specs.Prelude.{◌≡◌, Ok};
ghost use Rattle.as65.specs.Words.{Compares, CountsWrites, compared};

use crate::assembled::Listed;
use crate::differences::differences;
use crate::failure::Failure;
use crate::status::Ended;
use files65::write_text;
use map65::{Image, Sink};
use std::alloc::Global;

/// Compares an image with the bytes of a listing, and writes where they differ, and before that where labels leave the
/// address in their name. Both begin at the same address.
pub fn compare<W: Sink>(
    alloc: Global,
    image: &Image,
    assembled: &Listed<'_, '_, '_, '_>,
    out: &mut W,
) -> Result<Ended, Failure>
    /// Returns that nothing differs exactly if the bytes of the image are those that the listing means; then it
    /// writes nothing, and can't fail. Otherwise it writes a text as `differences` promises it, or a prefix of one
    /// if a write fails, or nothing if memory runs out. It fails for no other reason. The count of failed writes rises
    /// by one exactly if a write failed.
    ensures answer { Compares assembled.now.moves (compared image.now assembled.now)
        (W.taken out.old) (W.taken out.new) result }
    ensures count { CountsWrites (W.faults out.old) (W.faults out.new) result }
    ensures same { image.now.bytes ≡ assembled.now.bytes → result ≡ Ok Ended.Done }
{
    if image.bytes() == assembled.assembled().bytes() {
        return Ok(Ended::Done);
    }
    let text = differences(alloc, image, assembled)?;
    write_text(out, text.as_slice())?;
    Ok(Ended::Differs)
}
