//! Reached instructions that the listing does not show.

ghost use Rattle.std.specs.Prelude.{◌≡◌, IfOk};
ghost use Rattle.info65.specs.Words.{Adds};
ghost use Rattle.trace65.specs.Words.{is_unshown, unshown_in, unshown_items, unshown_lines};

use map65::{Map, Marks};
use reach65::Steps;
use std::alloc::{AllocError, Global};
use text65::put_address;

/// Whether an instruction is reached that begins at the address, and no item of the map begins there that is as long.
#[tactic(auto, unfolding(crate::specs::Unshown::is_unshown))]
fn is_unshown(shown: &Map<'_>, steps: &Steps<'_, '_>, reached: &Marks, address: u16) -> bool
    ensures { result ≡ is_unshown shown.now steps.now.map reached.now address }
{
    if !reached.get(address) {
        return false;
    }
    match steps.instruction_at(address) {
        Some(op) => shown.item_len(address) != op.mode.len(),
        None => false,
    }
}

/// Returns the addresses where a reached instruction begins but no item of the map that is as long, in their
/// order. Fails only if an allocation failed.
#[tactic(auto, unfolding(crate::specs::Unshown::unshown_in))]
pub fn unshown_of(
    alloc: Global,
    shown: &Map<'_>,
    steps: &Steps<'_, '_>,
    reached: &Marks,
) -> Result<Vec<u16>, AllocError>
    /// Returns exactly the addresses of the image where a reached instruction begins and no item that is as long,
    /// in order; or out of memory.
    ensures { IfOk result (λ found. found.items ≡ unshown_in shown.now steps.now.map reached.now) }
{
    let image = steps.image();
    let start = usize::from(image.start());
    let mut found = Vec::new(alloc);
    'image: for k in 0..image.bytes().len() {
        let address = (start + k) as u16;
        if is_unshown(shown, steps, reached, address) {
            found.push(address)?;
        }
    }
    Ok(found)
}

/// Adds these addresses to the comment.
#[tactic(auto, unfolding(crate::specs::Unshown::unshown_item))]
fn put_items(out: &mut Vec<u8>, addresses: &[u16]) -> Result<(), AllocError>
    ensures { Adds result out.old out.new (unshown_items addresses.now) }
{
    'addresses: for &address in addresses {
        put_address(out, b" $", usize::from(address))?;
    }
    Ok(())
}

/// Adds a comment that has these addresses, if there are any.
pub fn put_unshown(out: &mut Vec<u8>, addresses: &[u16]) -> Result<(), AllocError>
    ensures { Adds result out.old out.new (unshown_lines addresses.now) }
{
    if addresses.is_empty() {
        return Ok(());
    }
    out.extend_from_slice(b"# no item of its own:")?;
    put_items(out, addresses)?;
    out.extend_from_slice(b"\n")
}
