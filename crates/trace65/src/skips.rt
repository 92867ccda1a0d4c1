//! Ranges of the opcodes that hide an instruction in their operand, as the byte $2C does.

ghost use Rattle.std.specs.Prelude.{◌≡◌, IfOk};
ghost use Rattle.trace65.specs.Words.{AreSkips, is_skip, skip_range};

use info65::{RangeSpec, RangeType};
use map65::Marks;
use reach65::Steps;
use std::alloc::{AllocError, Global};

/// Whether a reached instruction with an operand begins at the address, and another one at its operand.
#[tactic(auto, unfolding(crate::specs::Skips::is_skip))]
fn is_skip(steps: &Steps<'_, '_>, reached: &Marks, address: u16) -> bool
    ensures { result ≡ is_skip steps.now.map reached.now address }
{
    if !reached.get(address) {
        return false;
    }
    match steps.instruction_at(address) {
        Some(op) if 1 < op.mode.len() => {
            let inner = address + 1;
            reached.get(inner) && steps.instruction_at(inner).is_some()
        }
        _ => false,
    }
}

/// The byte of the address, as a table of bytes.
fn byte_of(address: u16) -> RangeSpec
    ensures { result ≡ skip_range address }
{
    RangeSpec {
        first: address,
        last: address,
        role: RangeType::ByteTable,
    }
}

/// Returns a range of one byte for each of these addresses where a reached instruction with an operand begins, and
/// another one at its operand. Fails only if an allocation failed.
#[tactic(auto, using(crate::proofs::SkipsLemmas::skips_none, crate::proofs::SkipsLemmas::skips_more))]
pub fn skips_of(
    alloc: Global,
    steps: &Steps<'_, '_>,
    reached: &Marks,
    chosen: &[u16],
) -> Result<Vec<RangeSpec>, AllocError>
    /// Returns tables of one byte only, each the opcode of a reached instruction at whose operand another one
    /// begins; or out of memory.
    ensures { IfOk result (λ list. AreSkips steps.now.map reached.now list.items) }
{
    let mut found = Vec::new(alloc);
    'chosen: for &address in chosen {
        if is_skip(steps, reached, address) {
            found.push(byte_of(address))?;
        }
    }
    Ok(found)
}
