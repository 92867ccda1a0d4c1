//! What reads as code: each instruction is fine, and none shares a byte with another one.

use crate::Steps;
use info65::RangeType;
use isa65::{Mnemonic, Mode, Op};
use map65::Marks;
use reach65::{Step, is_last};

/// Returns whether an instruction begins at the address, if there is one.
pub fn begins(steps: &Steps<'_>, address: Option<u16>) -> bool {
    matches!(address, Some(address) if steps.at(address).is_some())
}

/// Returns whether that many instructions from the address on read as code, or fewer up to one behind which code does
/// not go on: each decodes, and none is `brk`.
pub fn reads_on(steps: &Steps<'_>, from: Option<u16>, count: usize) -> bool {
    let mut at = from;
    for _ in 0..count {
        let Some(address) = at else { return false };
        let Some(step) = steps.at(address) else {
            return false;
        };
        if step.next.is_none() {
            return is_last(step.op.mnemonic) && step.op.mnemonic != Mnemonic::Brk;
        }
        at = step.next;
    }
    true
}

/// Whether the instruction is a branch.
fn is_branch(step: &Step) -> bool {
    matches!(step.op.mode, Mode::Rel | Mode::Zprel)
}

/// Whether code may stand at an address below $0100 outside the image: it has a name, or the image stores to it.
fn is_filled(steps: &Steps<'_>, stored: &Marks, to: u16) -> bool {
    stored.get(to) || steps.map().info().covering(to).is_some()
}

/// Whether the instruction leads to another one by its operand, or a jump leaves the image. One to $0000 is filled in
/// at run time, and the zero page has code only where it is filled.
fn leads_well(steps: &Steps<'_>, stored: &Marks, step: &Step) -> bool {
    let Some(to) = step.to else {
        return !is_branch(step);
    };
    if step.goal.is_some() {
        return begins(steps, step.goal);
    }
    !is_branch(step)
        && (0x100 <= to
            || (to == 0 && step.op.mnemonic == Mnemonic::Jmp)
            || is_filled(steps, stored, to))
}

/// Returns whether the instruction is no `brk`, and instructions begin where it leads, but for one byte that is passed
/// over. `stored` has the addresses of
/// the zero page that the image stores to.
pub fn is_fine(steps: &Steps<'_>, stored: &Marks, step: &Step) -> bool {
    step.op.mnemonic != Mnemonic::Brk
        && (is_last(step.op.mnemonic) || goes_on(steps, step.next))
        && leads_well(steps, stored, step)
}

/// Returns where the marked instruction begins that the address lies inside of. An instruction has at most three bytes.
pub fn holder_of(steps: &Steps<'_>, marks: &Marks, address: u16) -> Option<u16> {
    for distance in [1u16, 2] {
        let at = address.checked_sub(distance)?;
        if marks.get(at) && usize::from(distance) < steps.len_at(at) {
            return Some(at);
        }
    }
    None
}

/// Returns whether the instruction may hide another one in its operand, as `.byte $2C` does: `bit`, and a load or a
/// comparison with a number.
pub fn hides(op: Op) -> bool {
    match op.mnemonic {
        Mnemonic::Bit => matches!(op.mode, Mode::Abs | Mode::Zp | Mode::Imm),
        Mnemonic::Lda | Mnemonic::Ldx | Mnemonic::Ldy => op.mode == Mode::Imm,
        Mnemonic::Cmp | Mnemonic::Cpx | Mnemonic::Cpy => op.mode == Mode::Imm,
        _ => false,
    }
}

/// Whether the operand at the first address is an instruction at the second one, and both end there: the opcode skips
/// that instruction.
fn is_hidden(steps: &Steps<'_>, outer: u16, inner: u16) -> bool {
    matches!(steps.at(outer), Some(step)
        if hides(step.op) && steps.len_at(inner).saturating_add(1) == step.len())
}

/// Returns whether code goes on behind the byte at the address: a range of the information file has this byte alone,
/// and what stands right before and behind it is none of another type than code.
pub fn is_passed(steps: &Steps<'_>, address: u16) -> bool {
    let map = steps.map();
    let role = map.role(address);
    role.is_some()
        && role != Some(RangeType::Code)
        && map.is_code(address.saturating_sub(1))
        && map.is_code(address.saturating_add(1))
}

/// Returns whether code may go on at the address, if there is one: an instruction begins there, or behind a byte that
/// is passed over.
fn goes_on(steps: &Steps<'_>, address: Option<u16>) -> bool {
    begins(steps, address)
        || matches!(address, Some(at)
            if is_passed(steps, at) && steps.at(at.saturating_add(1)).is_some())
}

/// Whether the instruction of the address has the one so far behind it, where another one begins: that
/// is marked, and not hidden in a `bit`.
fn clashes(steps: &Steps<'_>, marks: &Marks, outer: u16, distance: u16) -> bool {
    let inner = outer.saturating_add(distance);
    marks.get(inner)
        && usize::from(distance) < steps.len_at(outer)
        && !(distance == 1 && is_hidden(steps, outer, inner))
}

/// Returns whether the instruction of the address, which is marked, shares no byte with another one, but for one in the
/// operand of one that hides it: with none that begins behind it, and with none of those before it that have `code`.
pub fn is_apart(steps: &Steps<'_>, marks: &Marks, code: &Marks, address: u16) -> bool {
    let len = steps.len_at(address);
    if 1 < len && clashes(steps, marks, address, 1)
        || 2 < len && clashes(steps, marks, address, 2)
    {
        return false;
    }
    for distance in [1u16, 2] {
        let outer = address.wrapping_sub(distance);
        if code.get(address)
            && outer < address
            && marks.get(outer)
            && clashes(steps, marks, outer, distance)
        {
            return false;
        }
    }
    true
}
