//! Pairs of immediates that form an address.

use crate::Steps;
use isa65::Mnemonic::{
    self, Adc, Clc, Cmp, Cpx, Cpy, Dey, Iny, Jsr, Lda, Ldx, Ldy, Pha, Pla, Sbc, Sec, Sta, Stx, Sty,
    Tax, Tay, Txa, Tya,
};
use isa65::{Mode, Op};
use map65::Marks;
use reach65::{Placed, Step};

/// How many instructions may stand between two stores through a pointer.
const BETWEEN: usize = 8;

/// How many instructions behind a store may use its pointer with an index.
const NEAR: usize = 4;

/// How many instructions behind a comparison the one with the other half may be.
const APART: usize = 3;

/// The rank of bytes that are added.
const ADDED: u8 = 8;

/// The rank of bytes that are pushed.
const PUSHED: u8 = 9;

/// The rank of bytes that are compared with.
const COMPARED: u8 = 10;

/// How many ranks there are.
pub const RANKS: u8 = 11;

/// Where the first of two stores through a pointer goes, as if the pointer were known.
const PLACE: u16 = 0x80;

/// Two immediates that form an address.
#[derive(Clone, Copy)]
pub struct Pair {
    /// Where its low byte stands.
    pub low: u16,
    /// Where its high byte stands.
    pub high: u16,
    /// The address that they form.
    pub address: u16,
    /// How much less that is than the address that is meant: 1 for one to which `rts` leads.
    pub less: u16,
    /// How likely it is meant, if other pairs have one of its bytes: of two the one of the lower rank is likelier. It
    /// is 0 for bytes that are stored to neighbours, 1 to 6 by the registers, 7 through a pointer, 8 for bytes that are
    /// added, 9 for bytes that are pushed, and 10 for bytes that are compared with.
    pub rank: u8,
}

impl Pair {
    /// The pair of the immediates of these instructions.
    fn of(rank: u8, low: Placed<'_>, high: Placed<'_>) -> Option<Pair> {
        Some(Pair {
            low: low.at.checked_add(1)?,
            high: high.at.checked_add(1)?,
            address: u16::from_le_bytes([low.step.byte?, high.step.byte?]),
            less: u16::from(rank == PUSHED),
            rank,
        })
    }

    /// The pair of the immediates that are stored to these places, if those are neighbours.
    fn of_neighbours(rank: u8, one: (Placed<'_>, u16), two: (Placed<'_>, u16)) -> Option<Pair> {
        if one.1.checked_add(1) == Some(two.1) {
            Pair::of(rank, one.0, two.0)
        } else if two.1.checked_add(1) == Some(one.1) {
            Pair::of(rank, two.0, one.0)
        } else {
            None
        }
    }

    /// The pair of two loads of different registers. Its rank is that of the registers.
    fn of_loads(low: Placed<'_>, high: Placed<'_>) -> Option<Pair> {
        let rank = match (low.step.op.mnemonic, high.step.op.mnemonic) {
            (Lda, Ldx) => 1,
            (Ldx, Ldy) => 2,
            (Lda, _) => 3,
            (Ldx, _) => 4,
            (_, Lda) => 5,
            _ => 6,
        };
        Pair::of(rank, low, high)
    }

    /// Returns the address that is meant.
    pub fn meant(&self) -> usize {
        usize::from(self.address).saturating_add(usize::from(self.less))
    }

    /// Returns whether it is an address more often than two numbers: its low half is not zero, its high half is not in
    /// A if the low one is in X or Y, the first load is not one of Y and the second one of X, and they are not
    /// compared with.
    pub fn is_plausible(&self) -> bool {
        self.meant() % 256 != 0 && self.has_usual_form()
    }

    /// Returns whether it is an address more often than two numbers, whatever its low half is.
    pub fn has_usual_form(&self) -> bool {
        self.rank != 4
            && self.rank != 5
            && self.rank != COMPARED
            && !(self.rank == 6 && self.low < self.high)
            && !(self.rank == 2 && self.high < self.low)
    }
}

/// Whether the instruction loads an immediate into a register.
fn is_load(op: Op) -> bool {
    op.mode == Mode::Imm && matches!(op.mnemonic, Lda | Ldx | Ldy)
}

/// Returns whether a pair may begin with the instruction.
pub fn may_begin(op: Op) -> bool {
    match op.mnemonic {
        Clc | Sec => true,
        Lda | Ldx | Ldy | Adc | Cmp | Cpx | Cpy | Sbc => op.mode == Mode::Imm,
        _ => false,
    }
}

/// Whether it compares a register with an immediate, or takes one away from A.
fn is_compare(op: Op) -> bool {
    op.mode == Mode::Imm && matches!(op.mnemonic, Cmp | Cpx | Cpy | Sbc)
}

/// Whether the instruction has this mnemonic, and an immediate.
fn is_with(op: Op, mnemonic: Mnemonic) -> bool {
    op.mode == Mode::Imm && op.mnemonic == mnemonic
}

/// Returns the address to which the instruction stores a register, if it does.
pub fn stored_to(step: &Step) -> Option<u16> {
    match (step.op.mnemonic, step.op.mode) {
        (Sta | Stx | Sty, Mode::Abs) => step.operand,
        (Sta | Stx | Sty, Mode::Zp) => step.byte.map(u16::from),
        _ => None,
    }
}

/// The address from which the instruction loads a register, if it does.
fn loaded_from(step: &Step) -> Option<u16> {
    match (step.op.mnemonic, step.op.mode) {
        (Lda | Ldx | Ldy, Mode::Abs) => step.operand,
        (Lda | Ldx | Ldy, Mode::Zp) => step.byte.map(u16::from),
        _ => None,
    }
}

/// The instructions of an image, and where those begin that are reached.
#[derive(Clone, Copy)]
struct Code<'a> {
    steps: &'a Steps<'a>,
    marks: &'a Marks,
}

impl<'a> Code<'a> {
    /// The reached instruction right behind this one.
    fn behind(&self, placed: Placed<'a>) -> Option<Placed<'a>> {
        self.steps.behind(self.marks, placed)
    }

    /// The pair of two loads of one register, each with what keeps it: two stores to neighbours, or `pha` for `rts`,
    /// where the high half comes first.
    fn kept_twice(&self, one: Placed<'a>, then: Placed<'a>) -> Option<Pair> {
        let keeps = then.step.op.mnemonic;
        let to = match (one.step.op.mnemonic, keeps) {
            (Lda, Pha) => None,
            (Lda, Sta) | (Ldx, Stx) | (Ldy, Sty) => Some(stored_to(then.step)?),
            _ => return None,
        };
        let two = self.behind(then)?;
        let last = self.behind(two)?;
        if two.step.op != one.step.op || last.step.op.mnemonic != keeps {
            return None;
        }
        match to {
            None => Pair::of(PUSHED, two, one),
            Some(to) => Pair::of_neighbours(0, (one, to), (two, stored_to(last.step)?)),
        }
    }

    /// The pair that is stored through a pointer: `lda #`, `sta (p),y` here, and the same again after one `iny` or
    /// `dey`, with other instructions between them.
    fn stored_twice(&self, one: Placed<'a>, store: Placed<'a>) -> Option<Pair> {
        let pointer = stored_through(store.step)?;
        if one.step.op.mnemonic != Lda {
            return None;
        }
        let mut then = self.behind(store)?;
        let mut to = PLACE;
        for _ in 0..BETWEEN {
            match then.step.op.mnemonic {
                Iny => to = to.saturating_add(1),
                Dey => to = to.saturating_sub(1),
                Jsr => return None,
                Lda if then.step.op.mode == Mode::Imm => {
                    if stored_through(self.behind(then)?.step)? != pointer {
                        return None;
                    }
                    return Pair::of_neighbours(7, (one, PLACE), (then, to));
                }
                _ => {}
            }
            then = self.steps.marked(self.marks, then.step.next?)?;
        }
        None
    }

    /// The pair that is added to a number: `clc`, `adc #`, and `adc #` again, with one instruction between them that
    /// takes the low half away, and one that brings the high half of the number.
    fn added_twice(&self, first: Placed<'a>) -> Option<Pair> {
        if first.step.op.mnemonic != Clc {
            return None;
        }
        let low = self.behind(first)?;
        let takes = self.behind(low)?;
        let brings = self.behind(takes)?;
        let high = self.behind(brings)?;
        let keeps = keeps_carry(takes.step.op) && keeps_carry(brings.step.op);
        let adds = is_with(low.step.op, Adc) && is_with(high.step.op, Adc);
        (keeps && adds).then_some(Pair::of(ADDED, low, high)?)
    }

    /// The pair that is added without a `clc` before it: `adc #`, a store, and what brings the high half of a number,
    /// to which `adc #` adds the other one; or `lda #` brings that, and `adc #0` adds the carry. A store follows.
    fn added_on(&self, low: Placed<'a>) -> Option<Pair> {
        let takes = self.behind(low)?;
        let brings = self.behind(takes)?;
        let sum = self.behind(brings)?;
        let last = self.behind(sum)?;
        let fits = takes.step.op.mnemonic == Sta
            && matches!(brings.step.op.mnemonic, Lda | Txa | Tya)
            && is_with(sum.step.op, Adc)
            && last.step.op.mnemonic == Sta;
        let is_carry = is_load(brings.step.op) && sum.step.byte == Some(0);
        let high = if is_carry { brings } else { sum };
        fits.then_some(Pair::of(ADDED, low, high)?)
    }

    /// The pair whose low half is an index: `adc #` adds the high one, which is stored to the high byte of a pointer,
    /// `ldy #` loads the low one, and one of the next instructions uses the pointer with it.
    fn indexed_through(&self, high: Placed<'a>) -> Option<Pair> {
        let store = self.behind(high)?;
        let to = match (store.step.op.mnemonic, store.step.op.mode) {
            (Sta, Mode::Zp) => store.step.byte?,
            _ => return None,
        };
        let mut low = None;
        let mut then = store;
        for _ in 0..NEAR {
            then = self.steps.marked(self.marks, then.step.next?)?;
            let op = then.step.op;
            if then.step.to.is_some() {
                return None;
            }
            if op.mnemonic == Ldy && op.mode == Mode::Imm && low.is_none() {
                low = Some(then);
            } else if op.mode == Mode::Indy && then.step.byte == to.checked_sub(1) {
                return Pair::of(ADDED, low?, high);
            }
        }
        None
    }

    /// Where the instruction right before this one loads a register from, if it does.
    fn loaded_before(&self, placed: Placed<'a>) -> Option<u16> {
        for distance in [2u16, 3] {
            let at = placed.at.checked_sub(distance)?;
            if let Some(before) = self.steps.marked(self.marks, at)
                && before.step.end == Some(placed.at)
                && let Some(from) = loaded_from(before.step)
            {
                return Some(from);
            }
        }
        None
    }

    /// The pair that is taken away: `sec`, `sbc #`, and `sbc #` again, with one instruction between them that takes
    /// the low half away, and one that brings the high half of the number.
    fn taken_twice(&self, first: Placed<'a>) -> Option<Pair> {
        if first.step.op.mnemonic != Sec {
            return None;
        }
        let low = self.behind(first)?;
        let takes = self.behind(low)?;
        let brings = self.behind(takes)?;
        let high = self.behind(brings)?;
        let keeps = keeps_carry(takes.step.op) && keeps_carry(brings.step.op);
        let fits = keeps && is_with(low.step.op, Sbc) && is_with(high.step.op, Sbc);
        fits.then_some(Pair::of(COMPARED, low, high)?)
    }

    /// The pair to which a number is added, or from which one is taken away: `lda #`, `clc` and `adc`, or `sec` and
    /// `sbc`, what keeps the low half, and `lda #` and the sum again, with no more than an instruction that changes Y
    /// before each of the others.
    fn summed(&self, low: Placed<'a>, then: Placed<'a>) -> Option<Pair> {
        if low.step.op.mnemonic != Lda {
            return None;
        }
        let carry = self.past_y(then)?;
        let (rank, sum) = match carry.step.op.mnemonic {
            Clc => (ADDED, Adc),
            Sec => (COMPARED, Sbc),
            _ => return None,
        };
        let first = self.past_y(self.behind(carry)?)?;
        let keeps = self.behind(first)?;
        let high = self.past_y(self.behind(keeps)?)?;
        let second = self.past_y(self.behind(high)?)?;
        let fits = first.step.op.mnemonic == sum
            && second.step.op.mnemonic == sum
            && keeps_carry(keeps.step.op)
            && is_load(high.step.op)
            && high.step.op.mnemonic == Lda;
        fits.then_some(Pair::of(rank, low, high)?)
    }

    /// This instruction, or the one behind it if it changes Y.
    fn past_y(&self, then: Placed<'a>) -> Option<Placed<'a>> {
        match then.step.op.mnemonic {
            Ldy | Iny | Dey => self.behind(then),
            _ => Some(then),
        }
    }

    /// The pair with which A and another register are compared, with a branch between: the low half is in A.
    fn compared_registers(&self, one: Placed<'a>) -> Option<Pair> {
        let branch = self.behind(one)?;
        let two = self.behind(branch)?;
        let is_in_a = one.step.op.mnemonic == Cmp;
        if branch.step.op.mode != Mode::Rel
            || !is_compare(two.step.op)
            || is_in_a == (two.step.op.mnemonic == Cmp)
        {
            return None;
        }
        let (low, high) = if is_in_a { (one, two) } else { (two, one) };
        Pair::of(COMPARED, low, high)
    }

    /// The pair of an end: one half of a pointer is loaded and compared with an immediate, and little later so is the
    /// other half, which may be taken away.
    fn compared_twice(&self, one: Placed<'a>) -> Option<Pair> {
        let from = self.loaded_before(one)?;
        let mut then = one;
        for _ in 0..APART {
            then = self.steps.marked(self.marks, then.step.next?)?;
            if then.step.op.mnemonic == Jsr {
                return None;
            }
            if is_compare(then.step.op) {
                let other = self.loaded_before(then)?;
                return Pair::of_neighbours(COMPARED, (one, from), (then, other));
            }
        }
        None
    }

    /// The pairs of which this instruction is the first.
    fn pairs_of(&self, one: Placed<'a>) -> [Option<Pair>; 3] {
        if is_with(one.step.op, Adc) {
            return [self.added_on(one), self.indexed_through(one), None];
        }
        if is_compare(one.step.op) {
            return [self.compared_twice(one), self.compared_registers(one), None];
        }
        if !is_load(one.step.op) {
            return [self.added_twice(one).or(self.taken_twice(one)), None, None];
        }
        let Some(two) = self.behind(one) else {
            return [None; 3];
        };
        if !is_load(two.step.op) {
            let kept = self.kept_twice(one, two);
            return [
                kept.or(self.stored_twice(one, two)),
                self.summed(one, two),
                None,
            ];
        }
        if one.step.op == two.step.op {
            return [None; 3];
        }
        let through = if two.step.op.mnemonic == Ldy
            && let Some(store) = self.behind(two)
        {
            self.stored_twice(one, store)
        } else {
            None
        };
        let more = through.or(self.summed(one, two));
        [Pair::of_loads(one, two), Pair::of_loads(two, one), more]
    }
}

/// Returns the pairs of which the instruction is the first: two loads of different registers, one right behind the
/// other, or one of the forms above; a `ldy #` may stand before a store through a pointer.
pub fn pairs_at(steps: &Steps<'_>, marks: &Marks, first: Placed<'_>) -> [Option<Pair>; 3] {
    Code { steps, marks }.pairs_of(first)
}

/// Whether the instruction moves a byte, and leaves the carry.
fn keeps_carry(op: Op) -> bool {
    matches!(op.mnemonic, Sta | Tax | Tay | Pha | Lda | Txa | Tya | Pla)
}

/// The pointer in the zero page through which the instruction stores A.
fn stored_through(step: &Step) -> Option<u8> {
    match (step.op.mnemonic, step.op.mode) {
        (Sta, Mode::Indy) => step.byte,
        _ => None,
    }
}
