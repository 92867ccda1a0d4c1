//! The instructions of an image, each read once.

ghost use Rattle.std.specs.Prelude.{◌≡◌, ◌+◌, ◌≤◌, IfOk, IfSome, None, length, option_and_then, option_copied, slice_get, unwrap_or};
ghost use Rattle.isa65.specs.Words.{len_of};
ghost use Rattle.map65.specs.Words.{only_inside};
ghost use Rattle.reach65.specs.Words.{AreSteps, IsStep, instruction_at, next_by};

use crate::flow::{Flow, bytes_from, goal_of, is_last};
use info65::Tag;
use isa65::{Mnemonic, Op, OperandKind, Row};
use map65::{Image, Map, Marks, only_inside, operand_word};
use std::alloc::{AllocError, Global};
use std::marker::Model;

/// An instruction of the image, and where it leads.
#[derive(Clone, Copy)]
pub struct Step {
    pub op: Op,
    /// The address after it and after the text behind it, unless that text does not end, or ends with $FFFF.
    pub end: Option<u16>,
    /// The address where code goes on behind it, in the image.
    pub next: Option<u16>,
    /// The address that it goes to by its operand.
    pub to: Option<u16>,
    /// The address that it goes to by its operand, if it lies in the image.
    pub goal: Option<u16>,
    /// The word that is its operand.
    pub operand: Option<u16>,
    /// The byte that is its operand, an immediate or an address of the zero page.
    pub byte: Option<u8>,
}

/// An instruction, and the address where it begins.
#[derive(Clone, Copy)]
pub struct Placed<'s> {
    pub at: u16,
    pub step: &'s Step,
}

impl Step {
    /// Returns how many bytes the instruction has.
    pub fn len(&self) -> usize {
        usize::from(self.op.mode.len())
    }
}

/// The word and the byte that is the operand of an instruction of these bytes.
fn operands(op: Op, bytes: &[u8]) -> (Option<u16>, Option<u8>) {
    match op.mode.row() {
        Row::One(_, OperandKind::Word) if 3 <= bytes.len() => (Some(operand_word(bytes)), None),
        Row::One(_, OperandKind::Byte | OperandKind::ZeroPage) => (None, bytes.get(1).copied()),
        _ => (None, None),
    }
}

/// The address, if it lies in the image.
fn inside(image: &Image, address: Option<u16>) -> Option<u16>
    ensures { result ≡ option_and_then (only_inside image.now) address }
{
    only_inside(image, usize::from(address?))
}

/// The address after an instruction and its text, which end before this one, if it leads there.
fn next_by(image: &Image, mnemonic: Mnemonic, end: Option<usize>) -> Option<u16>
    ensures { result ≡ next_by image.now mnemonic end }
{
    if is_last(mnemonic) {
        return None;
    }
    only_inside(image, end?)
}

/// The instruction that begins at the address, if one does.
#[tactic(auto, unfolding(crate::specs::Flow::next_at, crate::specs::Flow::goal_at, crate::specs::Flow::end_after, crate::specs::Flow::text_of))]
fn step_at(flow: &Flow<'_, '_>, at: u16) -> Option<Step>
    ensures { IsStep flow.now at result }
{
    let op = flow.instruction_at(at)?;
    let image = flow.map().image();
    let bytes = bytes_from(image, at);
    let after = usize::from(at) + usize::from(op.mode.len());
    let to = goal_of(op, at, bytes);
    let text = flow.text_by(op.mnemonic, to);
    let end = flow.end_by(after, text);
    let (operand, byte) = operands(op, bytes);
    Some(Step {
        op,
        end: u16::try_from(end.unwrap_or(0x1_0000)).ok(),
        next: next_by(image, op.mnemonic, end),
        to,
        goal: inside(image, to),
        operand,
        byte,
    })
}

/// The instructions of the image, by their addresses.
#[inline(never)]
#[tactic(auto, using(crate::proofs::StepsLemmas::steps_all))]
fn steps_of(alloc: Global, flow: &Flow<'_, '_>) -> Result<Vec<Option<Step>>, AllocError>
    ensures { IfOk result (λ steps. AreSteps flow.now steps.items) }
{
    let (start, len) = start_and_len(flow.map().image());
    let mut steps = Vec::with_capacity(alloc, len)?;
    'image: for k in 0..len {
        // What is none is stored quicker by itself.
        match step_at(flow, (start + k) as u16) {
            Some(step) => steps.push(Some(step))?,
            None => steps.push(None)?,
        }
    }
    Ok(steps)
}

/// The instruction at an index of the table, if it has one.
fn entry_of(steps: &[Option<Step>], index: usize) -> Option<&Step>
    ensures { option_copied result ≡ unwrap_or (slice_get steps.now index) None }
{
    steps.get(index)?.as_ref()
}

/// The instructions of the image of a map, each read once, with the groups `#: ..` of its information file.
#[derive(Drop)]
pub struct Steps<'f, 'm> {
    alloc: Global,
    flow: Flow<'f, 'm>,
    steps: Vec<Option<Step>>,
}

impl<'f, 'm> Model for Steps<'f, 'm> {
    ghost use Rattle.reach65.specs.Flow.{FlowView};
    ghost use Rattle.reach65.specs.Steps.{AreSteps};

    ghost Value = { FlowView };

    ghost view = { λ s. s.flow };

    ghost invariant = { λ s. AreSteps s.flow s.steps.items };
}

impl<'f, 'm> Steps<'f, 'm> {
    /// Reads what begins at each address of the image. Fails only if an allocation fails.
    pub fn of(alloc: Global, map: &'f Map<'m>, tags: &'f [Tag]) -> Result<Steps<'f, 'm>, AllocError>
        /// The steps are those of the map and the groups; or out of memory.
        ensures { IfOk result (λ s. s ≡ record { map = map.now; tags = tags.now }) }
    {
        let flow = Flow::new(alloc, map, tags)?;
        let steps = steps_of(alloc, &flow)?;
        Ok(Steps { alloc, flow, steps })
    }

    /// Returns what allocates.
    pub fn alloc(&self) -> Global {
        self.alloc
    }

    /// Returns the map.
    pub fn map(&self) -> &'f Map<'m>
        ensures { result.now ≡ self.now.map }
    {
        self.flow.map()
    }

    /// Returns the groups `#: ..`.
    pub fn tags(&self) -> &'f [Tag]
        ensures { result.now ≡ self.now.tags }
    {
        self.flow.tags()
    }

    /// Returns the image.
    pub fn image(&self) -> &'m Image
        ensures { result.now ≡ self.now.map.image }
    {
        self.map().image()
    }

    /// Returns the instruction that begins at the address, if one does.
    #[tactic(auto, using(crate::proofs::StepsLemmas::step_here))]
    pub fn at(&self, address: u16) -> Option<&Step>
        /// The instruction leads to the address after it, unless it is `jmp`, `bra`, `rts`, `rti` or `brk`, and to
        /// the target of a branch, or of `jmp` or `jsr` with an absolute address. Each must lie in the image. If a
        /// group INLINE names the address of a call, the call leads to the address after the text that follows it.
        ensures { IsStep self.now address (option_copied result) }
    {
        let start = self.image().start();
        if address < start {
            return None;
        }
        entry_of(&self.steps, usize::from(address - start))
    }

    /// Returns what begins at the address, if an instruction does.
    #[tactic(auto, using(crate::proofs::StepsLemmas::step_is_whole))]
    pub fn instruction_at(&self, address: u16) -> Option<Op>
        /// An address has an instruction exactly if it is code of the image, its opcode is defined, and all its
        /// bytes lie in the image.
        ensures value { result ≡ instruction_at self.now.map address }
        ensures whole { IfSome result (λ op. address + len_of op.mode ≤ 65536) }
    {
        let _ = start_and_len(self.image());
        match self.at(address) {
            Some(step) => Some(step.op),
            None => None,
        }
    }

    /// Returns for each byte of the image the instruction that begins there, if one does.
    pub fn all(&self) -> &[Option<Step>] {
        &self.steps
    }

    /// Returns the first group INLINE that names the address.
    pub fn inline_at(&self, address: u16) -> Option<Tag> {
        self.flow.inline_at(address)
    }

    /// Returns the length of the instruction that begins at the address, and 0 if none does.
    pub fn len_at(&self, address: u16) -> usize {
        match self.at(address) {
            Some(step) => step.len(),
            None => 0,
        }
    }

    /// Returns the instruction that begins at the address, if that is marked.
    pub fn marked(&self, marks: &Marks, at: u16) -> Option<Placed<'_>> {
        if !marks.get(at) {
            return None;
        }
        let step = self.at(at)?;
        Some(Placed { at, step })
    }

    /// Returns the marked instruction right behind this one and its text.
    pub fn behind(&self, marks: &Marks, placed: Placed<'_>) -> Option<Placed<'_>> {
        self.marked(marks, placed.step.end?)
    }
}

/// Returns where the image begins, and how many bytes it has.
pub fn start_and_len(image: &Image) -> (usize, usize)
    ensures start { result.0 ≡ image.now.start }
    ensures len { result.1 ≡ length image.now.bytes }
    ensures room { result.0 + result.1 ≤ 65536 }
{
    (usize::from(image.start()), image.bytes().len())
}
