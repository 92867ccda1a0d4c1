//! Where instructions lead.

ghost use Rattle.std.specs.Prelude.{◌≡◌, ◌+◌, ◌≤◌, ◌<◌, length, IfOk, IfSome, None};
ghost use Rattle.isa65.specs.Words.{len_of, row_len};
ghost use Rattle.map65.specs.Words.{bytes_from, end_of};
ghost use Rattle.reach65.specs.Words.{HasText, end_by, goal_of, inline_of, instruction_at, is_last, row_goal, text_by, text_end};

use crate::inlines::{ends_of, firsts_of};
use info65::{RangeType, Tag};
use isa65::{DecodeTable, Mnemonic, Op, OpcodeSet, OperandKind, Pattern, Row};
use map65::{Image, Map, branch_target, is_jump, operand_word};
use std::alloc::{AllocError, Global};
use std::marker::Model;

/// What instructions are read by: a map, and the groups `#: ..` of its information file.
#[derive(Drop)]
pub struct Flow<'a, 'm> {
    map: &'a Map<'m>,
    opcodes: DecodeTable,
    tags: &'a [Tag],
    /// What [`firsts_of`] returns.
    firsts: Vec<usize>,
    /// What [`ends_of`] returns.
    ends: Vec<u32>,
}

impl<'a, 'm> Model for Flow<'a, 'm> {
    ghost use Rattle.std.specs.Prelude.{◌≡◌};
    ghost use Rattle.reach65.specs.Flow.{FlowView};
    ghost use Rattle.reach65.specs.Tables.{AreTables};

    ghost Value = { FlowView };

    ghost view = { λ f. record { map = f.map.now; tags = f.tags.now } };

    ghost invariant = { λ f. (f.opcodes ≡ f.map.now.info.settings.cpu) × AreTables f.map.now.image f.tags.now f.firsts.items f.ends.items };
}

/// Whether the next instruction does not run after it.
pub fn is_last(mnemonic: Mnemonic) -> bool
    ensures { result ≡ is_last mnemonic }
{
    mnemonic == Mnemonic::Jmp
        || mnemonic == Mnemonic::Bra
        || mnemonic == Mnemonic::Rts
        || mnemonic == Mnemonic::Rti
        || mnemonic == Mnemonic::Brk
}

/// The bytes of the image from an address of it on.
pub fn bytes_from(image: &Image, address: u16) -> &[u8]
    requires low { image.now.start ≤ address }
    requires high { address < end_of image.now }
    ensures bytes { result.now ≡ bytes_from image.now address }
    ensures some { 0 < length result.now }
    ensures len { address + length result.now ≡ end_of image.now }
    ensures room { end_of image.now ≤ 65536 }
{
    let (_, bytes) = image.bytes().split_at(usize::from(address - image.start()));
    bytes
}

/// The address that an instruction with these operands goes to by them; `next` is the address after it.
fn row_goal(mnemonic: Mnemonic, row: Row, next: u32, bytes: &[u8]) -> Option<u16>
    requires all { row_len row ≤ length bytes.now }
    requires room { next ≤ 65536 }
    ensures { result ≡ row_goal mnemonic row next bytes.now }
{
    match row {
        Row::One(Pattern::Direct, OperandKind::Word) => {
            if is_jump(mnemonic) {
                return Some(operand_word(bytes));
            }
            None
        }
        _ => branch_target(row, next, bytes),
    }
}

/// The address that an instruction of these bytes goes to by its operand.
#[tactic(auto, unfolding(crate::specs::Flow::goal_of))]
pub fn goal_of(op: Op, address: u16, bytes: &[u8]) -> Option<u16>
    requires all { len_of op.mode ≤ length bytes.now }
    requires room { address + len_of op.mode ≤ 65536 }
    ensures { result ≡ goal_of op.mnemonic op.mode address bytes.now }
{
    let next = u32::from(address) + u32::from(op.mode.len());
    row_goal(op.mnemonic, op.mode.row(), next, bytes)
}

impl<'a, 'm> Flow<'a, 'm> {
    /// The instructions of a map; the groups INLINE among these count. Fails if an allocation fails.
    pub fn new(alloc: Global, map: &'a Map<'m>, tags: &'a [Tag]) -> Result<Flow<'a, 'm>, AllocError>
        ensures { IfOk result (λ f. f ≡ record { map = map.now; tags = tags.now }) }
    {
        let firsts = firsts_of(alloc, tags)?;
        let ends = ends_of(alloc, map.image(), tags)?;
        Ok(Flow {
            map,
            opcodes: DecodeTable::new(map.info().settings().cpu),
            tags,
            firsts,
            ends,
        })
    }

    /// Returns the map.
    pub fn map(&self) -> &'a Map<'m>
        ensures { result.now ≡ self.now.map }
    {
        self.map
    }

    /// Returns the groups `#: ..`.
    pub fn tags(&self) -> &'a [Tag]
        ensures { result.now ≡ self.now.tags }
    {
        self.tags
    }

    /// Returns the instruction that begins at the address: `None` if the address is no code of the image, if its opcode
    /// is undefined, or if its bytes do not all lie in the image.
    #[tactic(auto, unfolding(crate::specs::Flow::instruction_at))]
    pub fn instruction_at(&self, address: u16) -> Option<Op>
        ensures value { result ≡ instruction_at self.now.map address }
        ensures low { IfSome result (λ _. self.now.map.image.start ≤ address) }
        ensures high { IfSome result (λ _. address < end_of self.now.map.image) }
        ensures whole { IfSome result (λ op. address + len_of op.mode ≤ end_of self.now.map.image) }
    {
        let Some(RangeType::Code) = self.map.role(address) else {
            return None;
        };
        let bytes = bytes_from(self.map.image(), address);
        match self.opcodes.decode(bytes[0]) {
            Some(op) if usize::from(op.mode.len()) <= bytes.len() => Some(op),
            _ => None,
        }
    }

    /// Returns the first group INLINE that names the address.
    #[tactic(auto, using(crate::proofs::TableLemmas::inline_none, crate::proofs::TableLemmas::inline_some))]
    pub fn inline_at(&self, address: u16) -> Option<Tag>
        ensures { result ≡ inline_of self.now.tags address }
    {
        let number = self.firsts.get(usize::from(address)).copied().unwrap_or(0);
        if number == 0 {
            return None;
        }
        self.tags.get(number - 1).copied()
    }

    /// The address after the first zero byte of the image from an address on.
    #[tactic(auto, using(crate::proofs::TableLemmas::text_inside))]
    fn zero_end(&self, address: usize) -> Option<usize>
        requires some { HasText self.now.tags }
        requires low { self.now.map.image.start ≤ address }
        ensures value { result ≡ text_end self.now.map.image None address }
        ensures below { IfSome result (λ _. address < 65536) }
    {
        let index = address - usize::from(self.map.image().start());
        let end = self.ends.get(index).copied().unwrap_or(0);
        if end == 0 {
            return None;
        }
        Some(end as usize - 1)
    }

    /// Returns what the information file says of the text behind an instruction that
    /// goes to this address by its operand.
    #[tactic(auto, using(crate::proofs::TableLemmas::has_text))]
    pub fn text_by(&self, mnemonic: Mnemonic, to: Option<u16>) -> Option<Tag>
        ensures value { result ≡ text_by self.now.tags mnemonic to }
        ensures some { IfSome result (λ _. HasText self.now.tags) }
    {
        if mnemonic != Mnemonic::Jsr {
            return None;
        }
        self.inline_at(to?)
    }

    /// Returns the address after the text of this group, if there is one, which stands at the address.
    #[tactic(auto, unfolding(crate::specs::Inlines::text_end))]
    pub fn end_by(&self, address: usize, text: Option<Tag>) -> Option<usize>
        requires low { self.now.map.image.start ≤ address }
        requires high { address ≤ 65536 }
        requires some { IfSome text (λ _. HasText self.now.tags) }
        ensures { result ≡ end_by self.now.map.image address text }
    {
        match text {
            None => Some(address),
            Some(tag) => match tag.size {
                Some(size) => Some(address + usize::from(size)),
                None => self.zero_end(address),
            },
        }
    }
}
