//! Targets of items: the addresses that they refer to.

ghost use Rattle.std.specs.Prelude.{◌≡◌, ◌+◌, ◌<◌, ◌≤◌, IsTrue, length};
ghost use Rattle.isa65.specs.Words.{len_of, row_len};
ghost use Rattle.map65.specs.Words.{branch_target, bytes_from, end_of, entry_of, is_inside, is_jump, item_len, only_inside, opcode_target, opcodes, operand_target, return_target, role_of, target_at, target_for, target_of, operand_word, word_target};

use crate::image::Image;
use crate::mapped_image::MappedImage;
use info65::{Entry, RangeType};
use isa65::{Mnemonic, Op, OpcodeSet, OperandKind, Pattern, Row};
use std::alloc::Allocator;

/// Returns the word after the opcode, low byte first.
pub fn operand_word(bytes: &[u8]) -> u16
    requires { 3 ≤ length bytes.now }
    /// Returns the word after an opcode.
    ensures { result ≡ operand_word bytes.now }
{
    u16::from(bytes[1]) + 256 * u16::from(bytes[2])
}

/// Returns the address that a branch leads to by its signed byte from `next`, the address after the instruction,
/// and `None` if the branch ends outside the address space.
#[tactic(auto, unfolding(crate::specs::Targets::target_of))]
pub fn target_of(next: u32, byte: u8) -> Option<u16>
    requires { next ≤ 65536 }
    /// Returns the address that a branch leads to, or None outside the address space.
    ensures { result ≡ target_of next byte }
{
    let byte = u32::from(byte);
    if byte < 128 {
        if next + byte < 65_536 {
            Some((next + byte) as u16)
        } else {
            None
        }
    } else {
        let back = 256 - byte;
        if back <= next {
            Some((next - back) as u16)
        } else {
            None
        }
    }
}

/// Returns whether an instruction of this mnemonic leads to its absolute operand.
pub fn is_jump(mnemonic: Mnemonic) -> bool
    ensures { result ≡ is_jump mnemonic }
{
    mnemonic == Mnemonic::Jmp || mnemonic == Mnemonic::Jsr
}

/// Returns whether the address, which may be $10000 or above, lies in the image.
pub fn is_inside<A: Allocator>(image: &Image<A>, address: usize) -> bool
    ensures value { result ≡ is_inside image.now address }
    ensures low { IsTrue result → image.now.start ≤ address }
    ensures high { IsTrue result → address < end_of image.now }
    ensures fits { IsTrue result → address < 65536 }
{
    usize::from(image.start()) <= address
        && address < usize::from(image.start()) + image.bytes().len()
}

/// Returns the address, if it lies in the image.
pub fn only_inside<A: Allocator>(image: &Image<A>, address: usize) -> Option<u16>
    ensures { result ≡ only_inside image.now address }
{
    if is_inside(image, address) {
        Some(address as u16)
    } else {
        None
    }
}

/// An item, as its target depends on it.
#[derive(Clone, Copy)]
struct Item<'a> {
    role: RangeType,
    len: u8,
    address: u16,
    /// The bytes of the image from the address on.
    bytes: &'a [u8],
}

/// Where a word leads, as the operand of an instruction in this pattern.
fn word_target<A: Allocator>(
    image: &Image<A>,
    mnemonic: Mnemonic,
    pattern: Pattern,
    word: u16,
) -> Option<u16>
    ensures { result ≡ word_target image.now mnemonic pattern word }
{
    match pattern {
        Pattern::Direct => {
            if is_jump(mnemonic) {
                return Some(word);
            }
            only_inside(image, usize::from(word))
        }
        _ => only_inside(image, usize::from(word)),
    }
}

/// Returns the address that a branch with these operands leads to, whose bytes these are; `next` is the address after
/// it. None if no operand is a distance, or if the branch ends outside the address space.
#[inline(always)]
pub fn branch_target(row: Row, next: u32, bytes: &[u8]) -> Option<u16>
    requires all { row_len row ≤ length bytes.now }
    requires room { next ≤ 65536 }
    ensures { result ≡ branch_target row next bytes.now }
{
    match row {
        Row::One(_, OperandKind::Distance) => target_of(next, bytes[1]),
        Row::Two(first, OperandKind::Distance) => {
            target_of(next, bytes[1 + usize::from(first.size())])
        }
        _ => None,
    }
}

/// The target of an instruction that lies whole in the image, and has these bytes first.
#[tactic(auto, unfolding(crate::specs::Targets::operand_target))]
fn operand_target<A: Allocator>(image: &Image<A>, op: Op, address: u16, bytes: &[u8]) -> Option<u16>
    requires all { len_of op.mode ≤ length bytes.now }
    requires room { address + len_of op.mode ≤ 65536 }
    ensures { result ≡ operand_target image.now op.mnemonic op.mode address bytes.now }
{
    let next = u32::from(address) + u32::from(op.mode.len());
    match op.mode.row() {
        Row::One(pattern, OperandKind::Word) => {
            word_target(image, op.mnemonic, pattern, operand_word(bytes))
        }
        row => branch_target(row, next, bytes),
    }
}

/// The target of an item of code: none if the opcode is undefined or cut.
fn code_target<A: Allocator>(mapped: &MappedImage<'_, A>, item: Item<'_>) -> Option<u16>
    requires some { 0 < length item.bytes.now }
    requires all { item.len ≤ length item.bytes.now }
    requires room { item.address + item.len ≤ 65536 }
    ensures { result ≡ opcode_target (opcodes mapped.now) mapped.now.image
        item.entry.len item.entry.address item.entry.bytes.now }
{
    match mapped.opcodes().decode(item.bytes[0]) {
        Some(op) => {
            if item.len == op.mode.len() {
                return operand_target(mapped.image(), op, item.address, item.bytes);
            }
            None
        }
        None => None,
    }
}

/// Returns the word of a table's entry, low byte first.
#[inline]
pub fn entry_of(bytes: &[u8]) -> u16
    requires { 2 ≤ length bytes.now }
    ensures { result ≡ entry_of bytes.now }
{
    u16::from(bytes[0]) + 256 * u16::from(bytes[1])
}

/// Returns the address that a return leads to with this word on the stack, and `None` for $FFFF.
pub fn return_target(word: u16) -> Option<u16>
    ensures { result ≡ return_target word }
{
    if word == 0xFFFF { None } else { Some(word + 1) }
}

/// The target of the item.
#[tactic(auto, unfolding(crate::specs::Targets::target_for))]
fn target_for<A: Allocator>(mapped: &MappedImage<'_, A>, item: Item<'_>) -> Option<u16>
    requires some { 0 < length item.bytes.now }
    requires all { item.len ≤ length item.bytes.now }
    requires room { item.address + item.len ≤ 65536 }
    ensures { result ≡ target_for mapped.now
        item.entry.role item.entry.len item.entry.address item.entry.bytes.now }
{
    match item.role.layout().entry {
        Entry::Instruction => code_target(mapped, item),
        Entry::Address => {
            if item.len == 2 {
                return Some(entry_of(item.bytes));
            }
            None
        }
        Entry::Return => {
            if item.len == 2 {
                return return_target(entry_of(item.bytes));
            }
            None
        }
        Entry::Number(_) | Entry::Character | Entry::Skipped => None,
    }
}

/// Returns the target of the item of this role and length that begins at the address.
#[tactic(auto, unfolding(crate::specs::Targets::target_at))]
pub fn target_at<A: Allocator>(
    mapped: &MappedImage<'_, A>,
    role: RangeType,
    len: u8,
    address: u16,
) -> Option<u16>
    requires low { mapped.now.image.start ≤ address }
    requires high { address < end_of mapped.now.image }
    requires room { address + len ≤ end_of mapped.now.image }
    requires role { role ≡ role_of mapped.now.info address }
    requires len { len ≡ item_len mapped.now address }
    ensures { result ≡ target_at mapped.now address }
{
    let image = mapped.image();
    let (_, bytes) = image.bytes().split_at(usize::from(address - image.start()));
    let item = Item {
        role,
        len,
        address,
        bytes,
    };
    target_for(mapped, item)
}
