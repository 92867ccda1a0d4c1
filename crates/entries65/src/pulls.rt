//! Routines that pull their return address and read what stands behind their calls: a text up to a zero byte, behind
//! which they go on, or a word of a table through which they jump.

use crate::declared::tagged;
use info65::{Tag, TagKind};
use isa65::Mnemonic::{
    Adc, Asl, Beq, Bne, Clc, Inc, Iny, Jmp, Lda, Ldx, Ldy, Pha, Pla, Rti, Rts, Sta, Stx, Sty, Tax,
    Tay,
};
use isa65::{DecodeTable, Mode, Op, OpcodeSet};
use map65::{Map, Marks, is_inside};
use reach65::image::{address, byte, ends, given, word};
use std::alloc::{AllocError, Global};

/// How many instructions a routine may have until it has stored its return address.
const PULLS: usize = 10;

/// How many may follow until it leaves.
const READS: usize = 40;

/// The opcode of a call.
const CALL: u8 = 0x20;

/// The opcode of `pla`.
const PULL: u8 = 0x68;

/// How many bytes the first `pla` of a routine may be before the second one.
const APART: usize = 12;

/// The entry of ProDOS: behind each call of it stand the number of a command and the address of its parameters.
pub const PRODOS: u16 = 0xBF00;

/// What a routine reads behind its calls.
#[derive(Clone, Copy)]
pub enum Behind {
    /// A text that ends with a zero byte.
    Text,
    /// Words of a table through one of which it jumps.
    Words,
}

/// An instruction, the byte behind its opcode, and the address after it.
#[derive(Clone, Copy)]
struct Read {
    op: Op,
    operand: u8,
    next: usize,
}

/// An image whose routines are looked at.
#[derive(Drop)]
struct Routines<'a, 'm> {
    map: &'a Map<'m>,
    opcodes: DecodeTable,
}

impl Routines<'_, '_> {
    /// The instruction that begins at the address, if one does.
    fn at(&self, at: usize) -> Option<Read> {
        let image = self.map.image();
        let op = self.opcodes.decode(byte(image, at)?)?;
        let is_code = self.map.is_code(address(at)?);
        is_code.then_some(Read {
            op,
            operand: byte(image, at.saturating_add(1)).unwrap_or(0),
            next: at.saturating_add(usize::from(op.mode.len())),
        })
    }

    /// The pointer in the zero page to which the routine has pulled its return address, and where it goes on: it pulls
    /// two bytes, and stores them to neighbours.
    fn pulled(&self, routine: usize) -> Option<(u8, usize)> {
        let mut at = routine;
        let (mut pulls, mut first) = (0u32, None);
        for _ in 0..PULLS {
            let Read { op, operand, next } = self.at(at)?;
            let is_store = matches!(op.mnemonic, Sta | Stx | Sty);
            if op.mnemonic == Pla {
                pulls = pulls.saturating_add(1);
            } else if is_store && op.mode == Mode::Zp && 0 < pulls {
                match first {
                    Some(one) if pulls == 2 && operand.abs_diff(one) == 1 => {
                        return Some((operand.min(one), next));
                    }
                    _ => first = Some(operand),
                }
            } else if !is_store
                && !matches!(
                    op.mnemonic,
                    Tax | Tay | Asl | Ldx | Ldy | Iny | Clc | Adc | Bne | Inc
                )
            {
                return None;
            }
            at = next;
        }
        None
    }

    /// What the routine reads behind its calls, if it is one that does.
    fn behind(&self, routine: usize) -> Option<Behind> {
        let (pointer, mut at) = self.pulled(routine)?;
        let (mut reads, mut ends, mut pushes) = (false, false, 0u32);
        for _ in 0..READS {
            let Read { op, operand, next } = self.at(at)?;
            match (op.mnemonic, op.mode) {
                (Lda, Mode::Indy | Mode::Indx | Mode::Zpind) if operand == pointer => {
                    reads = true;
                    let then = self.at(next);
                    ends = ends || matches!(then, Some(then) if then.op.mnemonic == Beq);
                }
                (Pha, _) => pushes = pushes.saturating_add(1),
                (Jmp, Mode::Ind) if reads && !ends => return Some(Behind::Words),
                (Jmp, Mode::Ind) => return ends.then_some(Behind::Text),
                (Rts, _) => return (ends && 2 <= pushes).then_some(Behind::Text),
                (Jmp, _) => {
                    let to = usize::from(word(self.map.image(), at.saturating_add(1))?);
                    if to < routine || at < to {
                        return None;
                    }
                }
                (Rti, _) => return None,
                _ => {}
            }
            at = next;
        }
        None
    }
}

/// The words behind a call: where they begin and end.
#[derive(Clone, Copy)]
pub struct Words {
    pub call: u16,
    pub end: u16,
}

/// The routines that read what stands behind their calls.
#[derive(Drop)]
pub struct Pulls {
    /// Those that read a text, but for those that a group INLINE names.
    pub texts: Vec<u16>,
    /// The words behind calls of the others.
    pub words: Vec<Words>,
    /// Whether ProDOS is called.
    pub calls_prodos: bool,
}

/// Whether the bytes at the address call ProDOS, with the number of a command behind them.
fn is_prodos(map: &Map<'_>, at: usize, to: u16) -> bool {
    let command = byte(map.image(), at.saturating_add(3));
    to == PRODOS
        && !is_inside(map.image(), usize::from(PRODOS))
        && matches!(command, Some(0x40 | 0x41 | 0x65 | 0x80..=0x82 | 0xC0..=0xD3))
}

/// The end of the words at the address, which nothing speaks for: up to the least address among them that lies behind
/// them, or to one outside the image.
fn words_end(map: &Map<'_>, given: &Marks, from: usize) -> usize {
    let image = map.image();
    let (_, mut end) = ends(image);
    let mut at = from;
    for _ in from..end {
        let next = at.saturating_add(2);
        let Some(to) = word(image, at) else {
            break;
        };
        let is_open = !given.get_at(at) && !given.get_at(at.saturating_add(1));
        if end < next || !is_open || !is_inside(image, usize::from(to)) {
            break;
        }
        if at < usize::from(to) {
            end = end.min(usize::from(to));
        }
        at = next;
    }
    at
}

/// The addresses where the bytes are a call, and what it calls.
fn calls_of(alloc: Global, map: &Map<'_>) -> Result<Vec<(u16, u16)>, AllocError> {
    let mut calls = Vec::new(alloc);
    let image = map.image();
    let (start, end) = ends(image);
    for (at, &opcode) in (start..end).zip(image.bytes()) {
        if opcode == CALL
            && let Some(here) = address(at)
            && let Some(to) = word(image, at.saturating_add(1))
        {
            calls.push((here, to))?;
        }
    }
    Ok(calls)
}

/// The words behind the calls of these routines.
fn words_of(
    alloc: Global,
    map: &Map<'_>,
    calls: &[(u16, u16)],
    routines: &Marks,
) -> Result<Vec<Words>, AllocError> {
    let mut found = Vec::new(alloc);
    let given = given(alloc, map.info())?;
    let mut last = 0;
    for &(call, to) in calls {
        let from = usize::from(call).saturating_add(3);
        if routines.get(to) && last <= usize::from(call) {
            let end = words_end(map, &given, from);
            last = end;
            if from < end
                && let Some(end) = address(end)
            {
                found.push(Words { call, end })?;
            }
        }
    }
    Ok(found)
}

/// Whether the bytes may have a routine that pulls two bytes, or a call of ProDOS. Most images have neither.
fn may_have(bytes: &[u8]) -> bool {
    let mut last: Option<usize> = None;
    for (index, &byte) in bytes.iter().enumerate() {
        if byte == PULL {
            if matches!(last, Some(last) if index.saturating_sub(last) <= APART) {
                return true;
            }
            last = Some(index);
        } else if byte == 0xBF && bytes.get(index.saturating_sub(2)) == Some(&CALL) {
            return true;
        }
    }
    false
}

/// Returns the routines of the image that read what stands behind their calls, by the form of their code.
pub fn pulls_of(alloc: Global, map: &Map<'_>, tags: &[Tag]) -> Result<Pulls, AllocError> {
    let mut found = Pulls {
        texts: Vec::new(alloc),
        words: Vec::new(alloc),
        calls_prodos: false,
    };
    if !may_have(map.image().bytes()) {
        return Ok(found);
    }
    let routines = Routines {
        map,
        opcodes: DecodeTable::new(map.info().settings().cpu),
    };
    let calls = calls_of(alloc, map)?;
    let named = tagged(alloc, tags, TagKind::Inline)?;
    let mut seen = named.copy(alloc)?;
    let mut tables = Marks::none(alloc)?;
    for &(at, to) in &calls {
        found.calls_prodos = found.calls_prodos || is_prodos(map, usize::from(at), to);
        if seen.get(to) {
            continue;
        }
        seen.set(to);
        match routines.behind(usize::from(to)) {
            Some(Behind::Text) => found.texts.push(to)?,
            Some(Behind::Words) => tables.set(to),
            None => {}
        }
    }
    found.words = words_of(alloc, map, &calls, &tables)?;
    found.calls_prodos = found.calls_prodos && !named.get(PRODOS);
    Ok(found)
}
