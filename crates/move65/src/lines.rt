//! The lines of a listing: which bytes are numbers of their own, which are instructions, and where routines begin.

use crate::scene::Scene;
use info65::Info;
use isa65::{Cpu, Mnemonic, Op, OpcodeSet, Pattern};
use map65::Marks;
use std::alloc::{AllocError, Global};
use std::mem::take;
use stmt65::{
    Assembly, Datum, Directive, Form, Language, Minus, Notation, Operation, SourceLine, Value,
    first_line, read_line,
};

/// What the lines of a listing say of the addresses.
#[derive(Drop)]
pub struct Lines {
    /// The byte is a number of an immediate operand or of a `.byte`.
    pub numbers: Marks,
    /// The byte is one of a text in quotes. `trace65` cuts it at halves.
    pub texts: Marks,
    /// A number of a `.word` begins there.
    pub words: Marks,
    pub instructions: Marks,
    /// The bytes of instructions.
    code: Marks,
    /// The CPU that runs.
    cpu: Cpu,
    /// An instruction begins there that has an address of two bytes as its operand, and is no jump or call of it.
    pub operands: Marks,
    /// Code is called there, or jumped to, or a table has the address; or a line of code has a
    /// label after code that does not go on.
    pub routines: Marks,
    /// The address has a name, in the listing or in the information file.
    pub named: Marks,
}

impl Lines {
    /// No lines yet. The information file says which CPU runs, and has names.
    fn none(alloc: Global, info: &Info) -> Result<Lines, AllocError> {
        let mut lines = Lines {
            numbers: Marks::none(alloc)?,
            texts: Marks::none(alloc)?,
            words: Marks::none(alloc)?,
            instructions: Marks::none(alloc)?,
            code: Marks::none(alloc)?,
            cpu: info.settings().cpu,
            operands: Marks::none(alloc)?,
            routines: Marks::none(alloc)?,
            named: Marks::none(alloc)?,
        };
        for index in 0..info.given_count() {
            lines.named.set(info.given(index).address);
        }
        Ok(lines)
    }

    /// The instruction with this opcode, if one may begin in the data at an address. `brk` is none.
    pub fn op_in_data(&self, address: u16, opcode: u8) -> Option<Op> {
        if self.code.get(address) || opcode == 0 {
            return None;
        }
        self.cpu.decode(opcode)
    }

    /// Whether a name can stand for half of an address in place of the byte.
    pub fn may_be_half(&self, address: u16) -> bool {
        self.numbers.get(address) || self.texts.get(address)
    }

    /// Takes the operands of a `.byte`.
    fn take_bytes(&mut self, from: u16, data: &[Datum<'_>]) {
        let mut at = usize::from(from);
        for datum in data {
            let next = match datum {
                Datum::String(text) => at.saturating_add(text.len()),
                _ => at.saturating_add(1),
            };
            match datum {
                Datum::Number(_) => self.numbers.set_span(at, next),
                Datum::String(_) => self.texts.set_span(at, next),
                _ => {}
            }
            at = next;
        }
    }
}

/// Takes the lines of a listing, one after the other.
#[derive(Drop)]
pub struct LineReader<'s> {
    alloc: Global,
    scene: &'s Scene,
    lines: Lines,
    /// Whether the line before is code that goes on with the next line.
    goes_on: bool,
}

impl<'s> LineReader<'s> {
    /// Has taken no lines. The information file says which CPU runs, and has further names.
    pub fn new(alloc: Global, scene: &'s Scene, info: &Info) -> Result<LineReader<'s>, AllocError> {
        Ok(LineReader {
            alloc,
            scene,
            lines: Lines::none(alloc, info)?,
            goes_on: false,
        })
    }

    /// The lines of a text that assembles so. Fails only if an allocation failed.
    pub fn read(
        mut self,
        text: &[u8],
        assembly: &Assembly<'_, '_, Global>,
    ) -> Result<Lines, AllocError> {
        for definition in assembly.names.definitions() {
            if let Some(address) = definition.address() {
                self.lines.named.set(address);
            }
        }
        let mut rest = text;
        let mut at = u64::from(self.scene.start);
        for end in assembly.ends.iter() {
            let Some((line, after)) = first_line(rest) else {
                break;
            };
            if at < end
                && let Ok(address) = u16::try_from(at)
            {
                self.take_line((address, end.saturating_sub(at)), line)?;
            }
            at = end;
            rest = after;
        }
        Ok(self.lines)
    }

    /// Takes a line that has this many bytes at an address.
    fn take_line(&mut self, (at, len): (u16, u64), line: &[u8]) -> Result<(), AllocError> {
        let Some(SourceLine::Statement { label, operation }) = read_line(
            self.alloc,
            Language::Repair,
            line,
        )?
        else {
            return Ok(());
        };
        let goes_on = take(&mut self.goes_on);
        match &operation {
            Operation::Instr(mnemonic, form) => {
                if !goes_on && label.is_some() {
                    self.lines.routines.set(at);
                }
                self.take_instruction((at, len), form);
                self.goes_on = !matches!(mnemonic, Mnemonic::Jmp | Mnemonic::Rts | Mnemonic::Rti);
            }
            Operation::Data(data) => self.lines.take_bytes(at, data),
            Operation::Values(directive @ (Directive::Word | Directive::Addr), values) => {
                for (value, at) in values.iter().zip((at..=u16::MAX).step_by(2)) {
                    self.take_word(at, directive, value);
                }
            }
            _ => {}
        }
        Ok(())
    }

    /// Takes an instruction that has this many bytes at an address.
    fn take_instruction(&mut self, (at, len): (u16, u64), form: &Form<'_>) {
        self.lines.instructions.set(at);
        let end = usize::from(at).saturating_add(len as usize);
        self.lines.code.set_span(usize::from(at), end);
        if let Form::One(Notation::Plain(Pattern::Immediate), Value::Number(_)) = form {
            self.lines.numbers.set(at.saturating_add(1));
        }
        match self.scene.byte(at).unwrap_or(0) {
            // `jsr` and `jmp` of an address.
            0x20 | 0x4C => self.put_routine(at.saturating_add(1), 0),
            // Those that end in F are branches.
            opcode if len == 3 && opcode % 16 != 15 => self.lines.operands.set(at),
            _ => {}
        }
    }

    /// Code begins this many bytes after the address that the word at `at` holds, if that lies in the image.
    fn put_routine(&mut self, at: u16, after: u16) {
        if let Some(word) = self.scene.word(at, at.wrapping_add(1)) {
            let to = word.wrapping_add(after);
            if self.scene.has(to) {
                self.lines.routines.set(to);
            }
        }
    }

    /// Takes an operand of a `.word` or `.addr`. Names are addresses of code, or one less.
    fn take_word(&mut self, at: u16, directive: &Directive, value: &Value<'_>) {
        match (directive, value) {
            (Directive::Word, Value::Number(_)) => self.lines.words.set(at),
            (_, Value::Number(_)) => {}
            (_, Value::Name(_, _, Minus::One)) => self.put_routine(at, 1),
            _ => self.put_routine(at, 0),
        }
    }
}
