//! What stands above a line, beside the definitions.

ghost use Rattle.std.specs.Prelude.{◌≡◌, [], unwrap_or};
ghost use Rattle.stmt65.specs.Words.{cpu_after, initial, line_operation, state_of};

use crate::assembling::layout::Layout;
use crate::source_line::{Operation, SourceLine};
use isa65::{Cpu, EncodeTable};
use std::alloc::Allocator;

/// What stands above a line beside the definitions.
#[derive(Drop)]
pub struct State<'l, 'n, L: Allocator> {
    /// 2^64 - 1 in place of every greater address.
    pub address: u64,
    /// The opcodes of the CPU.
    pub opcodes: EncodeTable,
    /// Where segments begin.
    pub layout: &'l Layout<'n, L>,
}

/// Before the first line; the CPU is the 6502.
pub fn first_state<'l, 'n, L: Allocator>(layout: &'l Layout<'n, L>, start: u16) -> State<'l, 'n, L>
    ensures { state_of result [] ≡ initial layout.now start }
{
    State {
        address: u64::from(start),
        opcodes: EncodeTable::new(Cpu::M6502),
        layout,
    }
}

/// Selects the opcodes of a CPU, if there is one. They are tabled anew only if it is another one than before.
pub fn select(opcodes: &mut EncodeTable, cpu: Option<Cpu>)
    ensures { opcodes.new ≡ unwrap_or cpu opcodes.old }
{
    let Some(cpu) = cpu else {
        return;
    };
    if cpu != opcodes.cpu() {
        table(opcodes, cpu);
    }
}

/// Tables the opcodes of a CPU. A function of its own, since the table takes 3 KiB of the stack,
/// which are cleared whenever it is entered.
#[inline(never)]
fn table(opcodes: &mut EncodeTable, cpu: Cpu)
    ensures { opcodes.new ≡ cpu }
{
    *opcodes = EncodeTable::new(cpu);
}

/// Selects the CPU that the line sets. An unknown one leaves the opcodes as they were.
#[tactic(auto, unfolding(crate::specs::Meaning::cpu_after))]
fn follow<'a, B: Allocator>(opcodes: &mut EncodeTable, source: &SourceLine<'a, B>)
    ensures { opcodes.new ≡ cpu_after opcodes.old (line_operation source.now) }
{
    match source {
        SourceLine::Statement {
            operation: Operation::SetCpu(text),
            ..
        } => select(opcodes, Cpu::from_bytes(text)),
        _ => {}
    }
}

/// Goes on below the line, at the address after it. Its definition is added elsewhere.
pub fn advance<'a, L: Allocator, B: Allocator>(
    state: &mut State<'_, '_, L>,
    source: &SourceLine<'a, B>,
    next: u64,
)
    ensures address { state.new.address ≡ next }
    ensures layout { state.new.layout.now ≡ state.old.layout.now }
    ensures cpu { state.new.opcodes ≡ cpu_after state.old.opcodes (line_operation source.now) }
{
    follow(&mut state.opcodes, source);
    state.address = next;
}
