//! The address after each line of a text.

ghost use Rattle.std.specs.Prelude.{◌≡◌, ◌⊎◌, Err, IfErr, IfOk, Ok, map};
ghost use Rattle.stmt65.specs.Words.{held, held_definitions, out_of_memory, source_addresses, source_definitions, source_meaning};

use crate::assembling::about::Explained;
use crate::assembling::assembler::{Pass, Source, first_pass, second_pass};
use crate::assembling::line_ends::LineEnds;
use crate::assembling::symbols::Symbols;
use std::alloc::{AllocError, Allocator};

/// The address after each line of a text, in the order of the lines. A line that is none
/// has no bytes, and 2^64 - 1 stands for every greater address. Of a text that assembles no address is above $10000,
/// and a byte is given by the first line after which the address is greater than its own.
pub fn line_addresses<L: Allocator + Clone, A: Allocator + Clone>(
    alloc: A,
    source: &Source<'_, '_, '_, L>,
) -> Result<Vec<u64, A>, AllocError>
    /// Returns the address after each line of a text, in order, exactly if the text assembles. For any other text
    /// 2^64 - 1 stands for every greater address. Or out of memory.
    ensures lines { IfOk result (λ found. found.items ≡ map held (source_addresses source.now)) }
    ensures exact { IfOk result (λ found. IfOk (source_meaning source.now) (λ _. found.items ≡ source_addresses source.now)) }
{
    let mut found = LineEnds::new(&alloc);
    let _ = first_pass(&alloc, source, true, &mut found)?;
    found.to_vec(alloc.clone()?)
}

/// What a text that assembles means, line by line.
#[derive(Drop)]
pub struct Assembly<'a, 'b, A: Allocator> {
    /// The bytes.
    pub bytes: Vec<u8, &'b A>,
    /// The address after each line, as [`line_addresses`] answers it.
    pub ends: LineEnds<&'b A>,
    /// What the lines define.
    pub names: Symbols<'a, &'b A>,
}

/// The bytes that a text means, as [`assemble_source`](crate::assemble_source) answers them, with the address after
/// each line and what the lines define; all of one reading. Or its fault, with what that is about.
pub fn assemble_lines<'a, 'b, L: Allocator + Clone, A: Allocator>(
    alloc: &'b A,
    source: &Source<'a, '_, '_, L>,
) -> Result<Assembly<'a, 'b, A>, Explained<'a>>
    /// For a text that assembles, returns its bytes, the address after each line and the definitions, from one
    /// reading. For any other text, its fault; or out of memory.
    ensures bytes { IfOk result (λ a. source_meaning source.now ≡ Ok a.bytes.items) }
    ensures fault { IfErr result
        (λ e. (source_meaning source.now ≡ Err e.fault) ⊎ (e.fault ≡ out_of_memory)) }
    ensures ends { IfOk result (λ a. a.ends ≡ source_addresses source.now) }
    ensures names { IfOk result (λ a. a.names ≡ held_definitions (source_definitions source.now)) }
{
    let mut ends = LineEnds::new(alloc);
    let Pass {
        mut state,
        names,
        work,
    } = first_pass(alloc, source, true, &mut ends)?;
    let bytes = second_pass(&mut state, &names, &work, Vec::new(alloc))?;
    Ok(Assembly { bytes, ends, names })
}
