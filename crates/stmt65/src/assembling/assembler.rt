//! The assembler: a pass over the lines of a text, and one over those that wait for a name below them.

ghost use Rattle.std.specs.Prelude.{◌≡◌, ◌<◌, ◌++◌, [], ◌∷◌, if◌then◌else◌, map, true, Some, Ok, IfOk, OnOk};
ghost use Rattle.stmt65.specs.Words.{Assembles, GoesOn, IsExplained, IsIdle, IsOf, IsPassed, PassesOver, definitions_in, held, meaning, parts, reading_of, source_addresses, source_meaning, source_of, source_state, state_in, work_end};

use crate::assembling::about::Explained;
use crate::assembling::fault::AsmFault;
use crate::assembling::late::{Late, Outcome, Work, code_late, cut, idle, keep, settle};
use crate::assembling::layout::Layout;
use crate::assembling::line_ends::LineEnds;
use crate::assembling::placed::place;
use crate::assembling::state::{State, advance, first_state};
use crate::assembling::symbols::{Definition, Symbols};
use crate::language::Language;
use crate::reading::whole_line::read_line;
use crate::source_line::SourceLine;
use std::alloc::{AllocError, Allocator, Global};
use text65::first_line;

/// A text mostly defines no more than a name for so many bytes.
const BYTES_OF_A_NAME: usize = 32;

/// A text, the language in which it is read, and where it and its segments begin.
#[derive(Clone, Copy)]
pub struct Source<'t, 'l, 'n, L: Allocator = Global> {
    pub language: Language,
    pub layout: &'l Layout<'n, L>,
    pub start: u16,
    pub text: &'t [u8],
}

/// How far the first pass has come: what stands above the next line, and the work on the lines above it.
#[derive(Drop)]
pub struct Pass<'a, 'l, 'n, A: Allocator, L: Allocator> {
    pub state: State<'l, 'n, L>,
    pub names: Symbols<'a, A>,
    pub work: Work<'a, A>,
}

fn define<'a, A: Allocator + Clone>(
    names: &mut Symbols<'a, A>,
    definition: Option<Definition<'a>>,
) -> Result<(), AllocError>
    ensures { OnOk result (names.new ≡ names.old ++ definitions_in definition.entry) }
{
    match definition {
        Some(definition) => names.define(definition),
        None => Ok(()),
    }
}

/// Goes on below a line, which is coded if it can be.
#[tactic(auto, unfolding(crate::specs::Code::MeaningViews::held_after))]
fn pass_over<'a, L: Allocator + Clone, A: Allocator + Clone, B: Allocator>(
    pass: &mut Pass<'a, '_, '_, A, L>,
    source: &SourceLine<'a, B>,
) -> Result<Outcome, AllocError>
    ensures { IfOk result (PassesOver pass.old pass.new (Some (source_of source.now))) }
{
    let above = pass.names.all();
    let placed = place(&pass.state, &above, source);
    let outcome = settle(&mut pass.work, &above, &placed)?;
    define(&mut pass.names, placed.definition)?;
    advance(&mut pass.state, source, placed.next);
    Ok(outcome)
}

/// Goes on below a line, which is coded or kept for later.
fn pass_source<'a, L: Allocator + Clone, A: Allocator + Clone>(
    pass: &mut Pass<'a, '_, '_, A, L>,
    late: Late<'a, A>,
    source: SourceLine<'a, A>,
) -> Result<(), AllocError>
    requires { IsOf late (state_in pass.now) }
    ensures { OnOk result (GoesOn pass.old pass.new late.entry.number
        (Some (source_of source.entry))) }
{
    let is_faulty = match pass_over(pass, &source)? {
        Outcome::Settled => return Ok(()),
        Outcome::Waiting => false,
        Outcome::Faulty => true,
    };
    let mut late = late;
    late.source = Some(source);
    keep(&mut pass.work, late, is_faulty)
}

/// Goes on below a line, whatever is written there.
#[tactic(auto, unfolding(crate::specs::Code::MeaningViews::held_after))]
fn pass_line<'a, 'b, L: Allocator + Clone, A: Allocator>(
    alloc: &'b A,
    language: Language,
    pass: &mut Pass<'a, '_, '_, &'b A, L>,
    number: usize,
    line: &'a [u8],
) -> Result<(), AllocError>
    ensures { OnOk result (GoesOn pass.old pass.new number (reading_of language (parts language line.now))) }
{
    let late = Late {
        source: None,
        number,
        address: pass.state.address,
        cpu: pass.state.opcodes.cpu(),
        count: pass.names.len(),
        front: 0,
    };
    match read_line(alloc, language, line)? {
        Some(source) => pass_source(pass, late, source),
        None if pass.work.is_over => Ok(()),
        None => keep(&mut pass.work, late, true),
    }
}

/// Before the first line.
fn begin<'a, 'b, 'l, 'n, L: Allocator, A: Allocator>(
    alloc: &'b A,
    source: &Source<'a, 'l, 'n, L>,
) -> Result<Pass<'a, 'l, 'n, &'b A, L>, AllocError>
    ensures state { IfOk result (λ pass. state_in pass ≡ source_state source.now) }
    ensures work { IfOk result (λ pass. IsIdle pass.work) }
    ensures start { IfOk result (λ _. source.now.start < 65536) }
{
    Ok(Pass {
        state: first_state(source.layout, source.start),
        names: Symbols::new(alloc, source.text.len() / BYTES_OF_A_NAME)?,
        work: idle(alloc)?,
    })
}

/// Takes down the address after a line, if that is wanted.
fn take_down<A: Allocator>(
    ends: &mut LineEnds<A>,
    is_wanted: bool,
    address: u64,
) -> Result<(), AllocError>
    ensures { OnOk result (ends.new ≡ ends.old ++ (if is_wanted then address ∷ [] else [])) }
{
    if is_wanted {
        ends.push(address)?;
    }
    Ok(())
}

/// The names that the text defines, and the work on its lines. Takes down the address
/// after each line, if these are wanted.
#[tactic(auto, using(crate::proofs::PassLaws::passed))]
pub fn first_pass<'a, 'b, 'l, 'n, L: Allocator + Clone, A: Allocator, C: Allocator>(
    alloc: &'b A,
    source: &Source<'a, 'l, 'n, L>,
    are_wanted: bool,
    ends: &mut LineEnds<C>,
) -> Result<Pass<'a, 'l, 'n, &'b A, L>, AllocError>
    requires { ends.old ≡ [] }
    ensures passed { IfOk result (λ pass. IsPassed pass source.now) }
    ensures ends { OnOk result (are_wanted ≡ true → ends.new ≡ map held (source_addresses source.now)) }
{
    let mut pass = begin(alloc, source)?;
    let mut rest = source.text;
    let mut number = 1;
    'lines: while let Some((line, after)) = first_line(rest) {
        pass_line(alloc, source.language, &mut pass, number, line)?;
        take_down(ends, are_wanted, pass.state.address)?;
        rest = after;
        number += 1;
    }
    Ok(pass)
}

/// The bytes of all lines, by all names.
pub fn second_pass<'a, L: Allocator + Clone, A: Allocator + Clone, C: Allocator + Drop>(
    state: &mut State<'_, '_, L>,
    names: &Symbols<'a, A>,
    work: &Work<'a, A>,
    mut out: Vec<u8, C>,
) -> Result<Vec<u8, C>, Explained<'a>>
    requires { out.items ≡ [] }
    ensures { IsExplained result (work_end names.now state.old.layout.now work.now) }
{
    let mut rest = work.settled.as_slice();
    'late: for late in &work.late {
        let (front, more) = cut(rest, late.front);
        out.extend_from_slice(front)?;
        if let Some((kind, about)) = code_late(state, names, late, &mut out)? {
            let fault = AsmFault {
                line: late.number,
                kind,
            };
            return Err(Explained { fault, about });
        }
        rest = more;
    }
    out.extend_from_slice(rest)?;
    Ok(out)
}

/// The bytes that a text means, as [`assemble_source`] answers them; or its fault, with what that is about.
pub fn assemble_explained<'a, L: Allocator + Clone, A: Allocator + Clone>(
    alloc: A,
    source: &Source<'a, '_, '_, L>,
) -> Result<Vec<u8, A>, Explained<'a>>
    /// The same as by `assemble_source`. What is returned of a fault beside it is not promised.
    ensures { IsExplained result (source_meaning source.now) }
{
    let out = Vec::new(alloc.clone()?);
    let mut ends = LineEnds::new(&alloc);
    let Pass {
        mut state,
        names,
        work,
    } = first_pass(&alloc, source, false, &mut ends)?;
    second_pass(&mut state, &names, &work, out)
}

/// The bytes that a text means in its language from its start, with its segments where the layout says; or the fault of
/// its lowest line that has one, and on that line the lowest.
///
/// The text is lines that end by a line feed. Each stands at the start plus the number of bytes before
/// it, and is coded by the CPU of the last `.setcpu` line above, else by the 6502. An operand has
/// zero-page size if its value is below $100, no `a:` stands before it, and each name in it is
/// defined as `name := number` on a line above.
///
/// A fault of kind `Memory`, at line 0, comes only if an allocation was refused.
pub fn assemble_source<L: Allocator + Clone, A: Allocator + Clone>(
    alloc: A,
    source: &Source<'_, '_, '_, L>,
) -> Result<Vec<u8, A>, AsmFault>
    /// The same as by `assemble`, for every text in either language, with segments that begin where the layout says. By
    /// definition a listing is the case without such segments.
    ensures { Assembles result (source_meaning source.now) }
{
    match assemble_explained(alloc, source) {
        Ok(bytes) => Ok(bytes),
        Err(explained) => Err(explained.fault),
    }
}

/// The bytes that a listing means from a start address, as [`assemble_source`] answers them.
pub fn assemble<A: Allocator + Clone>(
    alloc: A,
    text: &[u8],
    start: u16,
) -> Result<Vec<u8, A>, AsmFault>
    /// For every listing and start, returns exactly the bytes that the text means, or exactly the fault of the
    /// first line that has one, of the lowest kind; or out of memory.
    ensures { Assembles result (meaning start text.now) }
{
    let layout = Layout::new(alloc.clone()?, 0)?;
    assemble_source(
        alloc,
        &Source {
            language: Language::Listing,
            layout: &layout,
            start,
            text,
        },
    )
}
