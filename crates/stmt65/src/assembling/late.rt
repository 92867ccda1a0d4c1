//! The work on lines: a line whose names stand above it is coded at once, another one once all names are known.

ghost use Rattle.std.specs.Prelude.{◌≡◌, ◌||◌, IfOk, None, OnOk, Some, drop, false, is_some, nat_lt, take, true};
ghost use Rattle.std.specs.Option.{option_map};
ghost use Rattle.std.specs.Bool.{OnFalse, OnTrue};
ghost use Rattle.stmt65.specs.Words.{Codes, Emits, IsIdle, Keeps, Settles, fault_by, fragments_in, late_line, place_of, with_here};

use crate::assembling::about::{About, explain};
use crate::assembling::emit::{FITS, Fit, put_coded};
use crate::assembling::fault::{AsmFault, AsmFaultKind};
use crate::assembling::line_faults::fault_by;
use crate::assembling::placed::{Placed, place};
use crate::assembling::state::{State, select};
use crate::assembling::symbols::{KnownNames, LineNames, Symbols};
use crate::source_line::SourceLine;
use isa65::Cpu;
use std::alloc::{AllocError, Allocator};

/// A line that uses a name which no line above it defines, or that has a fault, and what stands above it.
#[derive(Drop)]
pub struct Late<'a, A: Allocator> {
    /// `None` if it says nothing that the assembler knows.
    pub source: Option<SourceLine<'a, A>>,
    pub number: usize,
    pub address: u64,
    pub cpu: Cpu,
    /// How many definitions stand above it.
    pub count: usize,
    /// How many bytes stand above it, from the late line before it on.
    pub front: usize,
}

/// The work on the lines so far, up to the first of them that has a fault whatever stands below it.
#[derive(Drop)]
pub struct Work<'a, A: Allocator> {
    /// The bytes of all lines but the late ones.
    pub settled: Vec<u8, A>,
    pub late: Vec<Late<'a, A>, A>,
    /// How many bytes stand before the last late line.
    pub mark: usize,
    /// Whether the last late line has such a fault, so that no line below it counts.
    pub is_over: bool,
}

/// What comes of a line by the names above it.
#[derive(Drop)]
pub enum Outcome {
    /// It is coded, or it does not count, below a line that has a fault.
    Settled,
    /// It is to wait for the names below it.
    Waiting,
    /// It has a fault whatever stands below it.
    Faulty,
}

/// No line so far.
pub fn idle<'a, 'b, A: Allocator>(alloc: &'b A) -> Result<Work<'a, &'b A>, AllocError>
    ensures { IfOk result IsIdle }
{
    Ok(Work {
        settled: Vec::new(alloc),
        late: Vec::new(alloc),
        mark: 0,
        is_over: false,
    })
}

fn put_placed<A: Allocator + Clone, B: Allocator>(
    out: &mut Vec<u8, B>,
    names: &KnownNames<'_, '_, A>,
    placed: &Placed,
) -> Result<Fit, AllocError>
    ensures { Emits result (with_here placed.now.here names.now) placed.now.next
        (fragments_in placed.now.coded) out.old out.new }
{
    let names = LineNames::new(names, placed.here);
    match placed.coded {
        Some(coded) => put_coded(out, &names, placed.next, coded),
        None => Ok(FITS),
    }
}

/// Adds the bytes of a line in its state, or finds its lowest fault.
pub fn code_placed<A: Allocator + Clone, B: Allocator>(
    all: &KnownNames<'_, '_, A>,
    above: &KnownNames<'_, '_, A>,
    placed: &Placed,
    out: &mut Vec<u8, B>,
) -> Result<Option<AsmFaultKind>, AllocError>
    ensures { IfOk result (λ kind. Codes kind all.now (Some (place_of above.now placed.now))
        out.old.items out.new.items) }
{
    let fit = put_placed(out, all, placed)?;
    Ok(fault_by(above, placed, fit))
}

/// Whether a line has no fault by the names above it.
fn is_faultless<A: Allocator + Clone>(
    above: &KnownNames<'_, '_, A>,
    placed: &Placed,
    fit: Fit,
) -> bool
    ensures none { OnTrue result (None ≡ fault_by fit (place_of above.now placed.now)) }
    ensures some { OnFalse result (is_some (fault_by fit (place_of above.now placed.now)) ≡ true) }
{
    fit.has_room && fault_by(above, placed, fit).is_none()
}

/// Whether a line that has a fault by the names above it has one by whatever names stand below it.
fn is_faulty(placed: &Placed, fit: Fit) -> bool
    ensures { result ≡ (fit.is_known || nat_lt 65536 placed.now.next) }
{
    fit.is_known || placed.next > 65536
}

/// Codes a line if its names all stand above it and it has no fault.
#[tactic(auto, using(crate::proofs::PassLaws::settles_over))]
pub fn settle<'a, A: Allocator + Clone>(
    work: &mut Work<'a, A>,
    above: &KnownNames<'_, 'a, A>,
    placed: &Placed,
) -> Result<Outcome, AllocError>
    ensures { IfOk result
        (Settles work.old work.new above.now (Some (place_of above.now placed.now))) }
{
    if work.is_over {
        return Ok(Outcome::Settled);
    }
    let len = work.settled.len();
    let fit = put_placed(&mut work.settled, above, placed)?;
    if is_faultless(above, placed, fit) {
        return Ok(Outcome::Settled);
    }
    work.settled.truncate(len);
    if is_faulty(placed, fit) {
        return Ok(Outcome::Faulty);
    }
    Ok(Outcome::Waiting)
}

/// Keeps a line for later. Below one that has a fault whatever stands there no line counts, so none is kept.
pub fn keep<'a, A: Allocator + Clone>(
    work: &mut Work<'a, A>,
    late: Late<'a, A>,
    is_faulty: bool,
) -> Result<(), AllocError>
    requires { work.now.is_over ≡ false }
    ensures { OnOk result (Keeps late.entry is_faulty work.old work.new) }
{
    let len = work.settled.len();
    let mut late = late;
    late.front = len.saturating_sub(work.mark);
    work.late.push(late)?;
    work.mark = len;
    work.is_over = is_faulty;
    Ok(())
}

/// The first bytes, as many as there are of so many, and the others.
pub fn cut(bytes: &[u8], len: usize) -> (&[u8], &[u8])
    ensures front { result.0.now ≡ take len bytes.now }
    ensures rest { result.1.now ≡ drop len bytes.now }
{
    if len <= bytes.len() {
        bytes.split_at(len)
    } else {
        (bytes, &[])
    }
}

/// Adds the bytes of a late line by all names, or finds its lowest fault, and what that is about.
pub fn code_late<'a, L: Allocator + Clone, A: Allocator + Clone, C: Allocator>(
    state: &mut State<'_, '_, L>,
    names: &Symbols<'a, A>,
    late: &Late<'a, A>,
    out: &mut Vec<u8, C>,
) -> Result<Option<(AsmFaultKind, About<'a>)>, AllocError>
    ensures codes { IfOk result (λ found. Codes (option_map (λ f. f.0) found) names.now
        (late_line names.now state.old.layout.now late.now) out.old.items out.new.items) }
    ensures layout { state.new.layout.now ≡ state.old.layout.now }
{
    let Some(source) = &late.source else {
        return Ok(Some((AsmFaultKind::Syntax, About::Line)));
    };
    state.address = late.address;
    select(&mut state.opcodes, Some(late.cpu));
    let above = names.first(late.count);
    let placed = place(state, &above, source);
    let all = names.all();
    match code_placed(&all, &above, &placed, out)? {
        Some(kind) => {
            let names = LineNames::new(&all, placed.here);
            let about = explain(kind, &names, state.layout, placed.next, source);
            Ok(Some((kind, about)))
        }
        None => Ok(None),
    }
}
