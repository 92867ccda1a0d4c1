//! Assembles a listing here and later, runs both, and judges what is seen.

ghost use Rattle.std.specs.Prelude.{IfOk};
ghost use Rattle.std.specs.String.{string_bytes};
ghost use Rattle.move65.specs.Accepted.{IsAccepted};

use crate::failure::{Failure, Refused};
use crate::judge::Findings;
use crate::lines::{LineReader, Lines};
use crate::progress::Progress;
use crate::reading_back::read_back;
use crate::report::Moved;
use crate::request::Moving;
use crate::runs::{Both, Runs, run_all};
use crate::scene::Scene;
use crate::variables::{limit_of, move_found, move_variables, take_defined};
use crate::world::World;
use files65::{assembled, information_of, keep_named, layout_of, repair, start_or_end, tags_of};
use info65::{Info, Tag, TagKind, without_numbers};
use map65::Marks;
use run65::{Machine, Registers};
use std::alloc::{AllocError, Global};
use stmt65::{AsmFault, AsmFaultKind, Source, assemble_source};

/// How often what is found is moved, and both images run again.
const ROUNDS: usize = 8;

/// What a listing is run under: the command line, and the information file with its groups in lines `#: ..`.
#[derive(Drop)]
struct Setup<'a> {
    moving: &'a Moving,
    info: &'a Info,
    tags: &'a [Tag],
}

/// How much later the second image lies: `by`, or that much earlier if it would end after $FFFF.
fn distance(start: u16, len: usize, by: u16) -> Result<u16, Failure> {
    let end = usize::from(start).saturating_add(len);
    if end.saturating_add(usize::from(by)) <= 65_536 {
        return Ok(by);
    }
    if by <= start {
        return Ok(0u16.wrapping_sub(by));
    }
    Err(Failure::Own(Refused::NoRoom))
}

/// The failure for a fault of a listing: what is refused, unless memory ran out.
fn failure_for(fault: AsmFault, refused: Refused) -> Failure {
    if fault.kind == AsmFaultKind::Memory {
        Failure::Memory
    } else {
        Failure::Own(refused)
    }
}

/// Both images of a text, of which one has these bytes.
fn scene_of(
    alloc: Global,
    setup: &Setup<'_>,
    source: &Source<'_, '_, '_>,
    bytes: &[u8],
) -> Result<Scene, Failure> {
    let by = distance(source.start, bytes.len(), setup.moving.by)?;
    let start = source.start.wrapping_add(by);
    let later = match assemble_source(alloc, &Source { start, ..*source }) {
        Ok(later) => later,
        Err(fault) => return Err(failure_for(fault, Refused::Later(start, fault))),
    };
    if later.len() != bytes.len() {
        return Err(Failure::Own(Refused::Length(start)));
    }
    let mut after = Marks::none(alloc)?;
    for tag in setup.tags {
        if let (TagKind::After, Some(first), Some(last)) = (tag.kind, tag.first, tag.last) {
            after.set_span(usize::from(first), usize::from(last).saturating_add(1));
        }
    }
    Ok(Scene {
        start: source.start,
        here: Vec::from_slice(alloc, bytes)?,
        later,
        by,
        after,
        after_end: 0,
        limit: 0,
        far: None,
        last_named: 0,
    })
}

/// Where code begins: the addresses that are given and those of groups ENTRY, and the
/// vectors; without any the first address. Each comes once.
fn entries_of(alloc: Global, setup: &Setup<'_>, scene: &Scene) -> Result<Vec<u16>, AllocError> {
    let mut given = Vec::from_slice(alloc, &setup.moving.entries)?;
    for tag in setup.tags {
        if let (TagKind::Entry, Some(address)) = (tag.kind, tag.address) {
            given.push(address)?;
        }
    }
    for vector in [0xFFFCu16, 0xFFFA, 0xFFFE] {
        if scene.has(0xFFFA)
            && let Some(address) = scene.word(vector, vector + 1)
        {
            given.push(address)?;
        }
    }
    if given.is_empty() {
        given.push(scene.start)?;
    }
    let mut marks = Marks::none(alloc)?;
    let mut found = Vec::new(alloc);
    for &entry in &given {
        if !marks.get(entry) {
            marks.set(entry);
            found.push(entry)?;
        }
    }
    Ok(found)
}

/// Runs both images, and judges what is seen. Returns whether another round may find more.
fn has_found(
    machine: &mut Both,
    found: &mut Findings<'_>,
    lines: &Lines,
) -> Result<bool, AllocError> {
    let world = &mut machine.bus;
    if world.is_out_of_memory {
        return Err(AllocError);
    }
    let has_moved = move_variables(world, lines, &mut found.variables)? | move_found(world);
    if has_moved {
        return Ok(true);
    }
    found.judge(world, lines)
}

/// Runs both images until nothing more is found.
fn run_rounds(
    rt: &HostRuntime,
    machine: &mut Both,
    found: &mut Findings<'_>,
    runs: &Runs<'_>,
) -> Result<(), AllocError> {
    let mut shown = Progress::new(rt);
    for _ in 0..ROUNDS {
        run_all(machine, runs, &mut shown);
        if !has_found(machine, found, runs.lines)? {
            break;
        }
    }
    Ok(())
}

/// Runs both images until nothing more is found, and returns what is written of them.
fn report_of_runs(
    rt: &HostRuntime,
    setup: &Setup<'_>,
    lines: &Lines,
    scene: Scene,
) -> Result<Moved, AllocError> {
    let entries = entries_of(rt.alloc(), setup, &scene)?;
    let world = World::new(rt.alloc(), scene)?;
    let mut machine = Machine::new(setup.info.settings().cpu, Registers::at(0), world);
    let mut found = Findings::new(rt.alloc(), setup.tags)?;
    let runs = Runs {
        lines,
        entries: &entries,
        most: setup.moving.steps,
    };
    run_rounds(rt, &mut machine, &mut found, &runs)?;
    found.sort()?;
    found.text(rt.alloc(), &machine.bus, lines)
}

/// What is written of a listing that has its start.
fn report_of_source(
    rt: &HostRuntime,
    setup: &Setup<'_>,
    source: &Source<'_, '_, '_>,
) -> Result<Moved, Failure> {
    let alloc = rt.alloc();
    let assembly = assembled(&alloc, setup.moving.names.listing.as_str(), source)?;
    let mut scene = scene_of(alloc, setup, source, &assembly.bytes)?;
    take_defined(&mut scene, assembly.names.definitions());
    scene.limit = limit_of(&scene, assembly.names.definitions(), setup.info);
    let reader = LineReader::new(alloc, &scene, setup.info)?;
    let lines = reader.read(source.text, &assembly)?;
    Ok(report_of_runs(rt, setup, &lines, scene)?)
}

/// What is written of a listing.
fn report_of_text(rt: &HostRuntime, setup: &Setup<'_>, text: &[u8]) -> Result<Moved, Failure> {
    let layout = layout_of(rt.alloc(), &[], None)?;
    let start = start_or_end(rt.alloc(), setup.info.settings().start, &layout, text)?;
    report_of_source(rt, setup, &repair(&layout, start, text))
}

/// What is written of a listing, and of the information file of these bytes. The output may not be what that names.
pub fn report_of(
    rt: &HostRuntime,
    moving: &Moving,
    bytes: &[u8],
    text: &[u8],
) -> Result<Moved, Failure>
    /// The information file is accepted under the options of the command line with a line feed and the text that is
    /// returned after it.
    ensures accepted { IfOk result (λ moved.
        IsAccepted moving.now.options bytes.now (string_bytes moved.text)) }
{
    let info: Info = information_of(rt.alloc(), &moving.options, bytes)?;
    keep_named(rt, moving.names.output.as_deref(), &info)?;
    // Halves that a NUMBER takes back count for nothing.
    let tags = without_numbers(rt.alloc(), &tags_of(rt.alloc(), bytes)?)?;
    let setup = Setup {
        moving,
        info: &info,
        tags: &tags,
    };
    let moved = report_of_text(rt, &setup, text)?;
    read_back(rt.alloc(), &moving.options, bytes, moved.text.as_bytes())?;
    Ok(moved)
}
