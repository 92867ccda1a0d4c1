//! Runs both images side by side, from the entries and from each routine.

use crate::lines::Lines;
use crate::pair::Pair;
use crate::progress::Progress;
use crate::world::World;
use run65::{DECIMAL, Machine, Registers, Value};

/// How many instructions run from an entry, at most.
pub const LONG: u32 = 400_000;

/// How many instructions run from a routine, at most.
const SHORT: u32 = 1_500;

/// How often each runs, with other unknown bytes.
const ENTRY_SEEDS: u32 = 2;

const ROUTINE_SEEDS: u32 = 4;

/// How many instructions the runs from all entries share, and those from all routines.
const SHARED: u32 = 2_000_000;

/// How often in a row a run may be outside of the image: where it leads, and where it comes back to.
const OUTSIDE: u32 = 2;

pub type Both = Machine<Pair, World>;

/// What runs: the lines of a listing, from which entries, and how many instructions each run has, at most.
#[derive(Clone, Copy)]
pub struct Runs<'a> {
    pub lines: &'a Lines,
    pub entries: &'a [u16],
    pub most: u32,
}

/// Instructions that several runs share.
#[derive(Drop)]
struct Shared {
    /// How many a run has, at most.
    most: u32,
    /// How many each run has at least.
    each: u32,
    /// How many are left beside those. A run may have an eighth of them.
    left: u32,
}

impl Shared {
    /// Instructions for so many runs of at most so many each.
    fn among(runs: u32, most: u32) -> Shared {
        Shared {
            most,
            each: SHARED.checked_div(runs).unwrap_or(SHARED),
            left: SHARED,
        }
    }

    /// How many the next run has.
    fn next(&self) -> u32 {
        self.most.min(self.each.saturating_add(self.left / 8))
    }

    /// Takes down how many a run has taken.
    fn take(&mut self, steps: u32) {
        self.left = self.left.saturating_sub(steps.saturating_sub(self.each));
    }
}

/// Sets the registers and the flags to what nobody knows.
fn forget(machine: &mut Both) {
    machine.registers.a = machine.bus.fresh();
    machine.registers.x = machine.bus.fresh();
    machine.registers.y = machine.bus.fresh();
    let status = machine.bus.fresh();
    machine.registers.set_status(status);
    machine.registers.flags[DECIMAL] = Pair::of(0);
}

/// Runs the instruction at an address of the image. Returns whether it is one of the listing or of code that is found,
/// and it is known where code goes on. A run ends at `brk` and `rti`.
fn run_at(machine: &mut Both, lines: &Lines, at: u16) -> bool {
    let opcode = machine.bus.cell(at).map(|pair| pair.here);
    if matches!(opcode, None | Some(0x00 | 0x40)) || !machine.bus.may_run(lines, at) {
        return false;
    }
    machine.bus.begin(at);
    machine.step()
}

/// Comes back from code outside of the image, with unknown registers. Returns whether it is known where code goes on.
fn come_back(machine: &mut Both, lines: &Lines) -> bool {
    let registers = [
        machine.registers.a,
        machine.registers.x,
        machine.registers.y,
    ];
    machine.bus.hand_all_over(lines, registers);
    forget(machine);
    let is_known = machine.come_back();
    machine.bus.lead_nowhere();
    is_known
}

/// Runs from an address, at most so many instructions, and only those that the listing has. What leads out of the
/// image comes back with unknown registers, unless that leads out of it again. Returns how many instructions it took.
fn run_from(machine: &mut Both, lines: &Lines, from: u16, steps: u32) -> u32 {
    machine.registers = Registers::at(from);
    machine.registers.s = Pair::of(0xFF);
    forget(machine);
    machine.bus.begin_run();
    let mut outside = 0u32;
    for step in 0..steps {
        let at = machine.registers.pc;
        let goes_on = if machine.bus.scene.has(at) {
            outside = 0;
            run_at(machine, lines, at)
        } else {
            outside = outside.saturating_add(1);
            outside <= OUTSIDE && come_back(machine, lines)
        };
        if !goes_on {
            return step;
        }
    }
    steps
}

/// Runs from all entries that no run with the same unknown bytes has come to.
fn run_entries(machine: &mut Both, runs: &Runs<'_>, shown: &mut Progress<'_>) {
    let count = u32::try_from(runs.entries.len()).unwrap_or(u32::MAX);
    let mut shared = Shared::among(count.saturating_mul(ENTRY_SEEDS), LONG.min(runs.most));
    for seed in 0..ENTRY_SEEDS {
        machine.bus.reset(seed);
        for &entry in runs.entries {
            if machine.bus.ran_now.get(entry) {
                continue;
            }
            shown.say(entry);
            let steps = shared.next();
            shared.take(run_from(machine, runs.lines, entry, steps));
        }
    }
}

/// Runs from each routine, with memory of which only the image is known.
fn run_routines(machine: &mut Both, runs: &Runs<'_>, shown: &mut Progress<'_>) {
    let routines = &runs.lines.routines;
    let mut count = 0u32;
    for routine in 0..=u16::MAX {
        if routines.get(routine) {
            count = count.saturating_add(ROUTINE_SEEDS);
        }
    }
    let mut shared = Shared::among(count, SHORT.min(runs.most));
    machine.bus.reset(0);
    for routine in 0..=u16::MAX {
        if !routines.get(routine) {
            continue;
        }
        shown.say(routine);
        for seed in 0..ROUTINE_SEEDS {
            let steps = shared.next();
            machine.bus.begin_trial(seed.saturating_add(10));
            shared.take(run_from(machine, runs.lines, routine, steps));
            machine.bus.end_trial();
        }
    }
}

/// Forgets what was seen, and runs from all entries and then from each routine.
pub fn run_all(machine: &mut Both, runs: &Runs<'_>, shown: &mut Progress<'_>) {
    for seen in machine.bus.seen.iter_mut() {
        seen.clear();
    }
    run_entries(machine, runs, shown);
    run_routines(machine, runs, shown);
    shown.end();
}
