//! What is written: groups for the information file, and comments.

use crate::judge::{Claim, Findings};
use crate::lines::Lines;
use crate::scene::Scene;
use crate::variables::variable_at;
use crate::world::{Kind, Sighting, World};
use map65::Marks;
use run65::Purpose;
use std::alloc::{AllocError, Global};

/// What is written, and whether something parts.
#[derive(Drop)]
pub struct Moved {
    pub text: String,
    pub parts: bool,
}

/// What an instruction does at an address.
fn deed(kind: Kind) -> &'static str {
    match kind {
        Kind::Branch => "branches by it at",
        Kind::Hands => "hands over",
        Kind::Stays(purpose) | Kind::Moves(purpose) | Kind::Arrives(purpose) => match purpose {
            Purpose::Read => "reads",
            Purpose::Write => "writes",
            Purpose::Change => "changes",
            Purpose::Pointer => "jumps by",
            Purpose::Jump => "jumps to",
            Purpose::Call => "calls",
            Purpose::Return => "returns behind",
        },
    }
}

/// Appends who uses an address, and ends the line.
fn put_use(out: &mut String, seen: &Sighting) -> Result<(), AllocError> {
    let deed = deed(seen.kind);
    write!(out, "${:04X} {deed} ${:04X}\n", seen.at, seen.here)
}

/// Whether both bytes of a claim are this far behind those of another one.
fn follows(before: &Claim, claim: &Claim, step: u16) -> bool {
    let low = before.low.wrapping_add(step);
    (claim.low, claim.high) == (low, before.high.wrapping_add(step))
}

/// Appends the group of claims whose bytes follow each other.
fn put_halves(out: &mut String, run: &[Claim]) -> Result<(), AllocError> {
    let Some(claim) = run.first() else {
        return Ok(());
    };
    let Claim { low, high, .. } = claim;
    write!(out, "#: HALVES {{ LOW ${low:04X}; HIGH ${high:04X}")?;
    if 1 < run.len() {
        write!(out, "; SIZE {}", run.len())?;
    }
    write!(out, "; }}; # ")?;
    put_use(out, &claim.seen)
}

/// Appends as a comment how many instructions have run, and the stretches of those that have not, eight to a line.
fn put_ran(alloc: Global, out: &mut String, lines: &Lines, ran: &Marks) -> Result<(), AllocError> {
    let mut all = Vec::new(alloc);
    for at in 0..=u16::MAX {
        if lines.instructions.get(at) {
            all.push((at, ran.get(at)))?;
        }
    }
    let count = all.iter().filter(|(_, has_run)| *has_run).count();
    let len = all.len();
    write!(out, "# {count} of {len} instructions have run in both")?;
    let mut index = 0usize;
    for stretch in all.chunk_by(|one, next| one.1 == next.1) {
        let (Some((first, false)), Some((last, _))) = (stretch.first(), stretch.last()) else {
            continue;
        };
        let before = match index {
            0 => "; not run:",
            index if index % 8 == 0 => ",\n#",
            _ => ",",
        };
        write!(out, "{before} ${first:04X}")?;
        if first != last {
            write!(out, " to ${last:04X}")?;
        }
        index = index.saturating_add(1);
    }
    write!(out, "\n")
}

impl Findings<'_> {
    /// Appends the default labels that are missing: of variables behind the image that operands have, and of addresses
    /// that stay. An address that code returns by is written by where it goes on.
    fn put_names(&self, alloc: Global, out: &mut String, lines: &Lines) -> Result<(), AllocError> {
        let mut labels = Vec::from_slice(alloc, &self.variables)?;
        for claim in &self.claims {
            let next = claim.address.wrapping_add(1);
            let is_return = claim.seen.kind == Kind::Stays(Purpose::Return);
            let is_next = is_return
                && lines.instructions.get(next)
                && !lines.named.get(claim.address);
            labels.push(if is_next { next } else { claim.address })?;
        }
        let mut named = lines.named.copy(alloc)?;
        for at in labels {
            if !named.get(at) {
                named.set(at);
                write!(out, "LABEL {{ ADDR ${at:04X}; NAME \"L{at:04X}\"; }};\n")?;
            }
        }
        Ok(())
    }

    /// Appends the groups of all addresses that stay, with a SIZE of at most 256 if their bytes follow each other. Then
    /// comments: several words that follow each other would better be a table of addresses.
    fn put_claims(&self, out: &mut String) -> Result<(), AllocError> {
        let claims = &self.claims;
        for all in claims.chunk_by(|before, claim| follows(before, claim, 1)) {
            for run in all.chunks(256) {
                put_halves(out, run)?;
            }
        }
        for run in claims.chunk_by(|before, claim| follows(before, claim, 2)) {
            if let [first, .., last] = run
                && first.high == first.low.wrapping_add(1)
            {
                let (first, last) = (first.low, last.high);
                write!(out, "# ${first:04X} to ${last:04X}: AddrTable?\n")?;
            }
        }
        Ok(())
    }

    /// Appends a group for the addresses behind the image that names are written for, unless groups have them, and
    /// those of the bytes that move and must not. Then comments: what stays and no name can be written for.
    fn put_others(&self, out: &mut String, world: &World) -> Result<(), AllocError> {
        let scene = &world.scene;
        let (end, last) = (scene.end(), scene.last_named);
        if last != 0 {
            write!(out, "#: AFTER {{ START ${end:04X}; END ${last:04X}; }};\n")?;
        }
        for (at, seen) in &self.numbers {
            write!(out, "#: NUMBER {{ ADDR ${at:04X}; }}; # ")?;
            put_use(out, seen)?;
        }
        for (at, seen) in &self.strays {
            if !world.used.get(*at) {
                write!(out, "# ${at:04X} moves, and no group has it: ")?;
                put_use(out, seen)?;
            }
        }
        for claim in &self.loose {
            write!(out, "# ${:04X} stays:", claim.address)?;
            if scene.stays(claim.low) {
                write!(out, " its low byte at ${:04X}", claim.low)?;
            }
            if scene.stays(claim.high) {
                write!(out, " its high byte at ${:04X}", claim.high)?;
            }
            write!(out, "; ")?;
            put_use(out, &claim.seen)?;
        }
        Ok(())
    }

    /// Appends a group for each address at which code goes on, and that the listing has as data, unless a group has it.
    fn put_entries(&self, out: &mut String, arrivals: &[Sighting]) -> Result<(), AllocError> {
        for seen in arrivals {
            let at = match seen.kind {
                Kind::Arrives(Purpose::Return) => seen.here.wrapping_add(1),
                _ => seen.here,
            };
            if !self.entries.get(at) {
                write!(out, "#: ENTRY {{ ADDR ${at:04X}; }}; # ")?;
                put_use(out, seen)?;
            }
        }
        Ok(())
    }

    /// Appends as a comment what may be variables, and who uses them.
    fn put_question(
        &self,
        out: &mut String,
        scene: &Scene,
        lines: &Lines,
    ) -> Result<(), AllocError> {
        let Some((first, end)) = scene.far else {
            return Ok(());
        };
        let distance = usize::from(first).saturating_sub(scene.end());
        let last = end.saturating_sub(1);
        write!(
            out,
            "# ${first:04X} to ${last:04X}, {distance} bytes behind the image: AFTER? It is used at"
        )?;
        let mut count = 0u32;
        for at in 0..=u16::MAX {
            if let Some(address) = variable_at(scene, lines, at)
                && first <= address
                && usize::from(address) < end
                && count < 8
            {
                let comma = if count == 0 { "" } else { "," };
                write!(out, "{comma} ${at:04X}")?;
                count = count.saturating_add(1);
            }
        }
        write!(out, "\n")
    }

    pub fn text(&self, alloc: Global, world: &World, lines: &Lines) -> Result<Moved, AllocError> {
        let mut text = String::new(alloc);
        self.put_names(alloc, &mut text, lines)?;
        self.put_claims(&mut text)?;
        self.put_others(&mut text, world)?;
        self.put_entries(&mut text, &world.arrivals)?;
        let parts = !text.is_empty();
        self.put_question(&mut text, &world.scene, lines)?;
        put_ran(alloc, &mut text, lines, &world.ran)?;
        Ok(Moved { text, parts })
    }
}
