//! A text whose names are known before it is read: it is assembled in one pass, in
//! which no line waits for a name below it.

ghost use Rattle.std.specs.Prelude.{◌≡◌, ◌++◌, IfOk, IfSome, Ok, take};
ghost use Rattle.std.specs.Bool.{OnTrue};
ghost use Rattle.stmt65.specs.Words.{Follows, definition_of, definitions_in, source_meaning, source_of, state_of};

use crate::assembling::assembler::Source;
use crate::assembling::late::code_placed;
use crate::assembling::placed::place;
use crate::assembling::state::{State, advance, first_state};
use crate::assembling::symbols::{Definition, Symbols};
use crate::reading::whole_line::read_line;
use crate::source_line::SourceLine;
use std::alloc::{AllocError, Allocator};
use text65::first_line;

fn is_same(one: Definition<'_>, other: Definition<'_>) -> bool
    ensures { OnTrue result (definition_of one.entry ≡ definition_of other.entry) }
{
    one.name == other.name && one.value == other.value && one.constant == other.constant
}

/// How many definitions stand above after what a line defines, if that is the next of them.
#[tactic(auto, using(crate::proofs::SymbolLaws::next_taken))]
fn count_after<A: Allocator + Clone>(
    names: &Symbols<'_, A>,
    count: usize,
    definition: Option<Definition<'_>>,
) -> Option<usize>
    ensures { IfSome result (λ n.
        take n names.now ≡ take count names.now ++ definitions_in definition.entry) }
{
    let Some(definition) = definition else {
        return Some(count);
    };
    if is_same(names.at(count)?, definition) {
        count.checked_add(1)
    } else {
        None
    }
}

/// Adds the bytes of a line above which so many definitions stand, and goes on below it. Returns how many stand there,
/// or `None` if the line has a fault or does not define the next of them.
#[tactic(auto, unfolding(crate::specs::Code::MeaningViews::held_after))]
fn follow<'a, L: Allocator + Clone, A: Allocator + Clone, B: Allocator, C: Allocator>(
    out: &mut Vec<u8, C>,
    names: &Symbols<'_, A>,
    state: &mut State<'_, '_, L>,
    count: usize,
    source: SourceLine<'a, B>,
) -> Result<Option<usize>, AllocError>
    ensures { IfOk result (λ found. IfSome found (λ n. Follows names.now
        (state_of state.old (take count names.now)) (state_of state.new (take n names.now))
        (source_of source.entry) out.old.items out.new.items)) }
{
    let above = names.first(count);
    let placed = place(state, &above, &source);
    if let Some(_) = code_placed(&names.all(), &above, &placed, out)? {
        return Ok(None);
    }
    let Some(count) = count_after(names, count, placed.definition) else {
        return Ok(None);
    };
    advance(state, &source, placed.next);
    Ok(Some(count))
}

/// The bytes that a text means, if it defines these names in this order, and nothing else.
/// `None` if it does not, or has a fault.
#[tactic(auto, using(crate::proofs::KnownLaws::knows))]
pub fn assemble_known<'b, L: Allocator + Clone, A: Allocator, B: Allocator + Clone>(
    alloc: &'b A,
    source: &Source<'_, '_, '_, L>,
    names: &Symbols<'_, B>,
) -> Result<Option<Vec<u8, &'b A>>, AllocError>
    /// Takes the names beforehand. If it returns bytes, the text means them, so it returns none for a text with a
    /// fault; or out of memory.
    ensures { IfOk result (λ found.
        IfSome found (λ bytes. source_meaning source.now ≡ Ok bytes.items)) }
{
    let mut out = Vec::new(alloc);
    let mut state = first_state(source.layout, source.start);
    let mut count = 0;
    let mut rest = source.text;
    'lines: while let Some((line, after)) = first_line(rest) {
        let Some(said) = read_line(alloc, source.language, line)? else {
            return Ok(None);
        };
        let Some(next) = follow(&mut out, names, &mut state, count, said)? else {
            return Ok(None);
        };
        count = next;
        rest = after;
    }
    if count == names.len() {
        Ok(Some(out))
    } else {
        Ok(None)
    }
}
