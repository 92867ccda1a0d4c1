//! The routines of a page: whom each calls, and who calls it.

use crate::markup::{Address, Link, Put, Result, Text, put};
use crate::survey::{Named, Reference, Survey};
use crate::tables::{TABLE_END, put_title};
use crate::way::Way;
use std::alloc::Global;

/// What stands below the row of a routine before those that it calls; or before those that call it, if it calls none.
const CALLS: &str = "\n<tr class=\"v\"><td colspan=\"4\">calls";

const CALLED: &str = "\n<tr class=\"v\"><td colspan=\"4\">called by";

/// A place among the names, whether the other one calls it or it the other one, and the place of the other one.
type Call = (usize, bool, usize);

/// Who calls whom, in order and each once: by `jsr`, or by a jump to another routine or to a constant.
fn calls_of(alloc: Global, survey: &Survey<'_, '_>) -> Result<Vec<Call>> {
    let mut calls = Vec::new(alloc);
    for one in &survey.to_names {
        let Reference { to, way, .. } = one;
        let (Some(from), Some(named)) = (survey.routine_of(one), survey.names.get(*to)) else {
            continue;
        };
        let may_jump = *way == Way::Jump && from.place != *to;
        let is_jump = may_jump && (named.definition.constant || named.is_routine);
        if *way == Way::Call || is_jump {
            calls.push((from.place, false, *to))?;
            calls.push((*to, true, from.place))?;
        }
    }
    calls.sort()?;
    calls.dedup();
    Ok(calls)
}

/// The calls of a place, or those who call it.
fn calls_with(calls: &[Call], key: (usize, bool)) -> &[Call] {
    let from = calls.partition_point(|call| (call.0, call.1) < key);
    let to = calls.partition_point(|call| (call.0, call.1) <= key);
    calls.get(from..to).unwrap_or(&[])
}

/// Appends the other ones of calls as links, after a text, if there are some.
fn put_others(out: &mut Text, survey: &Survey<'_, '_>, calls: &[Call], text: &str) {
    put!(out; if calls.is_empty() { "" } else { text });
    for (_, _, other) in calls {
        if let Some(named) = survey.names.get(*other) {
            put!(out; " ", Link(named.line, named.definition.name));
        }
    }
}

/// Where a routine ends: where the next one begins, or its code.
fn end_of(survey: &Survey<'_, '_>, begin: u64, next: Option<&Named<'_>>) -> u64 {
    let Some(run) = survey.run_at(begin) else {
        return begin
    };
    match next {
        Some(next) if begin < next.definition.value => next.definition.value.min(run.end as u64),
        _ => run.end as u64,
    }
}

/// Appends the routines: where each begins, how many bytes it has, whom it calls, and who calls it.
pub fn put_routines(alloc: Global, out: &mut Text, survey: &Survey<'_, '_>) -> Result<()> {
    let calls = calls_of(alloc, survey)?;
    put_title(out, 0, survey.routines.len());
    for (place, named) in survey.routines.iter().enumerate() {
        let begin = named.definition.value;
        let end = end_of(survey, begin, survey.routines.get(place.saturating_add(1)));
        put!(out; ("<tr><td>$", Address(begin as usize)), ("<td>$", Address(end.saturating_sub(1) as usize)));
        put!(out; ("<td>", end.saturating_sub(begin) as usize), "<td>", Link(named.line, named.definition.name));
        let to = calls_with(&calls, (named.place, false));
        put_others(out, survey, to, CALLS);
        let text = if to.is_empty() { CALLED } else { "; called by" };
        put_others(out, survey, calls_with(&calls, (named.place, true)), text);
        put!(out; "\n");
    }
    put!(out; TABLE_END);
    Ok(())
}
