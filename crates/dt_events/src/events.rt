//! The events of a plan.

ghost use Rattle.std.specs.Prelude.{◌≡◌, ◌<◌, ◌≤◌, ◌++◌, ◌∷◌, [], length, filter, nat_lt, not, ◌&&◌, if◌then◌else◌, Err, IfOk, OnOk};
ghost use Rattle.std.specs.List.{All, list_any};
ghost use Rattle.dt_events.specs.Candidates.{AreCandidates};
ghost use Rattle.dt_events.specs.Conflicts.{HasSegments, conflict, segment_of};
ghost use Rattle.dt_events.specs.Events.{event_limit, events_from, events_of};
ghost use Rattle.dt_events.specs.declared.events_end.EventsEnd.TheVariants.{TooManyEvents};

use crate::candidates::{Candidates, candidates_of, next_candidate};
use crate::conflicts::{op_count, segment_of, some_meet};
use crate::events_end::EventsEnd;
use dt_plan::Plan;
use std::alloc::Global;
use std::marker::Model;

/// The most events of a plan.
const EVENT_LIMIT: usize = 1_048_576;

/// The events of a plan: pairs of operations, by their places in the listing, whose order matters.
#[derive(Debug, Drop)]
pub struct Events {
    pairs: Vec<(u32, u32)>,
}

impl Model for Events {
    ghost use Rattle.std.specs.Prelude.{List, ℕ};

    ghost Value = { List (ℕ × ℕ) };

    ghost view = { λ e. e.pairs.items };
}

impl Events {
    /// The pairs, ascending.
    pub fn pairs(&self) -> &[(u32, u32)]
        ensures { result.now ≡ self.now }
    {
        self.pairs.as_slice()
    }
}

/// Whether two operations conflict.
fn conflict(plan: &Plan, a: u32, b: u32) -> bool
    requires segments { HasSegments plan.now }
    requires first { a < length plan.now.ops }
    requires second { b < length plan.now.ops }
    ensures { result ≡ conflict plan.now a b }
{
    segment_of(plan, a) != segment_of(plan, b) || some_meet(plan.touches(a), plan.touches(b))
}

/// Whether one of some operations conflicts with `op`. The last ones are tried first.
fn has_conflict(plan: &Plan, ops: &[u32], op: u32) -> bool
    requires segments { HasSegments plan.now }
    requires ops { All (λ x. x < length plan.now.ops) ops.now }
    requires op { op < length plan.now.ops }
    ensures { result ≡ list_any (λ x. conflict plan.now x op) ops.now }
{
    let mut left = ops.len();
    while left > 0 {
        left -= 1;
        if conflict(plan, ops[left], op) {
            return true;
        }
    }
    false
}

/// Whether an operation that conflicts with another, or not, conflicts with none of `met`, those between them that conflict
/// with the other.
fn is_nearest(plan: &Plan, conflicts: bool, met: &[u32], op: u32) -> bool
    requires segments { HasSegments plan.now }
    requires met { All (λ x. x < length plan.now.ops) met.now }
    requires op { op < length plan.now.ops }
    ensures { result ≡ (conflicts && not (list_any (λ x. conflict plan.now x op) met.now)) }
{
    conflicts && !has_conflict(plan, met, op)
}

/// Puts a pair at the end where it is an event.
fn push_event(
    pairs: &mut Vec<(u32, u32)>,
    pair: (u32, u32),
    is_event: bool,
) -> Result<(), EventsEnd>
    requires { length pairs.old.items ≤ event_limit }
    ensures ok { OnOk result (pairs.new.items ≡ pairs.old.items ++ (if is_event then pair ∷ [] else [])) }
    ensures within { OnOk result (length pairs.new.items ≤ event_limit) }
    ensures many { result ≡ Err TooManyEvents → event_limit < length (pairs.old.items ++ (if is_event then pair ∷ [] else [])) }
{
    if !is_event {
        return Ok(());
    }
    if pairs.len() == EVENT_LIMIT {
        return Err(EventsEnd::TooManyEvents);
    }
    pairs.push(pair)?;
    Ok(())
}

/// Puts a number at the end where it passes.
fn push_if(numbers: &mut Vec<u32>, number: u32, passes: bool) -> Result<(), EventsEnd>
    ensures ok { OnOk result (numbers.new.items ≡ numbers.old.items ++ (if passes then number ∷ [] else [])) }
    ensures memory { result ≡ Err TooManyEvents → ⊥ }
{
    if passes {
        numbers.push(number)?;
    }
    Ok(())
}

/// Puts the events of an operation with later ones at the end, which are looked at from near to far. `met` are those so far that
/// conflict with it.
fn push_events(
    alloc: Global,
    plan: &Plan,
    candidates: &Candidates,
    first: u32,
    pairs: &mut Vec<(u32, u32)>,
) -> Result<(), EventsEnd>
    requires segments { HasSegments plan.now }
    requires candidates { AreCandidates plan.now candidates.now }
    requires first { first < length plan.now.ops }
    requires within { length pairs.old.items ≤ event_limit }
    ensures ok { OnOk result (pairs.new.items ≡ pairs.old.items ++ events_from plan.now first) }
    ensures within { OnOk result (length pairs.new.items ≤ event_limit) }
    ensures many { result ≡ Err TooManyEvents → event_limit < length (pairs.old.items ++ events_from plan.now first) }
{
    let mut met = Vec::new(alloc);
    let mut last = first;
    while let Some(second) = next_candidate(plan, candidates, first, last) {
        let conflicts = conflict(plan, first, second);
        let is_event = is_nearest(plan, conflicts, met.as_slice(), second);
        match push_event(pairs, (first, second), is_event) {
            Ok(()) => {}
            Err(end) => return Err(end),
        }
        push_if(&mut met, second, conflicts)?;
        last = second;
    }
    Ok(())
}

/// The events of a plan: the pairs of operations that conflict with no operation between them that conflicts with both.
/// TooManyEvents where there are more than 1,048,576; the count stops there.
pub fn events_of(alloc: Global, plan: &Plan) -> Result<Events, EventsEnd>
    ensures pairs { IfOk result (λ events. events ≡ events_of plan.now) }
    ensures within { IfOk result (λ events. length events ≤ event_limit) }
    ensures many { result ≡ Err TooManyEvents → event_limit < length (events_of plan.now) }
{
    let count = op_count(plan);
    let candidates = candidates_of(alloc, plan)?;
    let mut pairs = Vec::new(alloc);
    for first in 0..count {
        match push_events(alloc, plan, &candidates, first, &mut pairs) {
            Ok(()) => {}
            Err(end) => return Err(end),
        }
    }
    Ok(Events { pairs })
}
