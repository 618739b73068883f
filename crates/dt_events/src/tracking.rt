//! The tracker of a plan.

ghost use Rattle.std.specs.Prelude.{◌≡◌, ◌≤◌, IfOk, length, map};
ghost use Rattle.dt_plan.specs.declared.ops.Op.{Op};
ghost use Rattle.dt_tracker.specs.Tracks.{opening_of};
ghost use Rattle.dt_events.specs.Events.{event_limit, events_of};

use crate::events::Events;
use dt_base::NoMemory;
use dt_plan::{Op, Plan};
use dt_tracker::Tracker;
use std::alloc::Global;

/// The units of each operation.
fn op_units(alloc: Global, ops: &[Op]) -> Result<Vec<u32>, NoMemory>
    ensures { IfOk result (λ v. v.items ≡ map (λ (o : Op). o.units) ops.now) }
{
    let mut units = Vec::new(alloc);
    for op in ops {
        units.push(op.units)?;
    }
    Ok(units)
}

/// A tracker of a plan's operations, from the plan and its events. No unit is done.
pub fn tracker_of(alloc: Global, plan: &Plan, events: &Events) -> Result<Tracker, NoMemory>
    requires events { events.now ≡ events_of plan.now }
    requires few { length events.now ≤ event_limit }
    ensures { IfOk result (λ t. t ≡ opening_of (map (λ (o : Op). o.units) plan.now.ops) (events_of plan.now)) }
{
    let units = op_units(alloc, plan.ops())?;
    Tracker::new(alloc, units.as_slice(), events.pairs())
}
