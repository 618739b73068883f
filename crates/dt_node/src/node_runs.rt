//! The visits of a schedule, done on one node.

ghost use Rattle.std.specs.Prelude.{◌≡◌, ◌↔◌, ◌<◌, IfOk, IfSome, IsTrue, MatchBool, OnErr, OnOk, [], is_some, length};
ghost use Rattle.dt_nest.specs.FitsStored.{FitsStored};
ghost use Rattle.dt_nest.specs.Run.{run_over};
ghost use Rattle.dt_nest.specs.Visits.{visits_of};
ghost use Rattle.dt_bounds.specs.TaskUnits.{units_after};
ghost use Rattle.dt_leaf.specs.NodeWords.{AreApart, LeavesRest, cells_in};
ghost use Rattle.dt_node.specs.Nodes.{AreThere, HoldsAll, IsReady};

use crate::holding::holds_all;
use dt_base::NoMemory;
use dt_bounds::tasks_are_defined;
use dt_leaf::{items_are_short, visit};
use dt_mem::NodeMem;
use dt_model::Locator;
use dt_nest::{Sched, Visits};
use std::alloc::Global;

/// A run over all visits of a schedule, and none where the node lacks a word of its tensors or workspaces. `slots` has the
/// buffer of each.
pub fn visits_on_node<'s, L: Locator>(
    alloc: Global,
    mem: &NodeMem<'_>,
    sched: &'s Sched,
    loc: &'s L,
    slots: &[u32],
) -> Result<Option<Visits<'s, L>>, NoMemory>
    requires fits { FitsStored (L.tensors loc.now) sched.now }
    requires there { AreThere slots.now mem.now }
    ensures held { IfOk result (λ o. IsTrue (is_some o) ↔ HoldsAll (L.tensors loc.now) sched.now (cells_in mem.now slots.now)) }
    ensures whole { IfOk result (λ o. IfSome o (λ v. v ≡ run_over (L.tensors loc.now) sched.now [])) }
    ensures ready { IfOk result (λ o. IfSome o (λ v. IsReady (L.tensors loc.now) sched.now v (cells_in mem.now slots.now))) }
{
    if !holds_all(mem, sched, loc, slots) {
        return Ok(None);
    }
    let _parts = sched.parts();
    tasks_are_defined();
    items_are_short();
    let visits = Visits::over(alloc, sched, loc, &[])?;
    Ok(Some(visits))
}

/// Does the next item of a run on a node's memory, and tells whether there was one. `slots` has the buffer of each tensor and
/// workspace, and `values` is room for the values of all variables. It takes no memory.
pub fn run_next<L: Locator>(
    mem: &mut NodeMem<'_>,
    sched: &Sched,
    loc: &L,
    visits: &mut Visits<L>,
    slots: &[u32],
    values: &mut [Option<u32>],
) -> bool
    requires ready { IsReady (L.tensors loc.now) sched.now visits.old (cells_in mem.old slots.now) }
    requires apart { AreApart slots.now }
    requires room { length values.old ≡ length sched.now.names }
    ensures ready { IsReady (L.tensors loc.now) sched.now visits.new (cells_in mem.new slots.now) }
    ensures after { units_after (L.tensors loc.now) sched.now visits.new.left (cells_in mem.new slots.now) ≡ units_after (L.tensors loc.now) sched.now visits.old.left (cells_in mem.old slots.now) }
    ensures fewer { MatchBool result (length visits.new.left < length visits.old.left) (visits.new.left ≡ []) }
    ensures rest { LeavesRest slots.now mem.old mem.new }
    ensures room { length values.new ≡ length values.old }
{
    match visits.next() {
        None => false,
        Some(_) => {
            visit(mem, sched, loc, visits, slots, values);
            true
        }
    }
}

/// Does all visits of a schedule, one after another, on a node that holds each word of its tensors and workspaces. After an
/// `Err` the memory is as it was.
pub fn run_on_node<L: Locator>(
    alloc: Global,
    mem: &mut NodeMem<'_>,
    sched: &Sched,
    loc: &L,
    slots: &[u32],
) -> Result<(), NoMemory>
    requires fits { FitsStored (L.tensors loc.now) sched.now }
    requires held { HoldsAll (L.tensors loc.now) sched.now (cells_in mem.old slots.now) }
    requires apart { AreApart slots.now }
    ensures ok { OnOk result (cells_in mem.new slots.now ≡ units_after (L.tensors loc.now) sched.now (visits_of (L.tensors loc.now) sched.now []) (cells_in mem.old slots.now)) }
    ensures err { OnErr result (mem.new ≡ mem.old) }
    ensures rest { LeavesRest slots.now mem.old mem.new }
{
    let _parts = sched.parts();
    tasks_are_defined();
    items_are_short();
    let mut visits = Visits::over(alloc, sched, loc, &[])?;
    let mut room = visits.lane_room(alloc)?;
    let values = room.as_mut_slice();
    'visits: while run_next(mem, sched, loc, &mut visits, slots, values) {}
    Ok(())
}
