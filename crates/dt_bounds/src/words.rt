//! The words of a tensor that the visits of a nest need.

ghost use Rattle.std.specs.Prelude.{◌≡◌, ℕ, ◌<◌, ◌&&◌, ◌||◌, length, option_map, nat_lt, Some, IfOk, OnOk};
ghost use Rattle.std.specs.List.{list_any};
ghost use Rattle.dt_model.specs.Positions.{coords_at, tensor_at};
ghost use Rattle.dt_runs.specs.Sets.{contains};
ghost use Rattle.dt_nest.specs.World.{world_of};
ghost use Rattle.dt_nest.specs.FitsStored.{FitsStored};
ghost use Rattle.dt_nest.specs.Visits.{IsPath, needed_of, touches, visits_of};
ghost use Rattle.dt_nest.specs.Run.{answer_of};
ghost use Rattle.dt_bounds.specs.Found.{Adds};
ghost use Rattle.dt_bounds.specs.Points.{IsTarget, last_touches, is_touched};

use crate::accesses::{Found, Target, push_visit};
use crate::found::set_of;
use dt_base::NoMemory;
use dt_model::Locator;
use dt_nest::{Sched, Visit, Visits};
use dt_runs::Runs;
use std::alloc::Global;

/// The positions of a tensor at which accesses stand in the leaf visits that extend a path. The time is linear in what
/// the visits read and write, but for a sort.
pub fn needed<L: Locator>(
    alloc: Global,
    sched: &Sched,
    loc: &L,
    tensor: u32,
    path: &[u32],
) -> Result<Runs, NoMemory>
    requires fits { FitsStored (L.tensors loc.now) sched.now }
    requires path { IsPath sched.now path.now }
    requires tensor { tensor < length (L.tensors loc.now) }
    ensures { IfOk result (λ runs. runs ≡ needed_of (L.tensors loc.now) sched.now tensor path.now) }
{
    let positions = touched(alloc, sched, loc, tensor, path)?;
    set_of(alloc, positions)
}

/// The positions that the visits touch, in any order.
fn touched<L: Locator>(
    alloc: Global,
    sched: &Sched,
    loc: &L,
    tensor: u32,
    path: &[u32],
) -> Result<Vec<u32>, NoMemory>
    requires fits { FitsStored (L.tensors loc.now) sched.now }
    requires path { IsPath sched.now path.now }
    requires tensor { tensor < length (L.tensors loc.now) }
    ensures { IfOk result (λ positions. (x : ℕ) → contains positions.items x ≡ is_touched (world_of (L.tensors loc.now) sched.now) sched.now.derived (tensor_at (L.tensors loc.now) tensor) tensor (visits_of (L.tensors loc.now) sched.now path.now) x) }
{
    let mut visits = Visits::over(alloc, sched, loc, path)?;
    let mut room = visits.lane_room(alloc)?;
    let values = room.as_mut_slice();
    let target = Target { loc, tensor };
    let mut found = Found {
        positions: Vec::new(alloc),
        coords: Vec::new(alloc),
    };
    loop {
        match visits.next() {
            None => return Ok(positions_of(found)),
            Some(item) => push_item(&visits, item, &target, values, &mut found)?,
        }
    }
}

fn positions_of(found: Found) -> Vec<u32>
    ensures { result ≡ found.positions }
{
    let Found {
        positions,
        coords: _,
    } = found;
    positions
}

/// Adds the positions that the last item touches, which is this one.
fn push_item<L: Locator>(
    visits: &Visits<L>,
    item: Visit,
    target: &Target<L>,
    values: &mut [Option<u32>],
    found: &mut Found,
) -> Result<(), NoMemory>
    requires item { option_map answer_of visits.now.last ≡ Some item }
    requires target { IsTarget (L.tensors target.now.loc.now) target.now.tensor }
    requires room { length values.old ≡ length visits.now.sched.names }
    ensures adds { OnOk result (Adds (length (tensor_at (L.tensors target.now.loc.now) target.now.tensor).coords) (last_touches visits.now (tensor_at (L.tensors target.now.loc.now) target.now.tensor) target.now.tensor) found.old.positions.items found.new.positions.items) }
    ensures room { length values.new ≡ length values.old }
{
    match item {
        Visit::Reset(_) => Ok(()),
        Visit::Leaf => push_visit(visits, target, values, found),
    }
}
