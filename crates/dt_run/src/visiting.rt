//! A schedule's visits on whole tensors.

ghost use Rattle.std.specs.Prelude.{◌≡◌, ℕ, ◌<◌, ◌^◌, MatchBool, None, OnErr, OnOk, Some, [], length, map, slice_get, slice_index, slice_set};
ghost use Rattle.dt_model.specs.WholeTensor.{IsWhole, WholeTensor};
ghost use Rattle.dt_model.specs.Stmts.{shapes_of};
ghost use Rattle.dt_model.specs.Value.{tensors_after};
ghost use Rattle.dt_model.specs.declared.stmt.Stmt.{Stmt};
ghost use Rattle.dt_nest.specs.Tree.{tree_of};
ghost use Rattle.dt_nest.specs.Effects.{effect_of, with_more};
ghost use Rattle.dt_nest.specs.Outputs.{output_of};
ghost use Rattle.dt_nest.specs.Run.{IsAtLeaf};
ghost use Rattle.dt_nest.specs.Visits.{IsVisit};
ghost use Rattle.dt_nest.specs.World.{entries_of, world_of};
ghost use Rattle.dt_nest.specs.Point.{env_at, visit_of};
ghost use Rattle.dt_leaf.specs.AtVisit.{AreCoordinates};
ghost use Rattle.dt_run.specs.Visiting.{HasGoneOn, IsLeafOver, IsReady, IsRunnable, IsStmtOf, tensors_cleared, tensors_with_sum};

use crate::whole_numbers::WholeNumbers;
use dt_base::NoMemory;
use dt_leaf::{coordinates, extents_of, visit_number};
use dt_model::{Access, Locator, Whole};
use dt_nest::{Nest, Sched, Visit, Visits, visits_add_the_sum};
use std::alloc::Global;

/// Adds a number to the one at the coordinates of the left access, modulo 2^64.
fn add_number<L: Locator>(visits: &Visits<L>, lhs: &Access, number: u64, tensors: &mut Vec<Whole>)
    requires leaf { IsAtLeaf visits.now }
    requires vars { AreCoordinates visits.now None lhs.now.vars }
    requires fits { slice_get (shapes_of tensors.old.items) lhs.now.tensor ≡ Some (map (slice_index visits.now.sched.extents) lhs.now.vars) }
    ensures entries { entries_of tensors.new.items ≡ with_more (entries_of tensors.old.items) lhs.now.tensor (map (env_at visits.now None) lhs.now.vars) number }
    ensures others { (d : WholeTensor) → slice_set tensors.new.items lhs.now.tensor d ≡ slice_set tensors.old.items lhs.now.tensor d }
    ensures shapes { shapes_of tensors.new.items ≡ shapes_of tensors.old.items }
{
    let vars = lhs.vars.as_slice();
    let coords = coordinates(visits, &visits.point(), vars);
    let c = &coords[..vars.len()];
    let left = &mut tensors[lhs.tensor as usize];
    let old = left.get(c).unwrap_or(0);
    left.set(c, old.wrapping_add(number));
}

/// Adds what the last visit adds to its left tensor.
fn add_visit<L: Locator>(visits: &Visits<L>, tensors: &mut Vec<Whole>, values: &mut [Option<u32>])
    requires leaf { IsAtLeaf visits.now }
    requires room { length values.old ≡ length visits.now.sched.names }
    requires over { IsLeafOver (shapes_of tensors.old.items) visits.now.sched (visit_of visits.now).leaf }
    requires small { (u : ℕ) → slice_index visits.now.sched.extents u < 2 ^ 32 }
    ensures entries { entries_of tensors.new.items ≡ effect_of (world_of visits.now.stored visits.now.sched) visits.now.sched.derived (IsVisit (visit_of visits.now)) (entries_of tensors.old.items) }
    ensures others { (d : WholeTensor) → slice_set tensors.new.items (output_of visits.now.sched.nest) d ≡ slice_set tensors.old.items (output_of visits.now.sched.nest) d }
    ensures shapes { shapes_of tensors.new.items ≡ shapes_of tensors.old.items }
    ensures room { length values.new ≡ length values.old }
{
    match visits.leaf() {
        Nest::Loop { .. } => {}
        Nest::Pre { .. } => {}
        Nest::Leaf { lhs, terms, .. } => {
            let numbers = WholeNumbers {
                tensors: tensors.as_slice(),
            };
            let number = visit_number(visits, terms.as_slice(), &numbers, values);
            add_number(visits, lhs, number, tensors);
        }
    }
}

/// Runs the next item, and tells whether there was one. A reset changes no tensor.
fn run_next<L: Locator>(
    visits: &mut Visits<L>,
    tensors: &mut Vec<Whole>,
    values: &mut [Option<u32>],
) -> bool
    requires ready { IsReady visits.old tensors.old.items }
    requires room { length values.old ≡ length visits.old.sched.names }
    ensures gone { HasGoneOn visits.old visits.new tensors.old.items tensors.new.items }
    ensures fewer { MatchBool result (length visits.new.left < length visits.old.left) (visits.new.left ≡ []) }
    ensures room { length values.new ≡ length values.old }
{
    match visits.next() {
        None => false,
        Some(Visit::Reset(_)) => true,
        Some(Visit::Leaf) => {
            add_visit(visits, tensors, values);
            true
        }
    }
}

/// The numbers of a tensor, each below 2^64.
fn words(tensor: &Whole) -> &[u64]
    ensures whole { IsWhole tensor.now }
    ensures below { (k : ℕ) → slice_index tensor.now.values k < 2 ^ 64 }
    ensures values { result.now ≡ tensor.now.values }
{
    let values = tensor.values();
    values
}

/// The tensor that a nest writes.
fn left_of(nest: &Nest) -> u32
    ensures { result ≡ output_of (tree_of nest.now) }
{
    match nest {
        Nest::Loop { body, .. } => left_of(body),
        Nest::Pre { consumer, .. } => left_of(consumer),
        Nest::Leaf { lhs, .. } => lhs.tensor,
    }
}

/// Adds what the schedule means to its left tensor: the visits one after another, each on whole tensors.
pub fn add_visits<L: Locator>(
    alloc: Global,
    sched: &Sched,
    loc: &L,
    tensors: &mut Vec<Whole>,
) -> Result<(), NoMemory>
    requires { IsRunnable (L.tensors loc.now) tensors.old.items sched.now }
    ensures ok { OnOk result (tensors.new.items ≡ tensors_with_sum (L.tensors loc.now) sched.now tensors.old.items) }
    ensures err { OnErr result (tensors.new.items ≡ tensors.old.items) }
    ensures shapes { shapes_of tensors.new.items ≡ shapes_of tensors.old.items }
{
    let left = left_of(&sched.parts().nest);
    let _extents = extents_of(sched);
    let mut visits = Visits::over(alloc, sched, loc, &[])?;
    let mut room = visits.lane_room(alloc)?;
    let values = room.as_mut_slice();
    'visits: while run_next(&mut visits, tensors, values) {}
    let _words = words(&tensors[left as usize]);
    visits_add_the_sum();
    Ok(())
}

/// Makes each number of a tensor 0.
fn clear(alloc: Global, tensor: u32, tensors: &mut Vec<Whole>) -> Result<(), NoMemory>
    requires { tensor < length tensors.old.items }
    ensures ok { OnOk result (tensors.new.items ≡ tensors_cleared tensor tensors.old.items) }
    ensures err { OnErr result (tensors.new.items ≡ tensors.old.items) }
{
    let at = tensor as usize;
    let shape = tensors[at].shape();
    tensors[at] = Whole::zero(alloc, shape)?;
    Ok(())
}

/// Runs a statement by its schedule, with `+=` where it adds and `=` else, on tensors where the locator finds them. After
/// an `Err` the numbers of the left tensor may be other ones.
pub fn run_part<L: Locator>(
    alloc: Global,
    sched: &Sched,
    adds: bool,
    loc: &L,
    tensors: &mut Vec<Whole>,
) -> Result<(), NoMemory>
    requires { IsRunnable (L.tensors loc.now) tensors.old.items sched.now }
    ensures ok { OnOk result ((stmt : Stmt) → IsStmtOf stmt sched.now adds → tensors.new.items ≡ tensors_after stmt tensors.old.items) }
    ensures shapes { shapes_of tensors.new.items ≡ shapes_of tensors.old.items }
{
    let left = left_of(&sched.parts().nest);
    if adds {
        return add_visits(alloc, sched, loc, tensors);
    }
    clear(alloc, left, tensors)?;
    add_visits(alloc, sched, loc, tensors)
}
