//! A step of the inner loops of a run, with the values of all variables.

ghost use Rattle.std.specs.Prelude.{◌≡◌, ◌<◌, ℕ, [], length};
ghost use Rattle.dt_nest.specs.Schedule.{seen};
ghost use Rattle.dt_nest.specs.Tree.{tree_of};
ghost use Rattle.dt_nest.specs.World.{world_of};
ghost use Rattle.dt_nest.specs.Lawful.{IsLawful};
ghost use Rattle.dt_nest.specs.Cursor.{HasRoom};
ghost use Rattle.dt_nest.specs.Search.{pairs_at};
ghost use Rattle.dt_nest.specs.declared.progress.Progress.TheVariants.{On};
ghost use Rattle.dt_nest.specs.ValueTables.{IsLeafTable, IsTable};
ghost use Rattle.dt_nest.specs.Visited.{CanTurn, IsKept, StepIs, TurnIs};
ghost use Rattle.dt_nest.specs.InnerLoops.{AreInnerLoops};
ghost use Rattle.dt_nest.specs.Run.{CanGoOn, IsSound, Moves, left_of, run_tests};

use crate::conditions::Conditions;
use crate::cursor::Cursor;
use crate::guards::hold;
use crate::inner_loops::{InnerLoops, turn};
use crate::naming::{Naming, Unrenamed};
use crate::progress::{Progress, advanced};
use crate::value_tables::{Table, refill};
use crate::visited::tabulate_leaf;
use dt_model::Locator;

/// Goes on to the next item: by a step of the inner loops, where that comes to a visit, and else by a search.
pub fn stepped<L: Locator>(
    conditions: &Conditions<L>,
    path: &[u32],
    inner_loops: &InnerLoops,
    progress: Progress,
    cursor: &mut Cursor,
) -> Progress
    requires sound { IsSound (L.tensors conditions.now.loc.now) (seen conditions.now.parts.now) path.now cursor.old.slots.items progress }
    requires kept { IsKept (L.tensors conditions.now.loc.now) (seen conditions.now.parts.now) path.now cursor.old.slots.items progress inner_loops.now cursor.old.values.items }
    ensures sound { IsSound (L.tensors conditions.now.loc.now) (seen conditions.now.parts.now) path.now cursor.new.slots.items result }
    ensures moves { Moves (run_tests (L.tensors conditions.now.loc.now) (seen conditions.now.parts.now)) (tree_of conditions.now.parts.now.nest) path.now (left_of (run_tests (L.tensors conditions.now.loc.now) (seen conditions.now.parts.now)) (tree_of conditions.now.parts.now.nest) path.now cursor.old.slots.items progress) cursor.new.slots.items result }
    ensures kept { IsKept (L.tensors conditions.now.loc.now) (seen conditions.now.parts.now) path.now cursor.new.slots.items result inner_loops.now cursor.new.values.items }
{
    if !progress.is_on(inner_loops.leaf) {
        return searched(conditions, path, inner_loops, progress, cursor);
    }
    if turned(conditions, path, inner_loops, cursor) {
        return progress;
    }
    searched(conditions, path, inner_loops, progress, cursor)
}

/// Goes on to the next item by a search.
fn searched<L: Locator>(
    conditions: &Conditions<L>,
    path: &[u32],
    inner_loops: &InnerLoops,
    progress: Progress,
    cursor: &mut Cursor,
) -> Progress
    requires on { CanGoOn (L.tensors conditions.now.loc.now) (seen conditions.now.parts.now) path.now cursor.old.slots.items progress }
    requires inner_loops { AreInnerLoops (seen conditions.now.parts.now) path.now inner_loops.now }
    requires size { HasRoom cursor.old (length conditions.now.parts.now.names) }
    ensures sound { IsSound (L.tensors conditions.now.loc.now) (seen conditions.now.parts.now) path.now cursor.new.slots.items result }
    ensures moves { Moves (run_tests (L.tensors conditions.now.loc.now) (seen conditions.now.parts.now)) (tree_of conditions.now.parts.now.nest) path.now (left_of (run_tests (L.tensors conditions.now.loc.now) (seen conditions.now.parts.now)) (tree_of conditions.now.parts.now.nest) path.now cursor.old.slots.items progress) cursor.new.slots.items result }
    ensures kept { IsKept (L.tensors conditions.now.loc.now) (seen conditions.now.parts.now) path.now cursor.new.slots.items result inner_loops.now cursor.new.values.items }
{
    let next = advanced(conditions, path, progress, cursor);
    tabulate_visit(conditions, next, cursor);
    next
}

/// Makes the values of all variables, where the run stands on a leaf.
fn tabulate_visit<L: Locator>(conditions: &Conditions<L>, progress: Progress, cursor: &mut Cursor)
    requires lawful { IsLawful (seen conditions.now.parts.now) }
    requires tensors { length (L.tensors conditions.now.loc.now) ≡ length conditions.now.parts.now.tensors }
    requires size { HasRoom cursor.old (length conditions.now.parts.now.names) }
    ensures table { (leaf : ℕ) → progress ≡ On leaf → IsLeafTable (world_of (L.tensors conditions.now.loc.now) (seen conditions.now.parts.now)) conditions.now.parts.now.derived [] (pairs_at (tree_of conditions.now.parts.now.nest) leaf) cursor.old.slots.items cursor.new.values.items }
    ensures slots { cursor.new.slots.items ≡ cursor.old.slots.items }
    ensures size { HasRoom cursor.new (length conditions.now.parts.now.names) }
{
    match progress {
        Progress::Before => {}
        Progress::Resetting { .. } => {}
        Progress::On { leaf } => {
            let nest = &conditions.parts.nest;
            tabulate_leaf(nest, &Naming::Root, conditions, leaf, cursor);
        }
        Progress::Done => {}
    }
}

/// Goes on by steps of the inner loops to the next visit of their leaf, and tells whether there is one.
fn turned<L: Locator>(
    conditions: &Conditions<L>,
    path: &[u32],
    inner_loops: &InnerLoops,
    cursor: &mut Cursor,
) -> bool
    requires on { CanGoOn (L.tensors conditions.now.loc.now) (seen conditions.now.parts.now) path.now cursor.old.slots.items (On inner_loops.now.leaf) }
    requires inner_loops { AreInnerLoops (seen conditions.now.parts.now) path.now inner_loops.now }
    requires size { HasRoom cursor.old (length conditions.now.parts.now.names) }
    requires table { IsTable (world_of (L.tensors conditions.now.loc.now) (seen conditions.now.parts.now)) conditions.now.parts.now.derived (λ u. u) cursor.old.slots.items cursor.old.values.items }
    ensures turns { TurnIs (L.tensors conditions.now.loc.now) (seen conditions.now.parts.now) path.now inner_loops.now cursor.old.slots.items cursor.new.slots.items result }
    ensures table { IsTable (world_of (L.tensors conditions.now.loc.now) (seen conditions.now.parts.now)) conditions.now.parts.now.derived (λ u. u) cursor.new.slots.items cursor.new.values.items }
    ensures size { HasRoom cursor.new (length conditions.now.parts.now.names) }
{
    for _ in 0..u32::MAX {
        match step(conditions, inner_loops, cursor) {
            Outcome::Comes => return true,
            Outcome::Passes => {}
            Outcome::Ends => return false,
        }
    }
    false
}

/// What a step of the inner loops comes to: a visit, a leaf whose guards fail, or nothing, where no inner loop can go on.
#[derive(Clone, Copy, Debug)]
enum Outcome {
    Comes,
    Passes,
    Ends,
}

/// Goes on by one step of the inner loops. It makes the values alone that follow from the loops that turned.
fn step<L: Locator>(
    conditions: &Conditions<L>,
    inner_loops: &InnerLoops,
    cursor: &mut Cursor,
) -> Outcome
    requires lawful { IsLawful (seen conditions.now.parts.now) }
    requires tensors { length (L.tensors conditions.now.loc.now) ≡ length conditions.now.parts.now.tensors }
    requires turn { CanTurn (seen conditions.now.parts.now) inner_loops.now }
    requires size { HasRoom cursor.old (length conditions.now.parts.now.names) }
    requires table { IsTable (world_of (L.tensors conditions.now.loc.now) (seen conditions.now.parts.now)) conditions.now.parts.now.derived (λ u. u) cursor.old.slots.items cursor.old.values.items }
    ensures steps { StepIs (run_tests (L.tensors conditions.now.loc.now) (seen conditions.now.parts.now)) (tree_of conditions.now.parts.now.nest) inner_loops.now cursor.old.slots.items cursor.new.slots.items result }
    ensures table { IsTable (world_of (L.tensors conditions.now.loc.now) (seen conditions.now.parts.now)) conditions.now.parts.now.derived (λ u. u) cursor.new.slots.items cursor.new.values.items }
    ensures size { HasRoom cursor.new (length conditions.now.parts.now.names) }
{
    match turn(inner_loops.items.as_slice(), cursor) {
        None => Outcome::Ends,
        Some(inner_loop) => {
            let parts = conditions.parts;
            let lists = inner_loops.derived.as_slice();
            let follow = &lists[inner_loop];
            refill(
                follow.as_slice(),
                parts,
                conditions.loc,
                cursor.values.as_mut_slice(),
            );
            let names = &Unrenamed;
            let values = cursor.values.as_slice();
            let known = Table { names, values };
            if hold(
                inner_loops.guards.as_slice(),
                parts.extents.as_slice(),
                &known,
            ) {
                Outcome::Comes
            } else {
                Outcome::Passes
            }
        }
    }
}
