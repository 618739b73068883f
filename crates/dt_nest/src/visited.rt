//! The leaf of a visit, and the values of all variables there.

ghost use Rattle.std.specs.Prelude.{◌≡◌, ◌<◌, ◌^◌, ℕ, length};
ghost use Rattle.std.specs.List.{AllByRecursion};
ghost use Rattle.dt_nest.specs.Schedule.{seen};
ghost use Rattle.dt_nest.specs.Tree.{tree_of, leaf_count};
ghost use Rattle.dt_nest.specs.Meaning.{renamed};
ghost use Rattle.dt_nest.specs.World.{world_of};
ghost use Rattle.dt_nest.specs.Lawful.{AreNamed, IsNamed};
ghost use Rattle.dt_nest.specs.Naming.{pairs_in};
ghost use Rattle.dt_nest.specs.Cursor.{HasRoom};
ghost use Rattle.dt_nest.specs.Search.{pairs_at};
ghost use Rattle.dt_nest.specs.ValueTables.{IsLeafTable, tabled};
ghost use Rattle.dt_nest.specs.Values.{inside_tests};
ghost use Rattle.dt_nest.specs.Branch.{substituted_at, valid_at};
ghost use Rattle.dt_nest.specs.Visited.{HasLaneTable, IsVisited};

use crate::branches::{Substituted, leaf_of, substituted_of};
use crate::conditions::Conditions;
use crate::cursor::Cursor;
use crate::loops::{Nest, Pair};
use crate::naming::Naming;
use crate::search::{has_kernel, leaves};
use crate::value_tables::{Lane, tabled, tabulate_cursor, tabulate_lane};
use dt_model::Locator;

/// A leaf, and the substituted loop around it.
#[derive(Clone, Copy)]
pub struct VisitedLeaf<'s> {
    pub nest: &'s Nest,
    pub substituted: Option<Substituted>,
}

impl<'s> VisitedLeaf<'s> {
    /// The leaf with this number.
    pub fn of(nest: &'s Nest, leaf: u32) -> VisitedLeaf<'s>
        requires { leaf_count (tree_of nest.now) < 2 ^ 32 }
        ensures { IsVisited (tree_of nest.now) leaf result }
    {
        VisitedLeaf {
            nest: leaf_of(nest, leaf),
            substituted: substituted_of(nest, leaf),
        }
    }

    /// The leaf with the second number, where this is the one with the first.
    pub fn next(self, nest: &'s Nest, from: u32, to: u32) -> VisitedLeaf<'s>
        requires few { leaf_count (tree_of nest.now) < 2 ^ 32 }
        requires from { IsVisited (tree_of nest.now) from self }
        ensures { IsVisited (tree_of nest.now) to result }
    {
        if from == to {
            self
        } else {
            VisitedLeaf::of(nest, to)
        }
    }
}

/// Gives each renamed variable the value under its new name.
fn rename(pairs: &[Pair], values: &mut [Option<u32>])
    requires { AllByRecursion (λ p. p.from < length values.old) pairs.now }
    ensures values { (u : ℕ) → tabled values.new u ≡ tabled values.old (renamed pairs.now u) }
    ensures length { length values.new ≡ length values.old }
{
    match pairs.split_first() {
        None => {}
        Some((pair, rest)) => {
            rename(rest, values);
            let value = tabled(values, pair.to);
            values[pair.from as usize] = value;
        }
    }
}

/// Makes the values of all variables at a leaf, each under the name that it has outside all producers.
pub fn tabulate_leaf<L: Locator>(
    nest: &Nest,
    naming: &Naming,
    conditions: &Conditions<L>,
    leaf: u32,
    cursor: &mut Cursor,
)
    requires few { leaf_count (tree_of nest.now) < 2 ^ 32 }
    requires nest { IsNamed (seen conditions.now.parts.now) (tree_of nest.now) }
    requires named { AreNamed (seen conditions.now.parts.now) conditions.now.parts.now.derived }
    requires tensors { length (L.tensors conditions.now.loc.now) ≡ length conditions.now.parts.now.tensors }
    requires size { HasRoom cursor.old (length conditions.now.parts.now.names) }
    ensures table { IsLeafTable (world_of (L.tensors conditions.now.loc.now) (seen conditions.now.parts.now)) conditions.now.parts.now.derived (pairs_in naming.now) (pairs_at (tree_of nest.now) leaf) cursor.old.slots.items cursor.new.values.items }
    ensures slots { cursor.new.slots.items ≡ cursor.old.slots.items }
    ensures size { HasRoom cursor.new (length conditions.now.parts.now.names) }
{
    match nest {
        Nest::Loop { body, .. } => tabulate_leaf(body, naming, conditions, leaf, cursor),
        Nest::Pre {
            pairs,
            producer,
            consumer,
            ..
        } => {
            let count = leaves(producer);
            if leaf < count {
                let inner = Naming::Under(pairs.as_slice(), &*naming);
                tabulate_leaf(producer, &inner, conditions, leaf, cursor);
                rename(pairs.as_slice(), cursor.values.as_mut_slice());
            } else {
                tabulate_leaf(consumer, naming, conditions, leaf - count, cursor);
            }
        }
        Nest::Leaf { .. } => tabulate_cursor(conditions, naming, cursor),
    }
}

/// A leaf, and a value of the substituted loop around it.
#[derive(Clone, Copy, Debug)]
pub struct LeafLane {
    pub leaf: u32,
    pub value: u32,
}

/// Makes the values of all variables at a leaf, where the substituted loop around it has a value, each under the name
/// that it has outside all producers. The answer is whether that value is valid, and no where no loop is substituted.
pub fn tabulate_leaf_lane<L: Locator>(
    nest: &Nest,
    naming: &Naming,
    conditions: &Conditions<L>,
    lane: LeafLane,
    slots: &[u32],
    values: &mut [Option<u32>],
) -> bool
    requires few { leaf_count (tree_of nest.now) < 2 ^ 32 }
    requires nest { IsNamed (seen conditions.now.parts.now) (tree_of nest.now) }
    requires named { AreNamed (seen conditions.now.parts.now) conditions.now.parts.now.derived }
    requires tensors { length (L.tensors conditions.now.loc.now) ≡ length conditions.now.parts.now.tensors }
    requires room { length slots.now ≡ length conditions.now.parts.now.names }
    requires values { length values.old ≡ length conditions.now.parts.now.names }
    ensures valid { result ≡ valid_at (inside_tests (world_of (L.tensors conditions.now.loc.now) (seen conditions.now.parts.now)) conditions.now.parts.now.derived) (tree_of nest.now) (pairs_in naming.now) slots.now lane.leaf lane.value }
    ensures table { HasLaneTable (world_of (L.tensors conditions.now.loc.now) (seen conditions.now.parts.now)) conditions.now.parts.now.derived (pairs_in naming.now) (pairs_at (tree_of nest.now) lane.leaf) slots.now (substituted_at (tree_of nest.now) lane.leaf) lane.value values.new }
    ensures values { length values.new ≡ length values.old }
{
    let value = lane.value;
    match nest {
        Nest::Loop {
            var,
            walk,
            body,
            ..
        } => {
            if has_kernel(body) {
                let at = Lane { var: *var, value };
                tabulate_lane(conditions, naming, slots, at, values);
                return conditions.takes_from(walk, *var, naming, values)
                    && conditions.holds_from(body, naming, values);
            }
            tabulate_leaf_lane(body, naming, conditions, lane, slots, values)
        }
        Nest::Pre {
            pairs,
            producer,
            consumer,
            ..
        } => {
            let count = leaves(producer);
            if lane.leaf < count {
                let inner = Naming::Under(pairs.as_slice(), &*naming);
                let valid = tabulate_leaf_lane(producer, &inner, conditions, lane, slots, values);
                rename(pairs.as_slice(), values);
                return valid;
            }
            let leaf = lane.leaf - count;
            let lane = LeafLane { leaf, value };
            tabulate_leaf_lane(consumer, naming, conditions, lane, slots, values)
        }
        Nest::Leaf { .. } => false,
    }
}
