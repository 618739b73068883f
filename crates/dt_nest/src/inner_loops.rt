//! The inner loops of a nest, those just around its last leaf.

ghost use Rattle.std.specs.Prelude.{◌≡◌, ◌<◌, ◌+◌, ◌++◌, ℕ, false, Some, None, is_some, IfNone, IfOk, IfSome, OnOk, if◌then◌else◌, length, slice_index, take};
ghost use Rattle.std.specs.List.{AllByRecursion};
ghost use Rattle.dt_nest.specs.Tree.{leaf_count, tree_of};
ghost use Rattle.dt_nest.specs.Schedule.{seen};
ghost use Rattle.dt_nest.specs.Lawful.{IsLawful};
ghost use Rattle.dt_nest.specs.ValueTables.{tabled};
ghost use Rattle.dt_nest.specs.InnerLoops.{AreInnerLoops, is_plain, is_inner_loop, last_node, last_inner_loops, turned, inner_loops_of};

use crate::cursor::Cursor;
use crate::dependents::inner_loop_dependents;
use crate::derivations::Derivations;
use crate::loops::{Kernel, Nest};
use crate::parts::SchedParts;
use crate::search::leaves;
use dt_base::NoMemory;
use std::alloc::Global;

/// A loop, and its last value.
#[derive(Clone, Copy, Debug)]
pub struct InnerLoop {
    pub var: u32,
    pub last: u32,
}

/// The loops just around the last leaf of a nest, the innermost first, with the derivations that follow from each or from
/// those inside it, and the guards and the number of that leaf.
#[derive(Drop)]
pub struct InnerLoops {
    pub items: Vec<InnerLoop>,
    pub derived: Vec<Derivations>,
    pub guards: Vec<u32>,
    pub leaf: u32,
}

impl InnerLoops {
    /// The inner loops of a schedule's nest, below a path.
    pub fn of(alloc: Global, parts: &SchedParts, path: &[u32]) -> Result<InnerLoops, NoMemory>
        requires { IsLawful (seen parts.now) }
        ensures { IfOk result (λ inner_loops. AreInnerLoops (seen parts.now) path.now inner_loops) }
    {
        let items = last_inner_loops(alloc, &parts.nest, path)?;
        let names = parts.names.as_slice().len();
        let derived = inner_loop_dependents(
            alloc,
            parts.derived.as_slice(),
            items.as_slice(),
            names,
        )?;
        let guards = Vec::from_slice(alloc, last_guards(&parts.nest))?;
        Ok(InnerLoops {
            items,
            derived,
            guards,
            leaf: leaves(&parts.nest).saturating_sub(1),
        })
    }
}

/// Whether a nest is a leaf in loops that are neither walked nor substituted.
fn is_plain(nest: &Nest) -> bool
    ensures { result ≡ is_plain (tree_of nest.now) }
{
    match nest {
        Nest::Loop { walk, body, .. } => match walk {
            None => is_plain(body),
            Some(_) => false,
        },
        Nest::Pre { .. } => false,
        Nest::Leaf { kernel, .. } => match kernel {
            Kernel::Plain => true,
            Kernel::Dot => false,
            Kernel::Dot3 => false,
        },
    }
}

/// Puts the loops of a nest down to its leaf or precompute node behind others, the innermost first.
fn push_inner_loops(nest: &Nest, inner_loops: &mut Vec<InnerLoop>) -> Result<(), NoMemory>
    ensures { OnOk result (inner_loops.new.items ≡ inner_loops.old.items ++ inner_loops_of (tree_of nest.now)) }
{
    match nest {
        Nest::Loop {
            var,
            extent,
            body,
            ..
        } => {
            push_inner_loops(body, inner_loops)?;
            inner_loops.push(InnerLoop {
                var: *var,
                last: (*extent).saturating_sub(1),
            })?;
            Ok(())
        }
        Nest::Pre { .. } => Ok(()),
        Nest::Leaf { .. } => Ok(()),
    }
}

/// The loops around the last leaf of a nest, below a path, the innermost first: those inside every loop that is walked or
/// substituted and every precompute node.
fn last_inner_loops(alloc: Global, nest: &Nest, path: &[u32]) -> Result<Vec<InnerLoop>, NoMemory>
    ensures { IfOk result (λ inner_loops. inner_loops.items ≡ last_inner_loops (tree_of nest.now) path.now) }
{
    match nest {
        Nest::Loop { body, .. } => match path.split_first() {
            Some((_, rest)) => last_inner_loops(alloc, body, rest),
            None => {
                if !is_plain(nest) {
                    return last_inner_loops(alloc, body, path);
                }
                let mut inner_loops = Vec::new(alloc);
                push_inner_loops(nest, &mut inner_loops)?;
                Ok(inner_loops)
            }
        },
        Nest::Pre { consumer, .. } => last_inner_loops(alloc, consumer, &[]),
        Nest::Leaf { .. } => Ok(Vec::new(alloc)),
    }
}

/// The guards of the last leaf.
fn last_guards(nest: &Nest) -> &[u32]
    ensures { result.now ≡ (last_node (tree_of nest.now)).guards }
{
    match nest {
        Nest::Loop { body, .. } => last_guards(body),
        Nest::Pre { consumer, .. } => last_guards(consumer),
        Nest::Leaf { guards, .. } => guards.as_slice(),
    }
}

/// Goes on by one step, where an inner loop can, and tells which did, or else leaves all as it is. The values of loops follow
/// their slots.
pub fn turn(inner_loops: &[InnerLoop], cursor: &mut Cursor) -> Option<usize>
    requires room { AllByRecursion (λ w. w.var < length cursor.old.slots.items) inner_loops.now }
    requires values { length cursor.old.values.items ≡ length cursor.old.slots.items }
    ensures turned { turned inner_loops.now cursor.old.slots.items ≡ (if is_some result then Some cursor.new.slots.items else None) }
    ensures within { IfSome result (λ k. k < length inner_loops.now) }
    ensures stay { IfSome result (λ k. (u : ℕ) → is_inner_loop (take (k + 1) inner_loops.now) u ≡ false → slice_index cursor.new.slots.items u ≡ slice_index cursor.old.slots.items u) }
    ensures follow { (u : ℕ) → tabled cursor.old.values.items u ≡ Some (slice_index cursor.old.slots.items u) → tabled cursor.new.values.items u ≡ Some (slice_index cursor.new.slots.items u) }
    ensures others { (u : ℕ) → is_inner_loop inner_loops.now u ≡ false → tabled cursor.new.values.items u ≡ tabled cursor.old.values.items u }
    ensures length { length cursor.new.slots.items ≡ length cursor.old.slots.items }
    ensures values { length cursor.new.values.items ≡ length cursor.old.slots.items }
    ensures stays { IfNone result ((cursor.new.slots.items ≡ cursor.old.slots.items) × (cursor.new.values.items ≡ cursor.old.values.items)) }
{
    match inner_loops.split_first() {
        None => None,
        Some((inner_loop, rest)) => {
            let at = inner_loop.var as usize;
            let x = cursor.slots[at];
            if x < inner_loop.last {
                cursor.slots[at] = x + 1;
                cursor.values[at] = Some(x + 1);
                return Some(0);
            }
            match turn(rest, cursor) {
                None => None,
                Some(k) => {
                    cursor.slots[at] = 0;
                    cursor.values[at] = Some(0);
                    Some(k + 1)
                }
            }
        }
    }
}
