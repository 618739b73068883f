//! A nest is cut where it is: its loops and leaves are moved, and none is copied.

ghost use Rattle.std.specs.Prelude.{◌≡◌, ◌-◌, ◌<◌, ◌^◌, IfOk, OnOk, OnErr};
ghost use Rattle.dt_nest.specs.Tree.{tree_of};
ghost use Rattle.dt_cuts.specs.Place.{at_loop, bared, filled, guarded, loops_around, without_loops};
ghost use Rattle.dt_cuts.specs.Cutting.{cut_tree};

use crate::cuts::{Cut, Head};
use dt_base::{NoMemory, Vars};
use dt_model::{Access, Terms};
use dt_nest::{Kernel, Nest, has_loop};
use std::alloc::Global;
use std::mem;

/// Puts the loops of the cut in the place of those that go. Where memory runs out, the nest is as it was.
pub fn cut_nest(alloc: Global, nest: &mut Nest, cut: &Cut) -> Result<(), NoMemory>
    ensures ok { OnOk result (tree_of nest.new ≡ cut_tree cut.now.old cut.now.heads cut.now.guards (tree_of nest.old)) }
    ensures err { OnErr result (tree_of nest.new ≡ tree_of nest.old) }
{
    match cut.old.as_slice().split_first() {
        None => Ok(()),
        Some((first, rest)) => cut_at(alloc, nest, first.var, rest.len(), cut),
    }
}

/// Puts something else at loop `v`: the loops that come, around what is inside `more` loops of the body.
#[tactic(auto, using(crate::proofs::InPlace::at_absent))]
fn cut_at(alloc: Global, nest: &mut Nest, v: u32, more: usize, cut: &Cut) -> Result<(), NoMemory>
    requires { more < 2 ^ 64 - 1 }
    ensures ok { OnOk result (tree_of nest.new ≡ at_loop v (λ _ _ body. loops_around cut.now.heads (guarded cut.now.guards (without_loops more body))) (tree_of nest.old)) }
    ensures err { OnErr result (tree_of nest.new ≡ tree_of nest.old) }
{
    match nest {
        Nest::Loop { var, body, .. } => {
            if *var == v {
                exchange(alloc, nest, more + 1, cut)
            } else {
                cut_at(alloc, body, v, more, cut)
            }
        }
        Nest::Pre {
            producer,
            consumer,
            ..
        } => {
            if !has_loop(consumer, v) {
                return cut_at(alloc, producer, v, more, cut);
            }
            if !has_loop(producer, v) {
                return cut_at(alloc, consumer, v, more, cut);
            }
            // The copy is cut first, so that nothing has changed where the producer can't be cut.
            let mut second = consumer.copied(alloc)?;
            cut_at(alloc, &mut second, v, more, cut)?;
            cut_at(alloc, producer, v, more, cut)?;
            **consumer = second;
            Ok(())
        }
        Nest::Leaf { .. } => Ok(()),
    }
}

/// Puts the loops that come, and their guards, in the place of the first `count` loops.
#[tactic(auto, using(crate::proofs::InPlace::filled_around, crate::proofs::InPlace::without_guarded))]
fn exchange(alloc: Global, nest: &mut Nest, count: usize, cut: &Cut) -> Result<(), NoMemory>
    ensures ok { OnOk result (tree_of nest.new ≡ loops_around cut.now.heads (guarded cut.now.guards (without_loops count (tree_of nest.old)))) }
    ensures err { OnErr result (tree_of nest.new ≡ tree_of nest.old) }
{
    let heads = cut.heads.as_slice();
    let mut frame = around(alloc, heads, nothing(alloc))?;
    guard(nest, cut.guards.as_slice())?;
    let old = mem::replace(nest, nothing(alloc));
    fill(&mut frame, heads.len(), inside(old, count));
    *nest = frame;
    Ok(())
}

/// A leaf that adds nothing, where a nest is to come. It takes no memory.
fn nothing(alloc: Global) -> Nest {
    Nest::Leaf {
        lhs: Access {
            tensor: 0,
            vars: Vars::new(alloc),
        },
        terms: Terms::new(alloc),
        guards: Vars::new(alloc),
        kernel: Kernel::Plain,
    }
}

/// The nest with these loops around it.
fn around(alloc: Global, heads: &[Head], inner: Nest) -> Result<Nest, NoMemory>
    ensures { IfOk result (λ n. tree_of n ≡ loops_around heads.now (tree_of inner)) }
{
    match heads.split_first() {
        None => Ok(inner),
        Some((head, rest)) => {
            let body = around(alloc, rest, inner)?;
            let body = Box::new(alloc, body)?;
            Ok(Nest::Loop {
                var: head.var,
                extent: head.extent,
                walk: None,
                body,
            })
        }
    }
}

/// Gives each leaf more guards, or none where memory runs out.
#[tactic(auto, using(crate::proofs::InPlace::bared_guarded))]
fn guard(nest: &mut Nest, more: &[u32]) -> Result<(), NoMemory>
    ensures ok { OnOk result (tree_of nest.new ≡ guarded more.now (tree_of nest.old)) }
    ensures err { OnErr result (tree_of nest.new ≡ tree_of nest.old) }
{
    match nest {
        Nest::Loop { body, .. } => guard(body, more),
        Nest::Pre {
            producer,
            consumer,
            ..
        } => {
            guard(producer, more)?;
            match guard(consumer, more) {
                Ok(()) => Ok(()),
                Err(end) => {
                    bare(producer, more.len());
                    Err(end)
                }
            }
        }
        Nest::Leaf { guards, .. } => {
            guards.items.extend_from_slice(more)?;
            Ok(())
        }
    }
}

/// Takes the last guards of each leaf, so many.
fn bare(nest: &mut Nest, count: usize)
    ensures { tree_of nest.new ≡ bared count (tree_of nest.old) }
{
    match nest {
        Nest::Loop { body, .. } => bare(body, count),
        Nest::Pre {
            producer,
            consumer,
            ..
        } => {
            bare(producer, count);
            bare(consumer, count);
        }
        Nest::Leaf { guards, .. } => {
            let kept = guards.items.len().saturating_sub(count);
            guards.items.truncate(kept);
        }
    }
}

/// What is inside the first `count` loops.
fn inside(nest: Nest, count: usize) -> Nest
    ensures { tree_of result ≡ without_loops count (tree_of nest) }
{
    if count == 0 {
        return nest;
    }
    match nest {
        Nest::Loop { body, .. } => inside(Box::into_inner(body), count - 1),
        other => other,
    }
}

/// Puts a nest inside the first `depth` loops.
fn fill(nest: &mut Nest, depth: usize, inner: Nest)
    ensures { tree_of nest.new ≡ filled depth (tree_of inner) (tree_of nest.old) }
{
    match nest {
        Nest::Loop { body, .. } if depth > 0 => fill(body, depth - 1, inner),
        _ => *nest = inner,
    }
}
