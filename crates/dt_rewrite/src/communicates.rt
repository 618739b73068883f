//! Tensors that are moved once for each iteration of a loop.

ghost use Rattle.std.specs.Prelude.{◌≡◌, ◌≤◌, ◌&&◌, ◌++◌, [], IfOk, length, nat_eq, nat_lt};
ghost use Rattle.std.specs.List.{list_any};
ghost use Rattle.dt_nest.specs.Tree.{loop_count, tree_of};
ghost use Rattle.dt_nest.specs.Schedule.{seen};
ghost use Rattle.dt_nest.specs.Questions.{accesses_tensor};
ghost use Rattle.dt_rewrite.specs.Communicates.{below_pre, communicate_cause, communicated_tensor, is_moved, moves_at, not_below_task, unknown_tensor};

use dt_base::{NoMemory, Vars};
use dt_cuts::{fixed_loop, unknown_loop};
use dt_model::Cause;
use dt_nest::{
    Moved, MovedList, Rewrite, SchedParts, accesses_tensor, is_among, is_in, loop_count, name_of,
    tensor_name,
};
use std::alloc::Global;

/// Each of these tensors is moved once for each iteration of loop `var`.
#[derive(Debug, Drop)]
pub struct Communicate {
    pub var: u32,
    pub tensors: Vars,
}

impl Communicate {
    /// The tensors with the loop.
    fn moves(&self, alloc: Global) -> Result<MovedList, NoMemory>
        ensures { IfOk result (λ moves. moves ≡ moves_at self.now.var self.now.tensors) }
    {
        let mut moves = MovedList::new(alloc);
        for tensor in self.tensors.as_slice() {
            moves.push(Moved {
                tensor: *tensor,
                at: self.var,
            })?;
        }
        Ok(moves)
    }
}

/// Whether the tensor is no workspace, and the statement accesses it.
fn is_known(parts: &SchedParts, t: u32) -> bool
    ensures { result ≡ (nat_lt t (length (seen parts.now).tensors) && accesses_tensor (seen parts.now).nest t) }
{
    (t as usize) < parts.tensors.as_slice().len() && accesses_tensor(&parts.nest, t)
}

fn unknown_tensor(parts: &SchedParts, tensors: &[u32]) -> Option<Cause>
    ensures { result ≡ unknown_tensor (seen parts.now) tensors.now }
{
    let t = tensors.iter().find(|t| !is_known(parts, **t))?;
    Some(Cause::UnknownTensor(tensor_name(parts, *t)))
}

fn is_moved(moved: &[Moved], t: u32) -> bool
    ensures { result ≡ is_moved moved.now t }
{
    moved.iter().any(|m| t == m.tensor)
}

/// Communicated with the first tensor that has a loop, or stands earlier among these.
fn communicated_tensor(parts: &SchedParts, tensors: &[u32]) -> Option<Cause>
    ensures { result ≡ communicated_tensor (seen parts.now) [] tensors.now }
{
    for (at, t) in tensors.iter().enumerate() {
        if is_moved(parts.moved.as_slice(), *t) || is_in(&tensors[..at], *t) {
            return Some(Cause::Communicated(tensor_name(parts, *t)));
        }
    }
    None
}

fn not_below_task(parts: &SchedParts, v: u32) -> Option<Cause>
    ensures { result ≡ not_below_task (seen parts.now) v }
{
    let before_last = parts.distributed.saturating_sub(1);
    if is_among(&parts.nest, before_last, v) {
        return Some(Cause::NotBelowTask(name_of(parts, v)));
    }
    None
}

fn below_pre(parts: &SchedParts, v: u32) -> Option<Cause>
    requires { loop_count (seen parts.now).nest ≤ 16 }
    ensures { result ≡ below_pre (seen parts.now) v }
{
    if is_among(&parts.nest, loop_count(&parts.nest), v) {
        None
    } else {
        Some(Cause::BelowPre(name_of(parts, v)))
    }
}

impl Rewrite for Communicate {
    ghost use Rattle.dt_rewrite.specs.Communicates.{communicate_rule};
    ghost use Rattle.dt_rewrite.specs.Laws.Communicate.{communicate_keeps};

    ghost rule = { communicate_rule };

    fn first_cause(&self, parts: &SchedParts) -> Option<Cause>
        requires { loop_count (seen parts.now).nest ≤ 16 }
        ensures { result ≡ communicate_cause self.now (seen parts.now) }
    {
        let tensors = self.tensors.as_slice();
        unknown_loop(parts, &[self.var])
            .or_else(|| unknown_tensor(parts, tensors))
            .or_else(|| communicated_tensor(parts, tensors))
            .or_else(|| not_below_task(parts, self.var))
            .or_else(|| below_pre(parts, self.var))
            .or_else(|| fixed_loop(parts, &[self.var]))
    }

    fn applied(self, alloc: Global, parts: SchedParts) -> Result<SchedParts, SchedParts> {
        match self.moves(alloc) {
            Err(_) => Err(parts),
            Ok(moves) => {
                let mut moves = moves;
                let mut parts = parts;
                match parts.moved.items.append(&mut moves.items) {
                    Ok(()) => Ok(parts),
                    Err(_) => Err(parts),
                }
            }
        }
    }

    ghost keeps = { communicate_keeps };
}
