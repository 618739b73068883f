//! The tensors and workspaces that a schedule moves.

ghost use Rattle.std.specs.Prelude.{◌≡◌, ◌<◌, ◌≤◌, ◌+◌, ◌^◌, ◌++◌, length, map, max, fold, IfOk, OnOk};
ghost use Rattle.dt_base.specs.Ranges.{below};
ghost use Rattle.dt_base.specs.Rows.{product};
ghost use Rattle.dt_nest.specs.Tree.{tree_of};
ghost use Rattle.dt_nest.specs.Outputs.{output_of};
ghost use Rattle.dt_nest.specs.Questions.{accesses_tensor};
ghost use Rattle.dt_nest.specs.Paths.{depth_of, tensors_in};
ghost use Rattle.dt_plan.specs.Operations.{moved_depth, node_works, root_works, works_in, work_size};

use crate::visited_paths::{depth_of, push_if};
use dt_base::NoMemory;
use dt_nest::{Nest, Sched, accesses_tensor};
use std::alloc::Global;

/// The tensor or workspace that a nest writes.
pub(crate) fn output_of(nest: &Nest) -> u32
    ensures { result ≡ output_of (tree_of nest.now) }
{
    match nest {
        Nest::Loop { body, .. } => output_of(body),
        Nest::Pre { consumer, .. } => output_of(consumer),
        Nest::Leaf { lhs, .. } => lhs.tensor,
    }
}

/// How many tensors a schedule knows. Workspaces are numbered from there on.
pub(crate) fn tensor_count(sched: &Sched) -> u32
    ensures { result ≡ length sched.now.tensors }
{
    sched.parts().tensors.as_slice().len() as u32
}

/// How many workspaces a schedule has.
pub(crate) fn work_count(sched: &Sched) -> u32
    ensures count { result ≡ length sched.now.works }
    ensures few { length sched.now.tensors + result < 2 ^ 32 }
{
    sched.parts().works.as_slice().len() as u32
}

/// Whether a leaf accesses the tensor.
fn accesses(sched: &Sched, tensor: u32) -> bool
    ensures { result ≡ accesses_tensor sched.now.nest tensor }
{
    accesses_tensor(&sched.parts().nest, tensor)
}

/// The tensors that the leaves access, in order of declaration.
pub(crate) fn tensors_in(alloc: Global, sched: &Sched) -> Result<Vec<u32>, NoMemory>
    ensures { IfOk result (λ tensors. tensors.items ≡ tensors_in sched.now) }
{
    let mut tensors = Vec::new(alloc);
    for tensor in 0..tensor_count(sched) {
        let passes = accesses(sched, tensor);
        push_if(&mut tensors, tensor, passes)?;
    }
    Ok(tensors)
}

/// Puts the numbers of the workspaces at the end.
fn push_works(sched: &Sched, numbers: &mut Vec<u32>) -> Result<(), NoMemory>
    ensures { OnOk result (numbers.new.items ≡ numbers.old.items ++ works_in sched.now) }
{
    let tensors = tensor_count(sched);
    let works = work_count(sched);
    for work in 0..works {
        numbers.push(tensors + work)?;
    }
    Ok(())
}

/// Puts the workspaces that are opened at the root at the end.
pub(crate) fn push_root_works(sched: &Sched, numbers: &mut Vec<u32>) -> Result<(), NoMemory>
    ensures { OnOk result (numbers.new.items ≡ numbers.old.items ++ root_works sched.now) }
{
    if sched.parts().distributed != 0 {
        return Ok(());
    }
    push_works(sched, numbers)
}

/// The workspaces that are opened around a node's paths.
pub(crate) fn node_works(alloc: Global, sched: &Sched) -> Result<Vec<u32>, NoMemory>
    ensures { IfOk result (λ works. works.items ≡ node_works sched.now) }
{
    let mut works = Vec::new(alloc);
    if sched.parts().distributed != 0 {
        push_works(sched, &mut works)?;
    }
    Ok(works)
}

/// How many loops the paths of a tensor or workspace have.
pub(crate) fn moved_depth(sched: &Sched, number: u32) -> u32
    ensures { result ≡ moved_depth sched.now number }
{
    if number < tensor_count(sched) {
        depth_of(sched, number)
    } else {
        0
    }
}

/// The greatest depth of some tensors.
pub(crate) fn greatest_depth(sched: &Sched, tensors: &[u32]) -> u32
    ensures { result ≡ fold max 0 (map (depth_of sched.now) tensors.now) }
{
    let mut greatest = 0u32;
    for tensor in tensors {
        greatest = greatest.max(depth_of(sched, *tensor));
    }
    greatest
}

/// The product of some extents.
pub(crate) fn product_of(extents: &[u32]) -> u32
    requires { product extents.now ≤ 1048576 }
    ensures { result ≡ product extents.now }
{
    match extents.split_first() {
        None => 1,
        Some((extent, rest)) => {
            if *extent == 0 {
                0
            } else {
                *extent * product_of(rest)
            }
        }
    }
}

/// The words of a workspace, by its number among the workspaces; 0 where there is none.
pub(crate) fn work_size(sched: &Sched, work: u32) -> u32
    ensures size { result ≡ work_size sched.now work }
    ensures small { result ≤ 1048576 }
{
    match sched.parts().works.as_slice().get(work as usize) {
        None => 0,
        Some(work) => product_of(work.extents.as_slice()),
    }
}
