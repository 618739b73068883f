//! The operations of a statement, as brackets along its nest.

ghost use Rattle.std.specs.Prelude.{◌≡◌, ◌<◌, ◌+◌, ◌++◌, ◌∷◌, [], true, filter, length, nat_eq, if◌then◌else◌, IfOk, OnOk};
ghost use Rattle.std.specs.List.{AllByRecursion, flat_map, list_any};
ghost use Rattle.dt_plan.specs.Brackets.{block, node_ops, brackets};
ghost use Rattle.dt_plan.specs.Keeps.{Keeps};

use crate::ops::Ops;
use crate::outlined::{Outlined, Paths};
use dt_base::{NoMemory, Vars};
use std::alloc::Global;

/// The most operations of a plan.
pub const OP_LIMIT: usize = 8192;

/// The path with one value more.
pub fn longer(alloc: Global, path: &[u32], value: u32) -> Result<Vec<u32>, NoMemory>
    ensures { IfOk result (λ v. v.items ≡ path.now ++ value ∷ []) }
{
    let mut longer = Vec::from_slice(alloc, path)?;
    longer.push(value)?;
    Ok(longer)
}

/// Puts the operations of a path, which has `rest` more loops down to the task, behind those that are there. Past the limit
/// no more are put there.
fn push_block<O: Outlined>(
    alloc: Global,
    nest: &O,
    rest: u32,
    path: &[u32],
    ops: &mut Ops,
) -> Result<(), NoMemory>
    requires path { O.has_path nest.now path.now ≡ true }
    requires rest { length path.now + rest ≡ (O.outline nest.now).deepest }
    ensures { OnOk result (Keeps ops.old (block (O.outline nest.now) rest path.now) ops.new) }
{
    if ops.as_slice().len() > OP_LIMIT {
        return Ok(());
    }
    let around = nest.around(alloc, path)?;
    ops.append(around.opened)?;
    if rest == 0 {
        ops.push(nest.task(alloc, path)?)?;
        return ops.append(around.closed);
    }
    let values = nest.values(alloc, path)?;
    for value in values.as_slice() {
        let longer = longer(alloc, path, *value)?;
        push_block(alloc, nest, rest - 1, longer.as_slice(), ops)?;
    }
    ops.append(around.closed)
}

/// The same for a path of the distributed loops, if it is on the node.
fn push_on_node<O: Outlined>(
    alloc: Global,
    nest: &O,
    path: &[u32],
    node: u32,
    ops: &mut Ops,
) -> Result<(), NoMemory>
    requires path { O.has_path nest.now path.now ≡ true }
    requires first { length path.now ≡ (O.outline nest.now).distributed }
    ensures { OnOk result (Keeps ops.old (if nat_eq ((O.outline nest.now).node path.now) node then block (O.outline nest.now) (O.outline nest.now).inner path.now else []) ops.new) }
{
    if nest.node(path) != node {
        return Ok(());
    }
    push_block(alloc, nest, nest.inner(), path, ops)
}

fn push_paths<O: Outlined>(
    alloc: Global,
    nest: &O,
    paths: &[Vars],
    node: u32,
    ops: &mut Ops,
) -> Result<(), NoMemory>
    requires { AllByRecursion (λ p. (O.has_path nest.now p ≡ true) × (length p ≡ (O.outline nest.now).distributed)) paths.now }
    ensures { OnOk result (Keeps ops.old (flat_map (block (O.outline nest.now) (O.outline nest.now).inner) (filter (λ p. nat_eq ((O.outline nest.now).node p) node) paths.now)) ops.new) }
{
    for path in paths {
        push_on_node(alloc, nest, path.as_slice(), node, ops)?;
    }
    Ok(())
}

/// Whether one of the paths is on the node.
fn is_busy<O: Outlined>(nest: &O, paths: &[Vars], node: u32) -> bool
    ensures { result ≡ list_any (λ p. nat_eq ((O.outline nest.now).node p) node) paths.now }
{
    paths.iter().any(|path| nest.node(path.as_slice()) == node)
}

/// The operations of a node, where these are the paths of the distributed loops.
fn push_node<O: Outlined>(
    alloc: Global,
    nest: &O,
    paths: &[Vars],
    node: u32,
    ops: &mut Ops,
) -> Result<(), NoMemory>
    requires paths { paths.now ≡ (O.outline nest.now).paths (O.outline nest.now).distributed }
    requires each { AllByRecursion (λ p. (O.has_path nest.now p ≡ true) × (length p ≡ (O.outline nest.now).distributed)) paths.now }
    requires node { node < (O.outline nest.now).nodes }
    ensures { OnOk result (Keeps ops.old (node_ops (O.outline nest.now) node) ops.new) }
{
    if !is_busy(nest, paths, node) {
        return Ok(());
    }
    let around = nest.around_node(alloc, node)?;
    ops.append(around.opened)?;
    push_paths(alloc, nest, paths, node, ops)?;
    ops.append(around.closed)
}

/// Puts the operations of a statement behind those that are there. Past the limit no more are put there.
pub fn push_brackets<O: Outlined>(alloc: Global, nest: &O, ops: &mut Ops) -> Result<(), NoMemory>
    ensures { OnOk result (Keeps ops.old (brackets (O.outline nest.now)) ops.new) }
{
    ops.append(nest.zeros(alloc)?)?;
    let paths = nest.first_paths(alloc)?;
    for node in 0..nest.nodes() {
        push_node(alloc, nest, paths.as_slice(), node, ops)?;
    }
    Ok(())
}
