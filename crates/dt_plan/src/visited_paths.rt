//! What is asked of the paths of a schedule.

ghost use Rattle.std.specs.Prelude.{◌≡◌, ◌≤◌, ◌<◌, ◌++◌, ◌∷◌, [], suc, length, map, nat_lt, if◌then◌else◌, IfOk, OnOk};
ghost use Rattle.dt_nest.specs.Tree.{tree_of, loop_count};
ghost use Rattle.dt_nest.specs.FitsStored.{FitsStored};
ghost use Rattle.std.specs.List.{AllByRecursion, flat_map};
ghost use Rattle.dt_nest.specs.Questions.{loops_to};
ghost use Rattle.dt_nest.specs.Visits.{IsPath, visits_of};
ghost use Rattle.dt_nest.specs.Paths.{HasLoops, depth_of, extent_inside, paths_of};
ghost use Rattle.dt_nest.specs.PathSteps.{visited_values};

use crate::brackets::longer;
use crate::outlined::Paths;
use dt_base::{NoMemory, Vars};
use dt_model::Locator;
use dt_nest::{Nest, Sched, Visits, communicate_loop, has_loop};
use std::alloc::Global;

/// How many loops stand before the loop.
fn loops_before(nest: &Nest, v: u32) -> u32
    requires { loop_count (tree_of nest.now) ≤ 16 }
    ensures count { result ≡ length (loops_to v (tree_of nest.now)) }
    ensures few { result ≤ loop_count (tree_of nest.now) }
{
    match nest {
        Nest::Loop { var, body, .. } => {
            if *var == v {
                0
            } else {
                loops_before(body, v) + 1
            }
        }
        Nest::Pre {
            producer,
            consumer,
            ..
        } => {
            if has_loop(producer, v) {
                loops_before(producer, v)
            } else {
                loops_before(consumer, v)
            }
        }
        Nest::Leaf { .. } => 0,
    }
}

/// How many loops the paths of a tensor have.
pub fn depth_of(sched: &Sched, tensor: u32) -> u32
    ensures { result ≡ depth_of sched.now tensor }
{
    match communicate_loop(sched, tensor) {
        None => 0,
        Some(v) => loops_before(&sched.parts().nest, v) + 1,
    }
}

/// The extent of the loop inside the first `k` ones.
fn extent_inside(nest: &Nest, k: usize) -> u32
    ensures { result ≡ extent_inside k (tree_of nest.now) }
{
    if k == 0 {
        return match nest {
            Nest::Loop { extent, .. } => *extent,
            Nest::Pre { .. } => 0,
            Nest::Leaf { .. } => 0,
        };
    }
    match nest {
        Nest::Loop { body, .. } => extent_inside(body, k - 1),
        Nest::Pre { .. } => 0,
        Nest::Leaf { .. } => 0,
    }
}

/// The extent of the loop inside a path.
fn inner_extent(sched: &Sched, path: &[u32]) -> u32
    ensures { result ≡ extent_inside (length path.now) sched.now.nest }
{
    extent_inside(&sched.parts().nest, path.len())
}

/// Whether some visit extends the path.
pub fn is_visited<L: Locator>(
    alloc: Global,
    sched: &Sched,
    loc: &L,
    path: &[u32],
) -> Result<bool, NoMemory>
    requires fits { FitsStored (L.tensors loc.now) sched.now }
    requires path { IsPath sched.now path.now }
    ensures { IfOk result (λ some. some ≡ nat_lt 0 (length (visits_of (L.tensors loc.now) sched.now path.now))) }
{
    let mut visits = Visits::over(alloc, sched, loc, path)?;
    let first = visits.next();
    Ok(first.is_some())
}

/// Puts a value at the end where it passes.
pub(crate) fn push_if(values: &mut Vec<u32>, value: u32, passes: bool) -> Result<(), NoMemory>
    ensures { OnOk result (values.new.items ≡ values.old.items ++ (if passes then value ∷ [] else [])) }
{
    if passes {
        values.push(value)?;
    }
    Ok(())
}

/// The values by which a path becomes a longer one that some visit extends, ascending.
pub fn visited_values<L: Locator>(
    alloc: Global,
    sched: &Sched,
    loc: &L,
    path: &[u32],
) -> Result<Vec<u32>, NoMemory>
    requires fits { FitsStored (L.tensors loc.now) sched.now }
    requires path { IsPath sched.now path.now }
    requires loops { HasLoops (suc (length path.now)) sched.now.nest }
    ensures { IfOk result (λ values. values.items ≡ visited_values (L.tensors loc.now) sched.now path.now) }
{
    let extent = inner_extent(sched, path);
    let mut values = Vec::new(alloc);
    for value in 0..extent {
        let longer = longer(alloc, path, value)?;
        let passes = is_visited(alloc, sched, loc, longer.as_slice())?;
        push_if(&mut values, value, passes)?;
    }
    Ok(values)
}

/// How many visits and resets extend the path.
pub fn visit_count<L: Locator>(
    alloc: Global,
    sched: &Sched,
    loc: &L,
    path: &[u32],
) -> Result<u32, NoMemory>
    requires fits { FitsStored (L.tensors loc.now) sched.now }
    requires path { IsPath sched.now path.now }
    requires few { length (visits_of (L.tensors loc.now) sched.now path.now) < 4294967296 }
    ensures { IfOk result (λ count. count ≡ length (visits_of (L.tensors loc.now) sched.now path.now)) }
{
    let mut visits = Visits::over(alloc, sched, loc, path)?;
    let mut count = 0u32;
    loop {
        match visits.next() {
            None => return Ok(count),
            Some(_) => count += 1,
        }
    }
}

/// The empty path, if there is a visit.
fn root_paths<L: Locator>(alloc: Global, sched: &Sched, loc: &L) -> Result<Paths, NoMemory>
    requires { FitsStored (L.tensors loc.now) sched.now }
    ensures { IfOk result (λ paths. paths ≡ paths_of (L.tensors loc.now) sched.now 0) }
{
    let mut items = Vec::new(alloc);
    if is_visited(alloc, sched, loc, &[])? {
        items.push(Vars::new(alloc))?;
    }
    Ok(Paths { items })
}

fn push_longer(
    alloc: Global,
    path: &[u32],
    values: &[u32],
    paths: &mut Vec<Vars>,
) -> Result<(), NoMemory>
    ensures { OnOk result (paths.new.items ≡ paths.old.items ++ map (λ i. path.now ++ i ∷ []) values.now) }
{
    for value in values {
        let longer = longer(alloc, path, *value)?;
        paths.push(Vars::from_vec(longer))?;
    }
    Ok(())
}

/// The path with each value by which it becomes a longer one.
fn push_grown<L: Locator>(
    alloc: Global,
    sched: &Sched,
    loc: &L,
    path: &[u32],
    paths: &mut Vec<Vars>,
) -> Result<(), NoMemory>
    requires fits { FitsStored (L.tensors loc.now) sched.now }
    requires path { IsPath sched.now path.now }
    requires loops { HasLoops (suc (length path.now)) sched.now.nest }
    ensures { OnOk result (paths.new.items ≡ paths.old.items ++ map (λ i. path.now ++ i ∷ []) (visited_values (L.tensors loc.now) sched.now path.now)) }
{
    let values = visited_values(alloc, sched, loc, path)?;
    push_longer(alloc, path, values.as_slice(), paths)
}

/// The paths of one loop more.
fn grown<L: Locator>(
    alloc: Global,
    sched: &Sched,
    loc: &L,
    paths: &[Vars],
) -> Result<Paths, NoMemory>
    requires fits { FitsStored (L.tensors loc.now) sched.now }
    requires each { AllByRecursion (λ p. IsPath sched.now p × HasLoops (suc (length p)) sched.now.nest) paths.now }
    ensures { IfOk result (λ longer. longer ≡ flat_map (λ p. map (λ i. p ++ i ∷ []) (visited_values (L.tensors loc.now) sched.now p)) paths.now) }
{
    let mut items = Vec::new(alloc);
    for path in paths {
        push_grown(alloc, sched, loc, path.as_slice(), &mut items)?;
    }
    Ok(Paths { items })
}

/// The paths of the first `k` loops that some visit extends, in lexicographic order.
pub fn first_paths<L: Locator>(
    alloc: Global,
    sched: &Sched,
    loc: &L,
    k: u32,
) -> Result<Paths, NoMemory>
    requires fits { FitsStored (L.tensors loc.now) sched.now }
    requires loops { HasLoops k sched.now.nest }
    ensures { IfOk result (λ paths. paths ≡ paths_of (L.tensors loc.now) sched.now k) }
{
    let mut paths = root_paths(alloc, sched, loc)?;
    for loops in 0..k {
        paths = grown(alloc, sched, loc, paths.as_slice())?;
    }
    Ok(paths)
}
