//! Tests that several commands have, and the causes that they give.

ghost use Rattle.std.specs.Prelude.{◌≡◌, ◌+◌, ◌<◌, ◌≤◌, ◌^◌, ◌++◌, [], ◌∷◌, IfOk, OnErr, length, nat_eq, slice_index};
ghost use Rattle.std.specs.List.{list_any};
ghost use Rattle.std.specs.Str.{bytes_eq};
ghost use Rattle.dt_nest.specs.Schedule.{seen};
ghost use Rattle.dt_nest.specs.Tree.{loop_count};
ghost use Rattle.dt_nest.specs.PartNames.{name_of};
ghost use Rattle.dt_cuts.specs.Causes.{bad_number, communicated_loop, distributed_loop, fixed_loop, not_free, taken_name, too_many_loops, unknown_loop, unless};

use dt_base::{Name, NoMemory};
use dt_model::Cause;
use dt_nest::{Moved, NameTable, SchedParts, has_loop, is_among, is_fixed, loop_count, name_of};

/// A test that has to hold.
pub fn unless(test: bool, cause: Cause) -> Option<Cause>
    ensures { result ≡ unless test cause }
{
    if test { None } else { Some(cause) }
}

/// The extent that is kept for a loop or variable, 0 where there is none.
pub fn extent_of(parts: &SchedParts, v: u32) -> u32
    ensures { result ≡ slice_index (seen parts.now).extents v }
{
    match parts.extents.as_slice().get(v as usize) {
        Some(extent) => *extent,
        None => 0,
    }
}

/// The number of the first of so many new loops, or want of memory where so many numbers are not left.
pub fn first_new_loop(parts: &SchedParts, count: u32) -> Result<u32, NoMemory>
    ensures number { IfOk result (λ k. k ≡ length (seen parts.now).names) }
    ensures few { IfOk result (λ k. k + count < 2 ^ 32) }
    ensures full { OnErr result (2 ^ 32 ≤ length (seen parts.now).names + count) }
{
    let names = parts.names.as_slice().len();
    if names > (u32::MAX - count) as usize {
        return Err(NoMemory);
    }
    Ok(names as u32)
}

pub fn unknown_loop(parts: &SchedParts, vars: &[u32]) -> Option<Cause>
    ensures { result ≡ unknown_loop (seen parts.now) vars.now }
{
    let v = vars.iter().find(|v| !has_loop(&parts.nest, **v))?;
    Some(Cause::UnknownLoop(name_of(parts, *v)))
}

fn is_name(names: &[Name], name: &Name) -> bool
    ensures { result ≡ list_any (bytes_eq name.now) names.now }
{
    names.iter().any(|n| name.is(n.as_slice()))
}

/// The first new name that stands among the names, or earlier among the new ones.
pub fn taken_name(names: &NameTable, new: &[Name]) -> Option<Cause>
    ensures { result ≡ taken_name names.now new.now }
{
    for (at, name) in new.iter().enumerate() {
        if names.has(name) || is_name(&new[..at], name) {
            return Some(Cause::NameTaken(name.copied()));
        }
    }
    None
}

fn is_moved_at(moved: &[Moved], v: u32) -> bool
    ensures { result ≡ list_any (λ m. nat_eq m.at v) moved.now }
{
    moved.iter().any(|m| m.at == v)
}

fn distributed_loop(parts: &SchedParts, vars: &[u32]) -> Option<Cause>
    ensures { result ≡ distributed_loop (seen parts.now) vars.now }
{
    let v = vars
        .iter()
        .find(|v| is_among(&parts.nest, parts.distributed, **v))?;
    Some(Cause::Distributed(name_of(parts, *v)))
}

pub fn communicated_loop(parts: &SchedParts, vars: &[u32]) -> Option<Cause>
    ensures { result ≡ communicated_loop (seen parts.now) vars.now }
{
    let v = vars
        .iter()
        .find(|v| is_moved_at(parts.moved.as_slice(), **v))?;
    Some(Cause::Communicated(name_of(parts, *v)))
}

pub fn fixed_loop(parts: &SchedParts, vars: &[u32]) -> Option<Cause>
    ensures { result ≡ fixed_loop (seen parts.now) vars.now }
{
    let v = vars.iter().find(|v| is_fixed(&parts.nest, **v))?;
    Some(Cause::Fixed(name_of(parts, *v)))
}

/// BadNumber outside 1 to 65,536.
pub fn bad_number(n: u32) -> Option<Cause>
    ensures { result ≡ bad_number n }
{
    if n < 1 || n > 65536 {
        return Some(Cause::BadNumber);
    }
    None
}

/// TooManyLoops where one loop more would be too many.
pub fn too_many_loops(parts: &SchedParts) -> Option<Cause>
    requires { loop_count (seen parts.now).nest ≤ 16 }
    ensures { result ≡ too_many_loops (seen parts.now) }
{
    if loop_count(&parts.nest) >= 16 {
        return Some(Cause::TooManyLoops);
    }
    None
}

/// The first cause for which one of these loops isn't free.
pub fn not_free(parts: &SchedParts, vars: &[u32]) -> Option<Cause>
    ensures { result ≡ not_free (seen parts.now) vars.now }
{
    distributed_loop(parts, vars)
        .or_else(|| communicated_loop(parts, vars))
        .or_else(|| fixed_loop(parts, vars))
}
