//! The schedules of statements over a few tensors, for tests.

ghost use Rattle.std.specs.Prelude.{◌≡◌, ℕ, ◌+◌, ◌≤◌, List, length, map, IfOk, IfSome};
ghost use Rattle.std.specs.List.{AllByRecursion, IsDistinct};
ghost use Rattle.std.specs.Str.{bytes_eq};
ghost use Rattle.dt_model.specs.Stmts.{IsStmt, shapes_of};
ghost use Rattle.dt_nest.specs.Chain.{stmt_schedule};
ghost use Rattle.dt_nest.specs.FitsStored.{FitsStored};
ghost use Rattle.dt_tensor.specs.Packed.{IsPacked, stored_of};

use dt_base::{Name, Names, NoMemory};
use dt_bounds::{is_path, needed};
use dt_model::{Stmt, Whole, is_stmt};
use dt_nest::Sched;
use dt_runs::Runs;
use dt_tensor::{Tensor, Tensors};
use std::alloc::Global;

/// The whole tensors, over which statements are lawful.
fn wholes(alloc: Global, tensors: &[Tensor]) -> Result<Vec<Whole>, NoMemory>
    ensures shapes { IfOk result (λ wholes. map (λ w. w.extents) wholes.items ≡ map (λ t. t.extents) tensors.now) }
    ensures packed { IfOk result (λ wholes. AllByRecursion IsPacked tensors.now) }
{
    let mut wholes = Vec::new(alloc);
    for tensor in tensors {
        let _packed = tensor.shape();
        wholes.push(tensor.to_whole(alloc)?)?;
    }
    Ok(wholes)
}

/// As many names, each a letter from this one on.
fn letters(alloc: Global, first: u8, count: usize) -> Result<Names, NoMemory>
    requires { first + count ≤ 255 }
    ensures count { IfOk result (λ names. length names ≡ count) }
    ensures distinct { IfOk result (λ names. IsDistinct bytes_eq names) }
{
    let mut names = Names::new(alloc);
    for i in 0..count {
        names.push(Name::from_slice(&[first + i as u8]))?;
    }
    Ok(names)
}

/// The schedule of a statement over these tensors, with letters for names.
fn schedule(alloc: Global, stmt: &Stmt, wholes: &[Whole]) -> Result<Sched, NoMemory>
    requires stmt { IsStmt (shapes_of wholes.now) stmt.now }
    requires few { length wholes.now ≤ 9 }
    ensures { IfOk result (λ sched. (vars : List (List ℕ)) × (names : List (List ℕ)) × (length names ≡ length wholes.now) × (sched ≡ stmt_schedule stmt.now vars names)) }
{
    let vars = letters(alloc, b'i', stmt.extents.as_slice().len())?;
    let names = letters(alloc, b'A', wholes.len())?;
    Sched::of_stmt(alloc, stmt, &vars, &names)
}

/// The schedule of a statement over these tensors, and none where it isn't one over them.
pub fn schedule_in(alloc: Global, stmt: &Stmt, tensors: &Tensors) -> Result<Option<Sched>, NoMemory>
    ensures { IfOk result (λ o. IfSome o (λ sched. FitsStored (map stored_of tensors.now) sched)) }
{
    let wholes = wholes(alloc, tensors.as_slice())?;
    if wholes.len() > 9 {
        return Ok(None);
    }
    if !is_stmt(stmt, wholes.as_slice()) {
        return Ok(None);
    }
    let sched = schedule(alloc, stmt, wholes.as_slice())?;
    Ok(Some(sched))
}

/// The needed words of a tensor in the statement's schedule, and none where the statement isn't one over the tensors,
/// the path isn't one of the schedule or the tensor isn't there.
pub fn needed_in(
    alloc: Global,
    stmt: &Stmt,
    tensors: &Tensors,
    tensor: u32,
    path: &[u32],
) -> Result<Option<Runs>, NoMemory> {
    if tensor as usize >= tensors.len() {
        return Ok(None);
    }
    let Some(sched) = schedule_in(alloc, stmt, tensors)? else {
        return Ok(None);
    };
    if !is_path(&sched, path) {
        return Ok(None);
    }
    let runs = needed(alloc, &sched, tensors, tensor, path)?;
    Ok(Some(runs))
}
