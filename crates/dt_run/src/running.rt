//! Parts take effect, one after another.

ghost use Rattle.std.specs.Prelude.{◌≡◌, ℕ, List, OnOk};
ghost use Rattle.dt_model.specs.Stmts.{shapes_of};
ghost use Rattle.dt_model.specs.Value.{final_of};
ghost use Rattle.dt_model.specs.declared.stmt.Stmt.{Stmt};
ghost use Rattle.dt_job.specs.PartsOf.{ArePartsOf};
ghost use Rattle.dt_run.specs.Running.{AreOver, AreWorkless};

use crate::visiting::run_part;
use dt_base::NoMemory;
use dt_model::{Locator, Whole};
use dt_plan::Part;
use std::alloc::Global;

/// Runs the parts in order, on tensors where the locator finds them. After an `Err` some first ones of them have taken
/// effect, and one more may have in part.
pub fn run_parts<L: Locator>(
    alloc: Global,
    parts: &[Part],
    loc: &L,
    tensors: &mut Vec<Whole>,
) -> Result<(), NoMemory>
    requires over { AreOver (L.tensors loc.now) tensors.old.items }
    requires workless { AreWorkless parts.now }
    requires parts { (dims : List ℕ) × (names : List (List ℕ)) × (stmts : List Stmt) × ArePartsOf dims (L.tensors loc.now) names stmts parts.now }
    ensures ok { OnOk result ((dims : List ℕ) (names : List (List ℕ)) (stmts : List Stmt) → ArePartsOf dims (L.tensors loc.now) names stmts parts.now → tensors.new.items ≡ final_of stmts tensors.old.items) }
    ensures over { OnOk result (AreOver (L.tensors loc.now) tensors.new.items) }
    ensures shapes { shapes_of tensors.new.items ≡ shapes_of tensors.old.items }
{
    for part in parts {
        run_part(alloc, &part.sched, part.adds, loc, tensors)?;
    }
    Ok(())
}
