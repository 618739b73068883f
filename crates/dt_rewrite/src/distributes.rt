//! The outermost loops over the machine's dimensions.

ghost use Rattle.std.specs.Prelude.{◌≡◌};
ghost use Rattle.dt_nest.specs.Schedule.{seen};
ghost use Rattle.dt_rewrite.specs.Distributes.{distribute_cause, distributed_before, front_of, not_outermost, wrong_extent};

use dt_base::{Extents, Vars};
use dt_cuts::{communicated_loop, extent_of, fixed_loop, unknown_loop, unless};
use dt_model::Cause;
use dt_nest::{Rewrite, SchedParts, misplaced, name_of};
use std::alloc::Global;

/// The outermost loops become the dimensions of the machine, one loop each, in order. `grid` has the extent of each
/// dimension.
#[derive(Debug, Drop)]
pub struct Distribute {
    pub vars: Vars,
    pub grid: Extents,
}

/// Distributed with the first of these loops, where the statement is distributed.
fn distributed_before(parts: &SchedParts, vars: &[u32]) -> Option<Cause>
    ensures { result ≡ distributed_before (seen parts.now) vars.now }
{
    let v = vars.first()?;
    unless(
        parts.distributed == 0,
        Cause::Distributed(name_of(parts, *v)),
    )
}

/// NotOutermost with the first of these loops that isn't at its place from the outside.
fn not_outermost(parts: &SchedParts, vars: &[u32]) -> Option<Cause>
    ensures { result ≡ not_outermost (seen parts.now) vars.now }
{
    let v = misplaced(&parts.nest, vars)?;
    Some(Cause::NotOutermost(name_of(parts, v)))
}

/// WrongExtent with the first of these loops whose extent isn't that of its dimension.
fn wrong_extent(parts: &SchedParts, vars: &[u32], grid: &[u32]) -> Option<Cause>
    ensures { result ≡ wrong_extent (seen parts.now) vars.now grid.now }
{
    let (v, vars) = vars.split_first()?;
    let (dimension, grid) = grid.split_first()?;
    let extent = extent_of(parts, *v);
    if extent == *dimension {
        wrong_extent(parts, vars, grid)
    } else {
        Some(Cause::WrongExtent(name_of(parts, *v), extent, *dimension))
    }
}

fn all_but_last(vars: &[u32]) -> &[u32]
    ensures { result.now ≡ front_of vars.now }
{
    &vars[..vars.len().saturating_sub(1)]
}

impl Rewrite for Distribute {
    ghost use Rattle.dt_rewrite.specs.Distributes.{distribute_rule};
    ghost use Rattle.dt_rewrite.specs.Laws.Distribute.{distribute_keeps};

    ghost rule = { distribute_rule };

    fn first_cause(&self, parts: &SchedParts) -> Option<Cause>
        ensures { result ≡ distribute_cause self.now (seen parts.now) }
    {
        let vars = self.vars.as_slice();
        let grid = self.grid.as_slice();
        unknown_loop(parts, vars)
            .or_else(|| unless(vars.len() == grid.len(), Cause::WrongCount))
            .or_else(|| distributed_before(parts, vars))
            .or_else(|| not_outermost(parts, vars))
            .or_else(|| wrong_extent(parts, vars, grid))
            .or_else(|| communicated_loop(parts, all_but_last(vars)))
            .or_else(|| fixed_loop(parts, vars))
    }

    fn applied(self, _alloc: Global, parts: SchedParts) -> Result<SchedParts, SchedParts> {
        let mut parts = parts;
        parts.distributed = self.vars.as_slice().len() as u32;
        Ok(parts)
    }

    ghost keeps = { distribute_keeps };
}
