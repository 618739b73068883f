//! Consecutive loops in another order.

ghost use Rattle.std.specs.Prelude.{◌≡◌, ◌≤◌, ◌<◌, ◌+◌, ◌^◌, IfOk, length};
ghost use Rattle.dt_nest.specs.Tree.{loop_count};
ghost use Rattle.dt_nest.specs.Schedule.{seen};
ghost use Rattle.dt_cuts.specs.Cutting.{heads_of};
ghost use Rattle.dt_rewrite.specs.Reorders.{reorder_cause, reorder_cut};

use crate::two_loops::head;
use dt_base::{Extents, Names, NoMemory, Vars};
use dt_cuts::{Cut, Heads, extent_of, not_free, unknown_loop, unless};
use dt_model::Cause;
use dt_nest::{Derivations, Rewrite, SchedParts, all_differ, in_order, is_chain};
use std::alloc::Global;

/// Consecutive loops take this order.
#[derive(Debug, Drop)]
pub struct Reorder {
    pub vars: Vars,
}

impl Reorder {
    /// The cut that the reorder is.
    fn cut(&self, alloc: Global, parts: &SchedParts) -> Result<Cut, NoMemory>
        requires loops { loop_count (seen parts.now).nest ≤ 16 }
        requires few { length (seen parts.now).names < 2 ^ 32 }
        ensures cut { IfOk result (λ c. c ≡ reorder_cut self.now (seen parts.now)) }
        ensures few { IfOk result (λ c. length (seen parts.now).names + length c.names < 2 ^ 32) }
    {
        let vars = self.vars.as_slice();
        let old = in_order(&parts.nest, vars);
        Ok(Cut {
            old: heads_of(alloc, parts, old.as_slice())?,
            heads: heads_of(alloc, parts, vars)?,
            guards: Vars::new(alloc),
            derived: Derivations::new(alloc),
            names: Names::new(alloc),
            extents: Extents::new(alloc),
        })
    }
}

/// These loops, with their extents.
fn heads_of(alloc: Global, parts: &SchedParts, vars: &[u32]) -> Result<Heads, NoMemory>
    ensures { IfOk result (λ heads. heads ≡ heads_of (seen parts.now) vars.now) }
{
    let mut items = Vec::new(alloc);
    for v in vars {
        items.push(head(*v, extent_of(parts, *v)))?;
    }
    Ok(Heads::from_vec(items))
}

impl Rewrite for Reorder {
    ghost use Rattle.dt_rewrite.specs.Reorders.{reorder_rule};
    ghost use Rattle.dt_rewrite.specs.Laws.Reorder.{reorder_keeps};

    ghost rule = { reorder_rule };

    fn first_cause(&self, parts: &SchedParts) -> Option<Cause>
        requires { loop_count (seen parts.now).nest ≤ 16 }
        ensures { result ≡ reorder_cause self.now (seen parts.now) }
    {
        let vars = self.vars.as_slice();
        let old = in_order(&parts.nest, vars);
        unknown_loop(parts, vars)
            .or_else(|| unless(all_differ(vars), Cause::BadLoops))
            .or_else(|| unless(is_chain(&parts.nest, old.as_slice()), Cause::NotOneChain))
            .or_else(|| not_free(parts, vars))
    }

    fn applied(self, alloc: Global, parts: SchedParts) -> Result<SchedParts, SchedParts> {
        match self.cut(alloc, &parts) {
            Ok(cut) => cut.applied(alloc, parts),
            Err(_) => Err(parts),
        }
    }

    ghost keeps = { reorder_keeps };
}
