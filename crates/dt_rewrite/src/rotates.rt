//! A loop that begins elsewhere at each value of the loops around it.

ghost use Rattle.std.specs.Prelude.{◌≡◌, ◌+◌, ◌<◌, ◌^◌, IfOk, length};
ghost use Rattle.dt_nest.specs.Schedule.{seen};
ghost use Rattle.dt_rewrite.specs.Rotates.{not_outer, rotate_cause, rotate_cut};

use crate::two_loops::head;
use dt_base::{Extents, Name, Names, NoMemory, Vars};
use dt_cuts::{Cut, Heads, extent_of, first_new_loop, not_free, taken_name, unknown_loop};
use dt_model::Cause;
use dt_nest::{Derivations, Derive, Derived, Rewrite, SchedParts, is_around, name_of};
use std::alloc::Global;

/// Loop `var` becomes `fresh`: its value is `fresh` and the values of the loops `by`, added, modulo its extent.
#[derive(Debug, Drop)]
pub struct Rotate {
    pub var: u32,
    pub by: Vars,
    pub fresh: Name,
}

impl Rotate {
    /// The cut that the rotate is.
    fn cut(&self, alloc: Global, parts: &SchedParts) -> Result<Cut, NoMemory>
        ensures cut { IfOk result (λ c. c ≡ rotate_cut self.now (seen parts.now)) }
        ensures few { IfOk result (λ c. length (seen parts.now).names + length c.names < 2 ^ 32) }
    {
        let fresh = first_new_loop(parts, 1)?;
        let extent = extent_of(parts, self.var);
        let mut derived = Derivations::new(alloc);
        derived.push(Derived {
            var: self.var,
            how: Derive::Rotate {
                base: fresh,
                by: Vars::from_slice(alloc, self.by.as_slice())?,
                extent,
            },
        })?;
        let mut names = Names::new(alloc);
        names.push(self.fresh.copied())?;
        Ok(Cut {
            old: Heads::from_slice(alloc, &[head(self.var, extent)])?,
            heads: Heads::from_slice(alloc, &[head(fresh, extent)])?,
            guards: Vars::new(alloc),
            derived,
            names,
            extents: Extents::from_slice(alloc, &[extent])?,
        })
    }
}

/// NotOuter with the first of these loops that isn't around loop `v`.
fn not_outer(parts: &SchedParts, v: u32, vars: &[u32]) -> Option<Cause>
    ensures { result ≡ not_outer (seen parts.now) v vars.now }
{
    let u = vars.iter().find(|u| !is_around(&parts.nest, v, **u))?;
    Some(Cause::NotOuter(name_of(parts, *u)))
}

impl Rewrite for Rotate {
    ghost use Rattle.dt_rewrite.specs.Rotates.{rotate_rule};
    ghost use Rattle.dt_rewrite.specs.Laws.Rotate.{rotate_keeps};

    ghost rule = { rotate_rule };

    fn first_cause(&self, parts: &SchedParts) -> Option<Cause>
        ensures { result ≡ rotate_cause self.now (seen parts.now) }
    {
        let by = self.by.as_slice();
        unknown_loop(parts, &[self.var])
            .or_else(|| unknown_loop(parts, by))
            .or_else(|| taken_name(&parts.names, &[self.fresh.copied()]))
            .or_else(|| not_outer(parts, self.var, by))
            .or_else(|| not_free(parts, &[self.var]))
    }

    fn applied(self, alloc: Global, parts: SchedParts) -> Result<SchedParts, SchedParts> {
        match self.cut(alloc, &parts) {
            Ok(cut) => cut.applied(alloc, parts),
            Err(_) => Err(parts),
        }
    }

    ghost keeps = { rotate_keeps };
}
