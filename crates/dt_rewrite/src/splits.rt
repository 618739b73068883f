//! A loop in two, by the extent of the inner one.

ghost use Rattle.std.specs.Prelude.{◌≡◌, ◌+◌, ◌<◌, ◌≤◌, ◌^◌, IfOk, length};
ghost use Rattle.dt_nest.specs.Tree.{loop_count};
ghost use Rattle.dt_nest.specs.Schedule.{seen};
ghost use Rattle.dt_rewrite.specs.Splits.{split_cause, split_cut};

use crate::two_loops::{TwoLoops, two_loops_cause};
use dt_base::{Name, NoMemory};
use dt_cuts::{Cut, extent_of};
use dt_model::Cause;
use dt_nest::{Rewrite, SchedParts};
use std::alloc::Global;

/// Loop `var` becomes `outer` around `inner`, which has the extent `factor`.
#[derive(Debug, Drop)]
pub struct Split {
    pub var: u32,
    pub outer: Name,
    pub inner: Name,
    pub factor: u32,
}

impl Split {
    /// The cut that the split is.
    fn cut(&self, alloc: Global, parts: &SchedParts) -> Result<Cut, NoMemory>
        requires { 0 < self.now.factor }
        ensures cut { IfOk result (λ c. c ≡ split_cut self.now (seen parts.now)) }
        ensures few { IfOk result (λ c. length (seen parts.now).names + length c.names < 2 ^ 32) }
    {
        let pieces = extent_of(parts, self.var).div_ceil(self.factor);
        let loops = TwoLoops {
            var: self.var,
            pieces,
            size: self.factor,
            outer: &self.outer,
            inner: &self.inner,
        };
        loops.cut(alloc, parts)
    }
}

impl Rewrite for Split {
    ghost use Rattle.dt_rewrite.specs.Splits.{split_rule};
    ghost use Rattle.dt_rewrite.specs.Laws.Split.{split_keeps};

    ghost rule = { split_rule };

    fn first_cause(&self, parts: &SchedParts) -> Option<Cause>
        requires { loop_count (seen parts.now).nest ≤ 16 }
        ensures { result ≡ split_cause self.now (seen parts.now) }
    {
        two_loops_cause(parts, self.var, self.factor, &self.outer, &self.inner)
    }

    fn applied(self, alloc: Global, parts: SchedParts) -> Result<SchedParts, SchedParts> {
        match self.cut(alloc, &parts) {
            Ok(cut) => cut.applied(alloc, parts),
            Err(_) => Err(parts),
        }
    }

    ghost keeps = { split_keeps };
}
