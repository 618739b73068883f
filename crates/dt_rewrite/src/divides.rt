//! A loop in two, by the extent of the outer one.

ghost use Rattle.std.specs.Prelude.{◌≡◌, ◌+◌, ◌<◌, ◌≤◌, ◌^◌, IfOk, length};
ghost use Rattle.dt_nest.specs.Tree.{loop_count};
ghost use Rattle.dt_nest.specs.Schedule.{seen};
ghost use Rattle.dt_rewrite.specs.Divides.{divide_cause, divide_cut};

use crate::two_loops::{TwoLoops, two_loops_cause};
use dt_base::{Name, NoMemory};
use dt_cuts::{Cut, extent_of};
use dt_model::Cause;
use dt_nest::{Rewrite, SchedParts};
use std::alloc::Global;

/// Loop `var` becomes `outer`, which has the extent `pieces`, around `inner`.
#[derive(Debug, Drop)]
pub struct Divide {
    pub var: u32,
    pub outer: Name,
    pub inner: Name,
    pub pieces: u32,
}

impl Divide {
    /// The cut that the divide is.
    fn cut(&self, alloc: Global, parts: &SchedParts) -> Result<Cut, NoMemory>
        requires { 0 < self.now.pieces }
        ensures cut { IfOk result (λ c. c ≡ divide_cut self.now (seen parts.now)) }
        ensures few { IfOk result (λ c. length (seen parts.now).names + length c.names < 2 ^ 32) }
    {
        let size = extent_of(parts, self.var).div_ceil(self.pieces);
        let loops = TwoLoops {
            var: self.var,
            pieces: self.pieces,
            size,
            outer: &self.outer,
            inner: &self.inner,
        };
        loops.cut(alloc, parts)
    }
}

impl Rewrite for Divide {
    ghost use Rattle.dt_rewrite.specs.Divides.{divide_rule};
    ghost use Rattle.dt_rewrite.specs.Laws.Divide.{divide_keeps};

    ghost rule = { divide_rule };

    fn first_cause(&self, parts: &SchedParts) -> Option<Cause>
        requires { loop_count (seen parts.now).nest ≤ 16 }
        ensures { result ≡ divide_cause self.now (seen parts.now) }
    {
        two_loops_cause(parts, self.var, self.pieces, &self.outer, &self.inner)
    }

    fn applied(self, alloc: Global, parts: SchedParts) -> Result<SchedParts, SchedParts> {
        match self.cut(alloc, &parts) {
            Ok(cut) => cut.applied(alloc, parts),
            Err(_) => Err(parts),
        }
    }

    ghost keeps = { divide_keeps };
}
