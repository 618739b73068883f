//! Two loops as one.

ghost use Rattle.std.specs.Prelude.{◌≡◌, ◌+◌, ◌*◌, ◌<◌, ◌≤◌, ◌^◌, IfOk, length, slice_index};
ghost use Rattle.dt_nest.specs.Schedule.{seen};
ghost use Rattle.dt_rewrite.specs.Collapses.{collapse_cause, collapse_cut, too_large};

use crate::two_loops::head;
use dt_base::{Extents, Name, Names, NoMemory, Vars};
use dt_cuts::{Cut, Heads, extent_of, first_new_loop, not_free, taken_name, unknown_loop, unless};
use dt_model::Cause;
use dt_nest::{Derivations, Derive, Derived, Rewrite, SchedParts, is_chain};
use std::alloc::Global;

/// Loop `outer` around loop `inner` becomes one loop, `fused`.
#[derive(Debug, Drop)]
pub struct Collapse {
    pub outer: u32,
    pub inner: u32,
    pub fused: Name,
}

impl Collapse {
    /// The cut that the collapse is.
    fn cut(&self, alloc: Global, parts: &SchedParts) -> Result<Cut, NoMemory>
        requires { slice_index (seen parts.now).extents self.now.outer * slice_index (seen parts.now).extents self.now.inner ≤ 16777216 }
        ensures cut { IfOk result (λ c. c ≡ collapse_cut self.now (seen parts.now)) }
        ensures few { IfOk result (λ c. length (seen parts.now).names + length c.names < 2 ^ 32) }
    {
        let fused = first_new_loop(parts, 1)?;
        let outer = extent_of(parts, self.outer);
        let inner = extent_of(parts, self.inner);
        let extent = outer * inner;
        let mut derived = Derivations::new(alloc);
        derived.push(Derived {
            var: self.outer,
            how: Derive::Quotient { fused, by: inner },
        })?;
        derived.push(Derived {
            var: self.inner,
            how: Derive::Rest { fused, by: inner },
        })?;
        let mut names = Names::new(alloc);
        names.push(self.fused.copied())?;
        Ok(Cut {
            old: Heads::from_slice(alloc, &[head(self.outer, outer), head(self.inner, inner)])?,
            heads: Heads::from_slice(alloc, &[head(fused, extent)])?,
            guards: Vars::new(alloc),
            derived,
            names,
            extents: Extents::from_slice(alloc, &[extent])?,
        })
    }
}

/// TooLarge where the fused loop would have too many values.
fn too_large(outer: u32, inner: u32) -> Option<Cause>
    ensures { result ≡ too_large outer inner }
{
    if outer as u64 * inner as u64 > 16777216 {
        return Some(Cause::TooLarge);
    }
    None
}

impl Rewrite for Collapse {
    ghost use Rattle.dt_rewrite.specs.Collapses.{collapse_rule};
    ghost use Rattle.dt_rewrite.specs.Laws.Collapse.{collapse_keeps};

    ghost rule = { collapse_rule };

    fn first_cause(&self, parts: &SchedParts) -> Option<Cause>
        ensures { result ≡ collapse_cause self.now (seen parts.now) }
    {
        unknown_loop(parts, &[self.outer, self.inner])
            .or_else(|| taken_name(&parts.names, &[self.fused.copied()]))
            .or_else(|| unless(
                is_chain(&parts.nest, &[self.outer, self.inner]),
                Cause::NotAdjacent,
            ))
            .or_else(|| too_large(extent_of(parts, self.outer), extent_of(parts, self.inner)))
            .or_else(|| not_free(parts, &[self.outer, self.inner]))
    }

    fn applied(self, alloc: Global, parts: SchedParts) -> Result<SchedParts, SchedParts> {
        match self.cut(alloc, &parts) {
            Ok(cut) => cut.applied(alloc, parts),
            Err(_) => Err(parts),
        }
    }

    ghost keeps = { collapse_keeps };
}
