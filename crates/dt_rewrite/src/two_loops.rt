//! A loop in two.

ghost use Rattle.std.specs.Prelude.{◌≡◌, ◌+◌, ◌<◌, ◌≤◌, ◌^◌, [], ◌∷◌, IfOk, length, slice_index};
ghost use Rattle.dt_nest.specs.Tree.{loop_count};
ghost use Rattle.dt_nest.specs.Schedule.{seen};
ghost use Rattle.dt_cuts.specs.Causes.{first_cause};
ghost use Rattle.dt_rewrite.specs.TwoLoops.{two_loops, two_loops_tests};

use dt_base::{Extents, Name, Names, NoMemory, Vars};
use dt_cuts::{
    Cut, Head, Heads, bad_number, extent_of, first_new_loop, not_free, taken_name, too_many_loops,
    unknown_loop,
};
use dt_model::Cause;
use dt_nest::{Derivations, Derive, Derived, SchedParts};
use std::alloc::Global;

/// The first cause against a cut of loop `v` in two by a number.
pub fn two_loops_cause(
    parts: &SchedParts,
    v: u32,
    number: u32,
    outer: &Name,
    inner: &Name,
) -> Option<Cause>
    requires { loop_count (seen parts.now).nest ≤ 16 }
    ensures { result ≡ first_cause (two_loops_tests v number (outer.now ∷ inner.now ∷ []) (seen parts.now)) }
{
    let names = [outer.copied(), inner.copied()];
    unknown_loop(parts, &[v])
        .or_else(|| bad_number(number))
        .or_else(|| taken_name(&parts.names, &names))
        .or_else(|| too_many_loops(parts))
        .or_else(|| not_free(parts, &[v]))
}

/// A loop as two: the extents of the outer and of the inner one, and their names.
#[derive(Drop)]
pub struct TwoLoops<'a> {
    pub var: u32,
    pub pieces: u32,
    pub size: u32,
    pub outer: &'a Name,
    pub inner: &'a Name,
}

impl TwoLoops<'_> {
    /// The cut of the loop in the two.
    pub fn cut(&self, alloc: Global, parts: &SchedParts) -> Result<Cut, NoMemory>
        ensures cut { IfOk result (λ c. c ≡ two_loops self.now.var (slice_index (seen parts.now).extents self.now.var) self.now.pieces self.now.size (self.now.outer.now ∷ self.now.inner.now ∷ []) (seen parts.now)) }
        ensures few { IfOk result (λ c. length (seen parts.now).names + length c.names < 2 ^ 32) }
    {
        let v = self.var;
        let first = first_new_loop(parts, 2)?;
        let second = first + 1;
        let how = Derive::Split {
            outer: first,
            inner: second,
            factor: self.size,
        };
        let mut derived = Derivations::new(alloc);
        derived.push(Derived { var: v, how })?;
        let mut names = Names::new(alloc);
        names.push(self.outer.copied())?;
        names.push(self.inner.copied())?;
        let heads = [head(first, self.pieces), head(second, self.size)];
        Ok(Cut {
            old: Heads::from_slice(alloc, &[head(v, extent_of(parts, v))])?,
            heads: Heads::from_slice(alloc, &heads)?,
            guards: Vars::from_slice(alloc, &[v])?,
            derived,
            names,
            extents: Extents::from_slice(alloc, &[self.pieces, self.size])?,
        })
    }
}

/// A loop, by its number and its extent.
pub fn head(var: u32, extent: u32) -> Head
    ensures { result ≡ record { var = var; extent = extent } }
{
    Head { var, extent }
}
