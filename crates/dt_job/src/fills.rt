//! The numbers that a `fill` line gives.

ghost use Rattle.std.specs.Prelude.{◌≡◌, IfOk, length};
ghost use Rattle.dt_job.specs.Fills.{fill_values, next_state, ramp_values, seed_values};

use dt_base::NoMemory;
use std::alloc::Global;

/// How the positions of a tensor get their numbers.
#[derive(Clone, Copy, Debug, PartialEq, Eq)]
pub enum Fill {
    /// Each position its number plus 1.
    Ramp,
    /// Each position the next number from this seed.
    Seed(u64),
}

impl Fill {
    /// The numbers at the first positions.
    #[tactic(auto, using(crate::proofs::FillFacts::counts))]
    pub fn values(self, alloc: Global, count: u32) -> Result<Vec<u64>, NoMemory>
        ensures values { IfOk result (λ v. v.items ≡ fill_values self count) }
        ensures count { IfOk result (λ v. length v.items ≡ count) }
    {
        match self {
            Fill::Ramp => ramp(alloc, count),
            Fill::Seed(seed) => seeded(alloc, seed, count),
        }
    }
}

/// At each position its number plus 1.
fn ramp(alloc: Global, count: u32) -> Result<Vec<u64>, NoMemory>
    ensures { IfOk result (λ v. v.items ≡ ramp_values count) }
{
    let mut values = Vec::with_capacity(alloc, count as usize)?;
    for position in 0..count {
        values.push(u64::from(position) + 1)?;
    }
    Ok(values)
}

/// At each position the upper bits of the next state, from the seed on.
fn seeded(alloc: Global, seed: u64, count: u32) -> Result<Vec<u64>, NoMemory>
    ensures { IfOk result (λ v. v.items ≡ seed_values seed count) }
{
    let mut values = Vec::with_capacity(alloc, count as usize)?;
    let mut state = seed;
    for _position in 0..count {
        state = next_state(state);
        values.push(state >> 33)?;
    }
    Ok(values)
}

/// The state behind this one.
fn next_state(state: u64) -> u64
    ensures { result ≡ next_state state }
{
    state
        .wrapping_mul(6_364_136_223_846_793_005)
        .wrapping_add(1_442_695_040_888_963_407)
}
