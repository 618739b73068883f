//! The visits that parts may have, against their limit.

ghost use Rattle.std.specs.Prelude.{◌≡◌, ◌+◌, min};
ghost use Rattle.std.specs.List.{AllByRecursion};
ghost use Rattle.dt_nest.specs.Lawful.{IsLawful};
ghost use Rattle.dt_nest.specs.Tree.{tree_of};
ghost use Rattle.dt_plan.specs.declared.parts.Part.{Part};
ghost use Rattle.dt_plan.specs.Limits.{has_too_many_visits, visit_limit, visits_bound};

use crate::parts::Part;
use dt_nest::Nest;

/// The most visits of a plan.
const VISIT_LIMIT: u64 = 4_194_304;

/// Whether the parts may have more than 4,194,304 visits in all. An extent of 0 counts as 1. Each schedule is lawful.
pub fn has_too_many_visits(parts: &[Part]) -> bool
    ensures count { result ≡ has_too_many_visits parts.now }
    ensures lawful { AllByRecursion (λ (p : Part). IsLawful p.sched) parts.now }
{
    let mut count = 0u64;
    for part in parts {
        count = capped(count + capped_visits(&part.sched.parts().nest));
    }
    count > VISIT_LIMIT
}

/// The visits that a nest may have, counted no further than to the first number past the limit.
fn capped_visits(nest: &Nest) -> u64
    ensures { result ≡ min (visits_bound (tree_of nest.now)) (visit_limit + 1) }
{
    match nest {
        Nest::Loop { extent, body, .. } => {
            capped(u64::from((*extent).max(1)) * capped_visits(body))
        }
        Nest::Pre {
            producer,
            consumer,
            ..
        } => capped(capped_visits(producer) + capped_visits(consumer)),
        Nest::Leaf { .. } => 1,
    }
}

/// The count, or the first number past the limit.
fn capped(count: u64) -> u64
    ensures { result ≡ min count (visit_limit + 1) }
{
    count.min(VISIT_LIMIT + 1)
}
