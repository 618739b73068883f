//! Why there is no plan.

ghost use Rattle.std.specs.Prelude.{◌≡◌};
ghost use Rattle.dt_plan.specs.declared.plan_end.PlanEnd.TheVariants as end;

use dt_base::NoMemory;

/// The first number of a job that passes its limit, in this order, or that memory runs out.
#[derive(Clone, Copy, Debug, PartialEq, Eq)]
pub enum PlanEnd {
    /// For each leaf the product of the extents around it, where an extent of 0 counts as 1: above 4,194,304 in all.
    TooManyVisits,
    /// The bounds of all nodes: above 16,777,216 words in all.
    TooManyWords,
    /// Operations: above 8,192.
    TooManyOps,
    /// Units of all operations: above 33,554,432.
    TooManyUnits,
    NoMemory,
}

impl From<NoMemory> for PlanEnd {
    ghost from_gives = { λ _ stop. stop ≡ end.NoMemory };

    fn from(_error: NoMemory) -> PlanEnd {
        PlanEnd::NoMemory
    }
}
