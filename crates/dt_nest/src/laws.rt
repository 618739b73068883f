//! Laws of schedules and their visits.

ghost use Rattle.dt_nest.specs.Effects.{SumReadsTensors, VisitsAddTheSum};
ghost use Rattle.dt_nest.specs.World.{FittingAreZeros};

/// Running a schedule's visits one after another adds what the schedule means.
pub fn visits_add_the_sum()
    ensures { VisitsAddTheSum }
{}

/// What a schedule adds depends on the numbers of tensors alone.
pub fn sum_reads_tensors()
    ensures { SumReadsTensors }
{}

/// Tensors that fit a schedule are 0 below each prefix that isn't stored.
pub fn fitting_are_zeros()
    ensures { FittingAreZeros }
{}
