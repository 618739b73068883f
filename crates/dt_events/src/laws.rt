//! Laws of the events of a plan.

ghost use Rattle.dt_events.specs.Events.{EventsOfAreNearest, PlanConflictsAreJoined};

/// The events of a plan are the pairs that conflict with none between them that conflicts with both. Each conflicting pair of
/// operations is joined by a chain of them.
pub fn plan_conflicts_are_joined()
    ensures exact { EventsOfAreNearest }
    ensures joined { PlanConflictsAreJoined }
{}
