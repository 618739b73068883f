//! Laws of conflicts and events.

ghost use Rattle.dt_argument.specs.Laws.{ConflictsAreJoined, EventsAreNearest, ListedEventsJoin};

/// The events are the pairs that conflict with none between them that conflicts with both. Each conflicting pair is joined by a
/// chain of them, by the distance of the pair.
pub fn conflicts_are_joined()
    ensures joined { ConflictsAreJoined }
    ensures exact { EventsAreNearest }
    ensures listed { ListedEventsJoin }
{}
