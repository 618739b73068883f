//! Laws of trackers.

ghost use Rattle.dt_tracker.specs.TrackerLaws.{FollowersAreTheEvents, NoneIsStuck, TheEnabledStep, TheLeastMayGoOn, TracksGoOn, TracksTellTheEnabled};

/// A tracker follows the counts of a list of operations: the operations that may go on are those that may by the counts, and a unit
/// more is one more in the counts.
pub fn trackers_follow_orders<C>()
    ensures tell { TracksTellTheEnabled C }
    ensures go_on { TracksGoOn C }
    ensures events { FollowersAreTheEvents }
{}

/// While a unit is left, the least operation with one may go on. The operations that may go on are those that answer a unit.
pub fn none_is_stuck()
    ensures least { TheLeastMayGoOn }
    ensures stuck { NoneIsStuck }
    ensures step { TheEnabledStep }
{}
