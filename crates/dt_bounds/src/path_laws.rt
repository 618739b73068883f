//! Laws of what is needed under a path, and of the units of its visits.

ghost use Rattle.dt_bounds.specs.NeededPaths.{AccessesAreNeeded, FrontsNeedMore, LeftIsNeeded, NeededFollowsPaths, NeededFollowsVisited, NeededOverPaths, NeededShrinks, NotNeededAddsNothing};
ghost use Rattle.dt_bounds.specs.TaskUnits.{TasksAddTheSum, TasksAreDefined, TasksLeaveOthers, UnitsAreDefined, UnitsFollowEffects, UnitsKeepHeld, VisitsHaveLeft};

/// A position is needed under a path where it is needed under one of its next values.
pub fn needed_follows_paths()
    ensures { NeededFollowsPaths }
{}

/// What is needed under a longer path is needed under the shorter one.
pub fn needed_shrinks()
    ensures { NeededShrinks }
{}

/// What the visits under a path access is needed under it.
pub fn accesses_are_needed()
    ensures { AccessesAreNeeded }
{}

/// The position where a visit adds is needed under its path.
pub fn left_is_needed()
    ensures { LeftIsNeeded }
{}

/// A path whose visits don't need a position of the left tensor adds nothing there.
pub fn not_needed_adds_nothing()
    ensures { NotNeededAddsNothing }
{}

/// A position is needed under a path where it is needed under one of its next values that some visit has.
pub fn needed_follows_visited()
    ensures { NeededFollowsVisited }
{}

/// The first values of a path are a path, and need what it needs.
pub fn fronts_need_more()
    ensures { FrontsNeedMore }
{}

/// A position is needed by a schedule where it is needed under one of the paths of the first loops.
pub fn needed_over_paths()
    ensures { NeededOverPaths }
{}

/// The units of a task are defined where its node holds what is needed.
pub fn units_are_defined()
    ensures { UnitsAreDefined }
{}

/// After any unit the node still holds what is needed.
pub fn units_keep_held()
    ensures { UnitsKeepHeld }
{}

/// The units of a task do to a node's words what its visits do to entries.
pub fn units_follow_effects()
    ensures { UnitsFollowEffects }
{}

/// What the units of a task leave as it was.
pub fn tasks_leave_others()
    ensures { TasksLeaveOthers }
{}

/// What the units of a task add to the left tensor.
pub fn tasks_add_the_sum()
    ensures { TasksAddTheSum }
{}

/// The units of a task are defined, one after another.
pub fn tasks_are_defined()
    ensures { TasksAreDefined }
{}

/// Where the left tensor stores all, there is a word wherever a visit adds.
pub fn visits_have_left()
    ensures { VisitsHaveLeft }
{}
