//! Laws of the visits under a path, and of what they add.

ghost use Rattle.dt_nest.specs.PathLaws.{AssignmentsArePaths, PathSumsFollow, PathSumsReadTensors, PathsAddTheSum, RootSum, TaskHasLoops, VisitsExtendPaths, VisitsFollowPaths};
ghost use Rattle.dt_nest.specs.PathSteps.{PathsAreVisited, PathsGrow, SumsFollowVisited, SumsOverPaths, UnvisitedAddsNothing, VisitsFollowVisited, VisitsOverPaths};

/// The visits under a path are those under its next values, one after another.
pub fn visits_follow_paths()
    ensures { VisitsFollowPaths }
{}

/// The visits of leaves under a path are those of the whole nest that extend it.
pub fn visits_extend_paths()
    ensures { VisitsExtendPaths }
{}

/// The visits under a path are those under its next values that some visit has.
pub fn visits_follow_visited()
    ensures { VisitsFollowVisited }
{}

/// The loops down to a communicate loop are not substituted and stand outside every precompute node.
pub fn task_has_loops()
    ensures { TaskHasLoops }
{}

/// The values of the loops down to a communicate loop are paths.
pub fn assignments_are_paths()
    ensures { AssignmentsArePaths }
{}

/// Each path of the first loops that some visit extends is a path of so many values.
pub fn paths_are_visited()
    ensures { PathsAreVisited }
{}

/// The paths of one loop more are the shorter ones, each with one value more.
pub fn paths_grow()
    ensures { PathsGrow }
{}

/// All visits are those under the paths of the first loops.
pub fn visits_over_paths()
    ensures { VisitsOverPaths }
{}

/// Running the visits under a path adds its sum.
pub fn paths_add_the_sum()
    ensures { PathsAddTheSum }
{}

/// The sum of a path is the sum over the next values.
pub fn path_sums_follow()
    ensures { PathSumsFollow }
{}

/// The sum of the empty path is the schedule's.
pub fn root_sum()
    ensures { RootSum }
{}

/// The sum of a path is the sum over its next values that some visit has, modulo 2 ^ 64.
pub fn sums_follow_visited()
    ensures { SumsFollowVisited }
{}

/// A path that no visit extends adds nothing.
pub fn unvisited_adds_nothing()
    ensures { UnvisitedAddsNothing }
{}

/// The schedule's sum is the sum over the paths of the first loops.
pub fn sums_over_paths()
    ensures { SumsOverPaths }
{}

/// The sum of a path depends on the numbers of tensors alone.
pub fn path_sums_read_tensors()
    ensures { PathSumsReadTensors }
{}
