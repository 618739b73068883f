//! Laws of memories as states, of tasks and of trackers.

ghost use Rattle.dt_sim.specs.Changes.{BeginningsOpen, EndsClose, FoldsAdd, WritesOverwrite};
ghost use Rattle.dt_sim.specs.Slots.{TasksLeaveTheRest, TasksSeeTheirNode};
ghost use Rattle.dt_sim.specs.TaskItems.{ItemsAreUnits};
ghost use Rattle.dt_sim.specs.Tracking.{PlansAreTracked, TracksFollowTheJob};

/// What the memories of all nodes mean is one state: a buffer that begins or ends on a node is opened or closed there, and a word that
/// is written or folded into is overwritten or grows, and nothing else changes.
pub fn node_changes_are_state_changes()
    ensures begins { BeginningsOpen }
    ensures ends { EndsClose }
    ensures writes { WritesOverwrite }
    ensures folds { FoldsAdd }
{}

/// A tracker of a plan's operations and events follows the job's orders: it does a unit exactly where the events allow the list with
/// that unit, and counts it.
pub fn tracks_follow_the_job()
    ensures begin { PlansAreTracked }
    ensures follow { TracksFollowTheJob }
{}

/// What a task sees of the state is what its statement's slots name in the memory of its node, and what it leaves there is what it
/// leaves of the state.
pub fn tasks_see_their_node()
    ensures sees { TasksSeeTheirNode }
    ensures leaves { TasksLeaveTheRest }
{}

/// A task's item that the state defines can be done on the memory of its node alone, and then the state of the memories is that after
/// the item.
pub fn items_are_units()
    ensures { ItemsAreUnits }
{}
