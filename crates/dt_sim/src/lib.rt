//! In: a plan with its events, and the numbers of the tensors. Out: the memories of the nodes after the units of an order. Proved so
//! far, by `node_changes_are_state_changes`: a change of one node's memory is that change of the state; and of each unit of an
//! operation, a task's among them, that it makes of the memories' state what its definition says. `tracks_follow_the_job`: a tracker
//! of the plan's events follows the job's orders. `tasks_see_their_node`: what a task sees and leaves on its node is part of that state.
#![tactic(auto)]

mod job;
mod laws;
mod memories;
mod slots;
mod tasks;
mod units;

pub use job::Job;
pub use laws::{
    items_are_units, node_changes_are_state_changes, tasks_see_their_node, tracks_follow_the_job,
};
