//! In: a schedule, and the memory of one node that holds each word of its tensors and workspaces (`holds_all`). Out: the
//! memory after all of the schedule's visits, done one after another on that node. Proved by the clauses of `run_on_node`.
#![tactic(auto)]

mod holding;
mod node_runs;

pub use holding::holds_all;
pub use node_runs::{run_next, run_on_node, visits_on_node};
