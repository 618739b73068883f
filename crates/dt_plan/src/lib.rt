//! What a job does on its nodes: the operations of each statement, in order.
//!
//! In: the parts of a job's statements, the homes of its tensors, and a machine. Out: the operations with the words that
//! each one moves, the nodes' bounds and the traffic, as definitions. Proved of the operations by `list_has_named`,
//! `list_is_brackets` and `list_is_ordered`: they are those that the statements name, sorted by their keys they are brackets
//! along the statements' nests, and they ascend by what the keys are made of.
#![tactic(auto)]

mod bounds;
mod brackets;
mod footprints;
mod job_layout;
mod job_ops;
mod kind;
mod laws;
mod moved;
mod needs;
mod node_words;
mod opened;
mod ops;
mod outlined;
mod parts;
mod path_ops;
mod plan_end;
mod planning;
mod plans;
mod statement;
mod touches;
mod traffic;
mod visit_limit;
mod visited_paths;

pub use bounds::bounds_of;
pub use brackets::push_brackets;
pub use footprints::all_footprints;
pub use job_layout::JobLayout;
pub use job_ops::{buffers_of, listed};
pub use kind::Kind;
pub use laws::{
    list_ascends, list_has_named, list_is_brackets, list_is_ordered, operations_are_of_layout,
    operations_have_units,
};
pub use needs::{Need, Needs};
pub use ops::{Op, Ops};
pub use outlined::{Around, Outlined, Paths};
pub use parts::{Part, Parts};
pub use path_ops::{OnPath, push_closed, push_opened};
pub use plan_end::PlanEnd;
pub use planning::plan_of;
pub use plans::{Moves, Plan};
pub use touches::{Buffer, Mode, Touch, Touches};
pub use traffic::moves_of;
pub use visit_limit::has_too_many_visits;
pub use visited_paths::{depth_of, first_paths, visit_count, visited_values};
