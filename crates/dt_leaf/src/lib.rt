//! In: a node's memory, and a run over a schedule's visits. Out: the memory after the last item of the run, which resets a
//! workspace or adds at one word. Proved by the clauses of `visit`, over the unit that a task's item is.
#![tactic(auto)]

mod at_visit;
mod laws;
mod node_words;
mod numbers;
mod visiting;
mod words;

pub use at_visit::{coordinates, visit_number};
pub use laws::items_are_short;
pub use node_words::NodeWords;
pub use numbers::Numbers;
pub use visiting::{extents_of, visit};
pub use words::word_at;
