//! In: buffers that begin and end, and single words that are written and read. Out: the memory of one node, a finite map from
//! buffers to words and values. Proved by the clause of each call of `NodeMem`, which takes memory in `new` alone, and by the
//! law `memory_is_a_map`.
#![tactic(auto)]

mod laws;
mod node_mem;
mod parts;
mod rooms;
#[cfg(test)]
mod tests;

pub use laws::memory_is_a_map;
pub use node_mem::NodeMem;
pub use rooms::BufSpec;
