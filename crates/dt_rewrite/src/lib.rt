//! In: a command with its numbers, and a schedule. Out: the schedule after it, or the first cause and the schedule as it
//! was, by `apply`. The law of each command (`specs/Laws/`): the sum is the same at every index.
#![tactic(auto)]

mod collapses;
mod communicates;
mod distributes;
mod divides;
mod reorders;
mod rotates;
mod splits;
mod two_loops;

pub use collapses::Collapse;
pub use communicates::Communicate;
pub use distributes::Distribute;
pub use divides::Divide;
pub use reorders::Reorder;
pub use rotates::Rotate;
pub use splits::Split;
