//! In: the units of operations and the events between them. Out: how many units of each are done, unit by unit, and which operations
//! may go on. Proved by the clause of each call of `Tracker`, and by the laws `trackers_follow_orders` and `none_is_stuck`.
#![tactic(auto)]

mod holding;
mod laws;
mod release;
mod rows;
mod step;
#[cfg(test)]
mod tests;
mod tracker;

pub use laws::{none_is_stuck, trackers_follow_orders};
pub use rows::rows_of;
pub use step::Step;
pub use tracker::Tracker;
