//! Tests of schedules made by hand: visits of a nest with a walked loop, a precompute node and a substituted loop; the first
//! schedule of a statement, and a command that changes nothing.
#![tactic(auto)]

#[cfg(test)]
mod item_texts;
#[cfg(test)]
mod nest_tests;
#[cfg(test)]
mod row_schedules;
#[cfg(test)]
mod row_tensors;
#[cfg(test)]
mod row_tests;
