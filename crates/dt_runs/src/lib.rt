//! Sorted sets of numbers, kept as intervals. In: numbers, or boxes of numbers. Out: sets, their unions and common parts,
//! the rank of a number. Contracts see a set as the ascending list of its numbers, and each call gives exactly the list
//! that its clause names.
#![tactic(auto)]

mod boxes;
mod comb;
mod combine;
mod interval;
mod laws;
mod runs;
mod searches;

pub use comb::Comb;
pub use interval::Interval;
pub use laws::steps_in_combs;
pub use runs::Runs;

#[cfg(test)]
mod tests;
