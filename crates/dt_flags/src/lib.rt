//! In: flags that are set and cleared one by one. Out: how many are set, and which is the k-th, in the logarithm of their number.
//! Proved by the clause of each call of `Flags`.
#![tactic(auto)]

mod flags;
mod sums;
#[cfg(test)]
mod tests;

pub use flags::Flags;
pub use sums::Sums;
