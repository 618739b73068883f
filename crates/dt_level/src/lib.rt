//! The levels of a tensor. In: an extent and a number of parents, or the numbers `pos` and `crd` of a compressed
//! level. Out: the children of each parent, with their coordinates and numbers, counted, read and searched. A level
//! is seen as a list of lists: for each parent the ascending coordinates of its children, which are numbered end to
//! end. Proved by the clauses of `Level` for both kinds of level, and by `from_parts`, which refuses numbers that make
//! no level.
#![tactic(auto)]

mod compressed_level;
mod dense_level;
mod levels;
mod parts;
mod searches;
#[cfg(test)]
mod tests;

pub use compressed_level::Compressed;
pub use dense_level::Dense;
pub use levels::Level;
