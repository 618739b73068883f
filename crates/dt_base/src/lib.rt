//! The list types that every crate speaks in, and want of memory. In: items one by one. Out: exactly the list of them, by
//! the clause of each call; decimal texts, by `append_number` and `append_joined`. `specs/` and `proofs/` have what is said
//! of lists and numbers alone: ranges, assignments, row-major numbers and sums.
#![tactic(auto)]

mod bytes;
mod coords;
mod name;
mod no_memory;
mod numbers;
mod short_text;
#[cfg(test)]
mod tests;

pub use bytes::{Bytes, Lines};
pub use coords::Coords;
pub use name::{Name, Names};
pub use no_memory::NoMemory;
pub use numbers::{Extents, Numbers, Vars, Words};
pub use short_text::ShortText;
