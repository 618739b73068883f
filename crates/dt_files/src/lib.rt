//! Tensor files. In: the bytes of a file, records of numbers in the format of `csv`, each the coordinates of an entry and its
//! number; or a tensor. Out: the entries, or the first record that is none; or the bytes. Proved by the clauses of
//! `read_rows` and `write_rows`, and by the law that reading what was written gives the stored entries in order.
#![tactic(auto)]

mod ends;
mod laws;
mod reading;
mod writing;

pub use ends::RowsEnd;
pub use laws::written_rows_are_read_back;
pub use reading::read_rows;
pub use writing::write_rows;

#[cfg(test)]
mod tests;
