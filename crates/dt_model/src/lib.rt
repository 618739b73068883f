//! What a statement in index notation means. In: shapes, tensors as lists of numbers, statements. Out: the number that a
//! statement gives at an index, by `value_at`; and the causes of refusals with their texts, by `Cause::text`.
#![tactic(auto)]

mod cause;
mod cause_text;
mod lawful;
mod laws;
mod locator;
mod shape;
mod steps;
mod stmt;
mod value;
mod whole;

pub use cause::{Cause, LineEnd};
pub use lawful::{is_index, is_stmt};
pub use laws::{positions_follow_coordinates, value_is_a_ring_sum};
pub use locator::Locator;
pub use shape::Shape;
pub use steps::{found, need};
pub use stmt::{Access, Factor, Factors, Stmt, Stmts, Term, Terms};
pub use value::value_at;
pub use whole::Whole;
