//! In: a statement's text, and what is known of the tensors. Out: the statement, or its first cause, by `parse_stmt`; and
//! its text again, by `print_stmt`, which is read as that statement (`printed_is_read_again`).
#![tactic(auto)]

mod access_list;
mod clash;
mod first_extents;
mod form;
mod form_reading;
mod lookup;
mod name_set;
mod numbering;
mod occurrence_list;
mod occurrences;
mod offenders;
mod parsing;
mod printing;
mod resolving;
mod symbol_list;
mod symbols;
mod uneven;

pub use dt_model::LineEnd as StmtEnd;
pub use lookup::Lookup;
pub use parsing::parse_stmt;
pub use printing::{print_stmt, printed_is_read_again};
