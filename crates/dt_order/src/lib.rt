//! In: the words of an `order` line. Out: the order that it states, or its first cause. Proved by `parse_order`.
#![tactic(auto)]

mod entries;
mod orders;
mod reading;

pub use dt_model::LineEnd as OrderEnd;
pub use orders::{Entry, EntryList, Order};
pub use reading::parse_order;
