//! In: a list of operations with their units, conflicts and events. Out: laws of every order that the events allow. No code
//! runs here: each law is a public function with an empty body. The laws speak of states of cells `C`, a type of the caller.
//! Proved by `conflicts_are_joined`, `new_unit_moves_back` and `every_order`.
#![tactic(auto)]

mod events;
mod orders;
#[cfg(test)]
mod tests;

pub use events::conflicts_are_joined;
pub use orders::{
    every_order, framed_units_commute, never_stuck, new_unit_moves_back, orders_go_on,
    the_listing_is_an_order,
};
