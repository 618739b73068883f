//! In: consecutive loops of a nest, and those that come in their place. Out: the schedule with the new loops, by
//! `Cut::applied`; and the tests that commands share, each by its definition. Lemmas: any cut keeps the sum, the
//! lawfulness, the fit and the accesses.
#![tactic(auto)]

mod causes;
mod cuts;
mod in_place;

pub use causes::{
    bad_number, communicated_loop, extent_of, first_new_loop, fixed_loop, not_free, taken_name,
    too_many_loops, unknown_loop, unless,
};
pub use cuts::{Cut, Head, Heads};
