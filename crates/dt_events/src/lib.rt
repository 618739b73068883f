//! In: a plan. Out: its events, the pairs of operations whose order matters. Proved by `events_of`: exactly the pairs that
//! conflict with no operation between them that conflicts with both, or there are too many; and by
//! `plan_conflicts_are_joined`: each conflicting pair is joined by a chain of them. Beside it the state of a job's nodes and the
//! units of its operations, as definitions, with laws that no code runs: `units_keep_to_footprints`, `lists_have_frames`,
//! `listings_run`, and of every order `every_order_of_a_job`, `orders_leave_the_numbers` and `live_words_are_bounded`.
#![tactic(auto)]

mod candidates;
mod conflicts;
mod events;
mod events_end;
mod job_laws;
mod laws;
mod listing_runs;
mod live_words;
mod presence_laws;
mod state_laws;
#[cfg(test)]
mod tests;
mod tracking;

pub use events::{Events, events_of};
pub use events_end::EventsEnd;
pub use job_laws::{every_order_of_a_job, jobs_meet_the_facts};
pub use laws::plan_conflicts_are_joined;
pub use listing_runs::{listings_run, orders_leave_the_numbers};
pub use live_words::{
    homes_stay, live_words_are_bounded, scratch_is_bounded, scratch_is_of_one_segment,
};
pub use presence_laws::buffers_are_opened_whole;
pub use state_laws::{lists_have_frames, units_keep_to_footprints};
pub use tracking::tracker_of;
