//! In: an order that a job states, and a tracker after each unit. Out: what the order asks for next. Proved by the clauses of
//! `Cursor`, and by the law `cursors_follow_orders`.
#![tactic(auto)]

mod cursor;
mod laws;
mod next;
mod spots;

pub use cursor::Cursor;
pub use laws::cursors_follow_orders;
pub use next::Next;
