//! What an order asks for.

ghost use Rattle.std.specs.Prelude.{◌≡◌, ◌<◌, length};
ghost use Rattle.dt_cursor.specs.Asked.{AreFew, asked_at, is_unit, op_of, seed_next, step_next, steps_next};

use crate::spots::{Spot, next_seed};
use dt_order::{Entry, Order};
use dt_tracker::{Step, Tracker};

/// What comes next.
#[derive(Clone, Copy, Debug, PartialEq, Eq)]
pub enum Next {
    /// A unit of this operation.
    Unit(u32),
    /// The entry with this number, from 1, asks for a unit that is not allowed, and what the operation answers.
    Refused(u32, Step),
    /// The entries are used up, and this is the least operation with a unit left.
    Short(u32),
    /// Neither a unit nor an entry is left.
    End,
}

/// The operation that may go on and that the state of a seed draws.
fn seed_next(tracker: &Tracker, state: u64) -> Next
    ensures { result ≡ seed_next tracker.now state }
{
    let count = tracker.enabled_count();
    if count == 0 {
        return Next::End;
    }
    let k = (next_seed(state) >> 33) % u64::from(count);
    Next::Unit(tracker.enabled_at(k as u32))
}

/// What an entry asks for, by what its operation answers.
fn step_next(entry: u32, op: u32, step: Step) -> Next
    ensures { result ≡ step_next entry op step }
{
    match step {
        Step::Stepped => Next::Unit(op),
        Step::Unknown => Next::Refused(entry, Step::Unknown),
        Step::Waits(first) => Next::Refused(entry, Step::Waits(first)),
        Step::Finished => Next::Refused(entry, Step::Finished),
    }
}

/// What entries ask for.
fn steps_next(entries: &[Entry], tracker: &Tracker, spot: Spot) -> Next
    requires { length entries.now < 4294967296 }
    ensures { result ≡ steps_next entries.now tracker.now spot }
{
    if (spot.entry as usize) < entries.len() {
        return step_next(spot.entry + 1, spot.op, tracker.answer(spot.op));
    }
    match tracker.first_left() {
        None => Next::End,
        Some(op) => Next::Short(op),
    }
}

/// What an order asks for where it has come to a spot.
pub(crate) fn asked_at(order: &Order, tracker: &Tracker, spot: Spot) -> Next
    requires { AreFew order.now }
    ensures { result ≡ asked_at order.now tracker.now spot }
{
    match order {
        Order::Listing => match tracker.first_left() {
            None => Next::End,
            Some(op) => Next::Unit(op),
        },
        Order::Seed(_) => seed_next(tracker, spot.state),
        Order::Steps(entries) => steps_next(entries.as_slice(), tracker, spot),
    }
}

/// Whether a unit is asked for that may be done.
pub(crate) fn is_unit(next: Next) -> bool
    ensures { result ≡ is_unit next }
{
    match next {
        Next::Unit(_) => true,
        Next::Refused(_, _) => false,
        Next::Short(_) => false,
        Next::End => false,
    }
}

/// The operation that is asked for, and 0 where none is.
pub(crate) fn op_of(next: Next, spot: Spot) -> u32
    ensures { result ≡ op_of next spot }
{
    match next {
        Next::Unit(op) => op,
        Next::Refused(_, _) => spot.op,
        Next::Short(_) => 0,
        Next::End => 0,
    }
}
