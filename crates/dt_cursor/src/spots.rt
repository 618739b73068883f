//! Where an order has come to.

ghost use Rattle.std.specs.Prelude.{◌≡◌, ◌+◌, ◌<◌, ◌&&◌, length, nat_lt};
ghost use Rattle.dt_tracker.specs.Tracks.{has_left};
ghost use Rattle.dt_cursor.specs.Asked.{AreFew, at_entry, gone_on, has_unit, next_seed, settled, start_of, steps_on};

use dt_order::{Entry, Order};
use dt_tracker::Tracker;

/// Where an order has come to: the state of a seed; how many entries are behind; the operation that the next entry asks for; and
/// how many of its units the entry still asks for, where it counts them.
#[derive(Clone, Copy)]
pub struct Spot {
    pub state: u64,
    pub entry: u32,
    pub op: u32,
    pub count: u32,
}

/// The state behind this one.
pub(crate) fn next_seed(state: u64) -> u64
    ensures { result ≡ next_seed state }
{
    state
        .wrapping_mul(6_364_136_223_846_793_005)
        .wrapping_add(1_442_695_040_888_963_407)
}

/// Before an entry.
fn at_entry(state: u64, entries: &[Entry], entry: u32) -> Spot
    ensures { result ≡ at_entry state entries.now entry }
{
    match entries.get(entry as usize) {
        None => Spot {
            state,
            entry,
            op: 0,
            count: 0,
        },
        Some(Entry::Count(op, count)) => Spot {
            state,
            entry,
            op: *op,
            count: *count,
        },
        Some(Entry::Range(first, _)) => Spot {
            state,
            entry,
            op: *first,
            count: 0,
        },
    }
}

/// Before the first unit.
pub(crate) fn start_of(order: &Order) -> Spot
    ensures { result ≡ start_of order.now }
{
    match order {
        Order::Listing => at_entry(0, &[], 0),
        Order::Seed(seed) => at_entry(*seed, &[], 0),
        Order::Steps(entries) => at_entry(0, entries.as_slice(), 0),
    }
}

/// Whether an operation exists and has a unit left.
fn has_unit(tracker: &Tracker, op: u32) -> bool
    ensures { result ≡ has_unit tracker.now op }
{
    op < tracker.op_count() && tracker.left(op) > 0
}

/// Where entries have come to after one more unit of the operation that they asked for.
fn steps_on(entries: &[Entry], tracker: &Tracker, spot: Spot) -> Spot
    requires { length entries.now < 4294967296 }
    ensures { result ≡ steps_on entries.now tracker.now spot }
{
    match entries.get(spot.entry as usize) {
        None => spot,
        Some(Entry::Count(_, _)) => {
            if spot.count > 1 {
                Spot {
                    state: spot.state,
                    entry: spot.entry,
                    op: spot.op,
                    count: spot.count - 1,
                }
            } else {
                at_entry(spot.state, entries, spot.entry + 1)
            }
        }
        Some(Entry::Range(_, last)) => {
            if has_unit(tracker, spot.op) {
                spot
            } else if spot.op < *last {
                Spot {
                    state: spot.state,
                    entry: spot.entry,
                    op: spot.op + 1,
                    count: spot.count,
                }
            } else {
                at_entry(spot.state, entries, spot.entry + 1)
            }
        }
    }
}

/// Where an order has come to after one more unit of the operation that it asked for.
fn gone_on(order: &Order, tracker: &Tracker, spot: Spot) -> Spot
    requires { AreFew order.now }
    ensures { result ≡ gone_on order.now tracker.now spot }
{
    match order {
        Order::Listing => spot,
        Order::Seed(_) => Spot {
            state: next_seed(spot.state),
            entry: spot.entry,
            op: spot.op,
            count: spot.count,
        },
        Order::Steps(entries) => steps_on(entries.as_slice(), tracker, spot),
    }
}

/// Where an order has come to, where a unit that it asked for was done, or not.
pub(crate) fn settled(order: &Order, tracker: &Tracker, spot: Spot, due: bool) -> Spot
    requires { AreFew order.now }
    ensures { result ≡ settled order.now tracker.now spot due }
{
    if due {
        gone_on(order, tracker, spot)
    } else {
        spot
    }
}
