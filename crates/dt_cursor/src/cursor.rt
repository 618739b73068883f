//! What an order asks for, unit after unit.

ghost use Rattle.std.specs.Prelude.{◌≡◌};
ghost use Rattle.dt_cursor.specs.Asked.{AreFew, asked_at, fresh_cursor, op_of, settled, stepped};

use crate::next::{Next, asked_at, is_unit, op_of};
use crate::spots::{Spot, settled, start_of};
use dt_order::Order;
use dt_tracker::Tracker;
use std::marker::Model;

/// Goes through an order. It takes no memory.
#[derive(Drop)]
pub struct Cursor<'o> {
    order: &'o Order,
    spot: Spot,
    due: bool,
    asked: u32,
}

impl<'o> Model for Cursor<'o> {
    ghost use Rattle.dt_cursor.specs.Asked.{AreFew, CursorView};

    ghost Value = { CursorView };

    ghost view = { λ c. record { order = c.order.now; spot = c.spot; due = c.due; asked = c.asked } };

    ghost invariant = { λ c. AreFew c.order.now };
}

impl<'o> Cursor<'o> {
    /// At the begin of an order, which has fewer than 2^32 entries.
    pub fn new(order: &'o Order) -> Cursor<'o>
        requires { AreFew order.now }
        ensures { result ≡ fresh_cursor order.now }
    {
        Cursor {
            order,
            spot: start_of(order),
            due: false,
            asked: 0,
        }
    }

    /// What the order asks for. The tracker is without a unit done at the first call, and after each answered unit that unit is
    /// done and no other. Where no unit is answered, the next call with this tracker answers the same.
    pub fn next(&mut self, tracker: &Tracker) -> Next
        ensures next { result ≡ asked_at self.old.order tracker.now (settled self.old.order tracker.now self.old.spot self.old.due) }
        ensures after { self.new ≡ stepped self.old tracker.now result }
    {
        self.spot = settled(self.order, tracker, self.spot, self.due);
        let next = asked_at(self.order, tracker, self.spot);
        self.due = is_unit(next);
        self.asked = op_of(next, self.spot);
        next
    }

    /// The operation that the last `next` asked for, where it answered a unit or a refusal.
    pub fn asked(&self) -> u32
        ensures { result ≡ self.now.asked }
    {
        self.asked
    }
}
