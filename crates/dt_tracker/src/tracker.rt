//! How many units of each operation are done, and which operations may go on.

ghost use Rattle.std.specs.Prelude.{◌≡◌, ◌-◌, ◌<◌, ◌^◌, ℕ, true, IfOk, length, slice_index, if◌then◌else◌};
ghost use Rattle.std.specs.List.{All};
ghost use Rattle.dt_tracker.specs.Tracks.{IsLawful, answer_of, enabled_of, is_enabled, is_stepped, least_left, opening_of, taken, waits_of};

use crate::holding::first_holding;
use crate::release::{Counts, count_unit, first_with_left, release};
use crate::rows::{enabled_flags, rows_of, waiting_for};
use crate::step::Step;
use dt_base::{NoMemory, Numbers};
use dt_flags::Flags;
use std::alloc::Global;
use std::marker::Model;

/// How many units of each operation are done. It knows which operations may go on, and what an operation waits for.
#[derive(Drop)]
pub struct Tracker {
    counts: Counts,
    rows: Vec<Numbers>,
    waiting: Vec<u32>,
    enabled: Flags,
    first: u32,
}

impl Model for Tracker {
    ghost use Rattle.dt_tracker.specs.Tracks.{Track};
    ghost use Rattle.dt_tracker.specs.Waiting.{IsKept};

    ghost Value = { Track };

    ghost view = { λ t. record { units = t.counts.units.items; followers = t.rows.items; done = t.counts.done.items } };

    ghost invariant = { λ t. IsKept t.counts.units.items t.counts.done.items t.rows.items t.waiting.items t.enabled t.first };
}

impl Tracker {
    /// How many operations there are.
    pub fn op_count(&self) -> u32
        ensures count { result ≡ length self.now.units }
        ensures lawful { IsLawful self.now }
    {
        self.counts.units.len() as u32
    }

    /// The units that are left of an operation.
    pub fn left(&self, op: u32) -> u32
        requires { op < length self.now.units }
        ensures { result ≡ slice_index self.now.units op - slice_index self.now.done op }
    {
        self.counts.units[op as usize] - self.counts.done[op as usize]
    }

    /// The least operation with a unit left. Where events are lawful it may go on.
    pub fn first_left(&self) -> Option<u32>
        ensures { result ≡ least_left self.now }
    {
        if (self.first as usize) < self.counts.units.len() {
            Some(self.first)
        } else {
            None
        }
    }

    /// How many operations may go on: they have a unit left, and each operation from which an event leads to them is finished.
    pub fn enabled_count(&self) -> u32
        ensures { result ≡ length (enabled_of self.now) }
    {
        self.enabled.count()
    }

    /// One of those that may go on, by its number among them, ascending from 0.
    pub fn enabled_at(&self, k: u32) -> u32
        requires { k < length (enabled_of self.now) }
        ensures { result ≡ slice_index (enabled_of self.now) k }
    {
        self.enabled.at(k)
    }

    /// The least unfinished operation from which an event leads to this one.
    pub fn waits(&self, op: u32) -> Option<u32>
        requires { op < length self.now.units }
        ensures { result ≡ waits_of self.now op }
    {
        if self.waiting[op as usize] == 0 {
            return None;
        }
        first_holding(&self.counts, self.rows.as_slice(), op)
    }

    /// What `take` would answer. An operation that waits says so before it says that it has no unit left.
    pub fn answer(&self, op: u32) -> Step
        ensures { result ≡ answer_of self.now op }
    {
        if op as usize >= self.counts.units.len() {
            return Step::Unknown;
        }
        match self.waits(op) {
            Some(first) => Step::Waits(first),
            None => {
                if self.counts.has_left(op) {
                    Step::Stepped
                } else {
                    Step::Finished
                }
            }
        }
    }

    /// One more unit of an operation that may go on.
    fn advance(&mut self, op: u32)
        requires exists { op < length self.old.units }
        requires enabled { is_enabled self.old op ≡ true }
        ensures { self.new ≡ taken self.old op }
    {
        count_unit(&mut self.counts, op);
        if !self.counts.has_left(op) {
            self.enabled.clear(op);
            release(
                &self.counts,
                self.rows[op as usize].as_slice(),
                &mut self.waiting,
                &mut self.enabled,
            );
            self.first = first_with_left(&self.counts, self.first);
        }
    }

    /// One more unit of an operation, where it may go on; else nothing changes, and the answer says why.
    pub fn take(&mut self, op: u32) -> Step
        ensures step { result ≡ answer_of self.old op }
        ensures after { self.new ≡ (if is_stepped result then taken self.old op else self.old) }
    {
        let step = self.answer(op);
        if step == Step::Stepped {
            self.advance(op);
        }
        step
    }

    /// No unit is done. The events are pairs of operations, the earlier one first; none may go on before those that lead to it are
    /// finished.
    pub fn new(alloc: Global, units: &[u32], events: &[(u32, u32)]) -> Result<Tracker, NoMemory>
        requires small { length units.now < 4294967296 }
        requires few { length events.now < 4294967296 }
        requires ascend { All (λ (e : ℕ × ℕ). (e.0 < e.1) × (e.1 < length units.now)) events.now }
        ensures { IfOk result (λ t. t ≡ opening_of units.now events.now) }
    {
        let counts = Counts {
            units: Vec::from_slice(alloc, units)?,
            done: vec![in alloc; 0u32; units.len()]?,
        };
        let rows = rows_of(alloc, units.len() as u32, events)?;
        let waiting = waiting_for(alloc, &counts, events)?;
        let enabled = enabled_flags(alloc, &counts, waiting.as_slice())?;
        let first = first_with_left(&counts, 0);
        Ok(Tracker {
            counts,
            rows,
            waiting,
            enabled,
            first,
        })
    }
}
