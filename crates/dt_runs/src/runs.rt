//! A sorted set of numbers.

ghost use Rattle.dt_base.specs.Rows.{product};
ghost use Rattle.dt_runs.specs.Boxes.{AreCorners, box_numbers};
ghost use Rattle.dt_runs.specs.Combs.{IsComb};
ghost use Rattle.dt_runs.specs.Intervals.{range, numbers_of, IsApart, IsTallied, EndsBy};
ghost use Rattle.dt_runs.specs.Sets.{contains};
ghost use Rattle.dt_runs.specs.Stretches.{stretches_of};
ghost use Rattle.dt_runs.specs.declared.comb.Comb.{Comb};
ghost use Rattle.std.specs.List.{list_any};
ghost use Rattle.std.specs.List.Sorted.{IsStrictlyIncreasing};
ghost use Rattle.std.specs.Option.{option_map};
ghost use Rattle.std.specs.Prelude.{IfSome, None, map, false, ◌-◌, ◌^◌, ◌↔◌, IsTrue, ◌≡◌, ℕ, not, ◌||◌, filter, ◌+◌, ◌<◌, ◌≤◌, ◌==◌, ◌++◌, [], length, All, IfOk, OnOk, OnErr, slice_get, position};

use crate::boxes::{is_empty_box, push_box};
use crate::comb::{Comb, comb_of};
use crate::combine::{Combination, combined, have_common};
use crate::interval::Interval;
use crate::searches::{begun_by, rank_in, tallied_by};
use dt_base::NoMemory;
use std::alloc::Global;
use std::marker::Model;

/// A set of numbers below 2^32 - 1, each at most once and in order. It is kept as the fewest intervals that have
/// these numbers, so equal sets have equal intervals.
#[derive(Debug, Drop)]
pub struct Runs {
    intervals: Vec<Interval>,
    count: u32,
}

impl Model for Runs {
    ghost use Rattle.std.specs.Prelude.{◌≡◌, List, ℕ, length};
    ghost use Rattle.dt_runs.specs.Intervals.{numbers_of, IsApart, IsTallied, EndsBy};

    ghost Value = { List ℕ };

    ghost view = { λ r. numbers_of r.intervals.items };

    ghost invariant = { λ r. IsApart 0 r.intervals.items × IsTallied 0 r.intervals.items × EndsBy 4294967295 r.intervals.items
        × (r.count ≡ length (numbers_of r.intervals.items)) };
}

impl Runs {
    /// The set with no number.
    pub fn empty(alloc: Global) -> Runs
        ensures { result ≡ [] }
    {
        Runs {
            intervals: Vec::new(alloc),
            count: 0,
        }
    }

    /// The set of these numbers, in time linear in them.
    pub fn from_sorted(alloc: Global, list: &[u32]) -> Result<Runs, NoMemory>
        requires ascending { IsStrictlyIncreasing list.now }
        requires small { All (λ x. x < 4294967295) list.now }
        ensures { IfOk result (λ runs. runs ≡ list.now) }
    {
        let mut runs = Runs::empty(alloc);
        for x in list {
            runs.push_range(*x, *x + 1)?;
        }
        Ok(runs)
    }

    /// The row-major numbers of a box: of the indices with each coordinate from `lo` up to, not including, `hi`.
    /// It makes an interval for each row of the box, and fewer where rows join.
    pub fn of_box(alloc: Global, extents: &[u32], lo: &[u32], hi: &[u32]) -> Result<Runs, NoMemory>
        requires corners { AreCorners extents.now lo.now hi.now }
        requires small { product extents.now < 2 ^ 32 }
        ensures { IfOk result (λ runs. runs ≡ box_numbers extents.now lo.now hi.now) }
    {
        let mut runs = Runs::empty(alloc);
        if is_empty_box(lo, hi) {
            return Ok(runs);
        }
        push_box(&mut runs, extents, lo, hi, 0)?;
        Ok(runs)
    }

    /// The fewest intervals that have these numbers.
    pub fn intervals(&self) -> &[Interval]
        ensures numbers { numbers_of result.now ≡ self.now }
        ensures apart { IsApart 0 result.now }
        ensures tallied { IsTallied 0 result.now }
        ensures small { EndsBy 4294967295 result.now }
        ensures stretches { map (λ i. (i.first, i.end - 1)) result.now ≡ stretches_of self.now }
        ensures ascending { IsStrictlyIncreasing self.now }
        ensures below { All (λ x. x < 4294967295) self.now }
    {
        self.intervals.as_slice()
    }

    /// How many numbers there are, in constant time.
    pub fn count(&self) -> u32
        ensures { result ≡ length self.now }
    {
        self.count
    }

    /// The number at a place, counted from 0, in time logarithmic in the intervals.
    pub fn at(&self, k: u32) -> Option<u32>
        ensures { result ≡ slice_get self.now k }
    {
        if k >= self.count() {
            return None;
        }
        let intervals = self.intervals();
        let interval = intervals[tallied_by(intervals, k) - 1];
        Some(interval.first + (k - interval.before))
    }

    /// The place of a number, counted from 0, in time logarithmic in the intervals.
    pub fn rank(&self, x: u32) -> Option<u32>
        ensures { result ≡ position (λ y. y == x) self.now }
    {
        let intervals = self.intervals();
        let begun = begun_by(intervals, x);
        if begun == 0 {
            return None;
        }
        rank_in(intervals, begun - 1, x)
    }

    /// As `rank`, at once where the interval with the number `near` has `x`, or the next one. The number of the
    /// interval that has `x` is left in `near`; any number may stand there before.
    pub fn rank_near(&self, x: u32, near: &mut u32) -> Option<u32>
        ensures { result ≡ position (λ y. y == x) self.now }
    {
        let intervals = self.intervals();
        let guess = *near;
        if let Some(place) = rank_in(intervals, guess as usize, x) {
            return Some(place);
        }
        let next = guess.saturating_add(1);
        if let Some(place) = rank_in(intervals, next as usize, x) {
            *near = next;
            return Some(place);
        }
        let begun = begun_by(intervals, x);
        if begun == 0 {
            return None;
        }
        let place = rank_in(intervals, begun - 1, x)?;
        *near = (begun - 1) as u32;
        Some(place)
    }

    /// How many numbers from `x` on follow each other in the set, `x` among them; none where it is not in the set.
    pub fn stretch(&self, x: u32) -> u32
        ensures places { (k : ℕ) → k < result → position (λ y. y == x + k) self.now
            ≡ option_map (λ place. place + k) (position (λ y. y == x) self.now) }
        ensures inside { (k : ℕ) → k < result → IsTrue (contains self.now (x + k)) }
        ensures end { contains self.now (x + result) ≡ false }
    {
        let intervals = self.intervals();
        let begun = begun_by(intervals, x);
        if begun == 0 {
            return 0;
        }
        let end = intervals[begun - 1].end;
        if x >= end {
            return 0;
        }
        end - x
    }

    /// The set as a comb, if all intervals are as long and as far apart. One interval is a comb; the empty set gets none.
    pub fn comb(&self) -> Option<Comb>
        ensures some { IfSome result (λ comb. IsComb comb self.now) }
        ensures none { result ≡ None → (comb : Comb) → IsComb comb self.now → self.now ≡ [] }
    {
        comb_of(self.intervals())
    }

    /// The same set once more.
    pub fn copied(&self, alloc: Global) -> Result<Runs, NoMemory>
        ensures { IfOk result (λ runs. runs ≡ self.now) }
    {
        let intervals = Vec::from_slice(alloc, self.intervals.as_slice())?;
        Ok(Runs {
            intervals,
            count: self.count,
        })
    }

    /// The numbers that both have, in time linear in the intervals of both.
    pub fn meet(&self, alloc: Global, other: &Runs) -> Result<Runs, NoMemory>
        ensures { IfOk result (λ runs. runs ≡ filter (contains other.now) self.now) }
    {
        let runs = combined(
            alloc,
            self.intervals(),
            other.intervals(),
            Combination::Both,
        )?;
        Ok(runs)
    }

    /// The numbers without those of the other, in time linear in the intervals of both.
    pub fn minus(&self, alloc: Global, other: &Runs) -> Result<Runs, NoMemory>
        ensures { IfOk result (λ runs. runs ≡ filter (λ x. not (contains other.now x)) self.now) }
    {
        let runs = combined(
            alloc,
            self.intervals(),
            other.intervals(),
            Combination::OnlyLeft,
        )?;
        Ok(runs)
    }

    /// The numbers that either has, in time linear in the intervals of both.
    pub fn union(&self, alloc: Global, other: &Runs) -> Result<Runs, NoMemory>
        ensures ascending { IfOk result (λ runs. IsStrictlyIncreasing runs) }
        ensures members { IfOk result (λ runs. (x : ℕ) → contains runs x ≡ (contains self.now x || contains other.now x)) }
    {
        let runs = combined(
            alloc,
            self.intervals(),
            other.intervals(),
            Combination::Either,
        )?;
        Ok(runs)
    }

    /// Whether some number is in both, in time linear in the intervals of both.
    pub fn touches(&self, other: &Runs) -> bool
        ensures { result ≡ list_any (contains other.now) self.now }
    {
        have_common(self.intervals(), other.intervals())
    }

    /// Whether both have the same numbers.
    pub fn is_same(&self, other: &Runs) -> bool
        ensures { IsTrue result ↔ (self.now ≡ other.now) }
    {
        self.intervals() == other.intervals()
    }

    /// Puts the numbers from `first` up to, not including, `end` behind those that are there.
    pub(crate) fn push_range(&mut self, first: u32, end: u32) -> Result<(), NoMemory>
        requires filled { first < end }
        requires behind { All (λ x. x < first) self.old }
        ensures ok { OnOk result (self.new ≡ self.old ++ range first end) }
        ensures err { OnErr result (self.new ≡ self.old) }
    {
        push_interval(&mut self.intervals, first, end, self.count)?;
        self.count += end - first;
        Ok(())
    }
}

/// Puts an interval with so many numbers before it behind those that are there, or makes the last one longer.
fn push_interval(
    intervals: &mut Vec<Interval>,
    first: u32,
    end: u32,
    before: u32,
) -> Result<(), NoMemory>
    requires filled { first < end }
    requires behind { EndsBy first intervals.old.items }
    requires apart { IsApart 0 intervals.old.items }
    requires tallied { IsTallied 0 intervals.old.items }
    requires before { before ≡ length (numbers_of intervals.old.items) }
    ensures numbers { OnOk result (numbers_of intervals.new.items ≡ numbers_of intervals.old.items ++ range first end) }
    ensures apart { OnOk result (IsApart 0 intervals.new.items) }
    ensures tallied { OnOk result (IsTallied 0 intervals.new.items) }
    ensures ends { OnOk result (EndsBy end intervals.new.items) }
    ensures err { OnErr result (intervals.new.items ≡ intervals.old.items) }
{
    let length = intervals.len();
    if length > 0 && intervals[length - 1].end == first {
        intervals[length - 1].end = end;
        return Ok(());
    }
    intervals.push(Interval { first, end, before })?;
    Ok(())
}
