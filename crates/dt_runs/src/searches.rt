//! Searches among intervals.

ghost use Rattle.dt_runs.specs.Intervals.{numbers_of, IsApart, IsTallied};
ghost use Rattle.dt_runs.specs.declared.interval.Interval.{Interval};
ghost use Rattle.std.specs.List.Sorted.{IsPartitionPoint};
ghost use Rattle.std.specs.Prelude.{IfSome, None, Some, get_or, ◌≡◌, ◌<◌, ◌≤◌, ◌==◌, length, position};

use crate::interval::Interval;

/// How many of the intervals begin at or before `x`.
pub(crate) fn begun_by(intervals: &[Interval], x: u32) -> usize
    requires { IsApart 0 intervals.now }
    ensures bound { result ≤ length intervals.now }
    ensures point { IsPartitionPoint (λ i. i.first ≤ x) (λ i. x < i.first) intervals.now result }
{
    intervals.partition_point(|interval| interval.first <= x)
}

/// How many of the intervals have at most `k` numbers before them.
pub(crate) fn tallied_by(intervals: &[Interval], k: u32) -> usize
    requires { IsTallied 0 intervals.now }
    ensures bound { result ≤ length intervals.now }
    ensures point { IsPartitionPoint (λ i. i.before ≤ k) (λ i. k < i.before) intervals.now result }
{
    intervals.partition_point(|interval| interval.before <= k)
}

/// The place of `x` in the whole set, if the interval with the number `k` has it.
pub(crate) fn rank_in(intervals: &[Interval], k: usize, x: u32) -> Option<u32>
    requires apart { IsApart 0 intervals.now }
    requires tallied { IsTallied 0 intervals.now }
    ensures some { IfSome result (λ place. position (λ y. y == x) (numbers_of intervals.now) ≡ Some place) }
    ensures none { (d : Interval) → result ≡ None → k < length intervals.now → (get_or intervals.now k d).first ≤ x
        → (get_or intervals.now k d).end ≤ x }
{
    if k >= intervals.len() {
        return None;
    }
    let interval = intervals[k];
    if x < interval.first || x >= interval.end {
        return None;
    }
    Some(interval.before + (x - interval.first))
}
