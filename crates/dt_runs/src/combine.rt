//! Two sets side by side: a sweep over the ends of their intervals.

ghost use Rattle.dt_runs.specs.Combination.{keeps_of, is_begun, change_after, past_of};
ghost use Rattle.dt_runs.specs.Intervals.{numbers_of, IsApart};
ghost use Rattle.dt_runs.specs.Sets.{contains};
ghost use Rattle.std.specs.List.{list_any};
ghost use Rattle.std.specs.List.Sorted.{IsStrictlyIncreasing};
ghost use Rattle.std.specs.Prelude.{◌≡◌, ℕ, IfOk};

use crate::interval::Interval;
use crate::runs::Runs;
use dt_base::NoMemory;
use std::alloc::Global;

/// Which numbers of two sets are kept.
#[derive(Clone, Copy)]
pub(crate) enum Combination {
    Both,
    OnlyLeft,
    Either,
}

impl Combination {
    fn keeps(self, in_left: bool, in_right: bool) -> bool
        ensures { result ≡ keeps_of self in_left in_right }
    {
        match self {
            Combination::Both => in_left && in_right,
            Combination::OnlyLeft => in_left && !in_right,
            Combination::Either => in_left || in_right,
        }
    }
}

/// The numbers that a combination keeps, from the intervals of both sides.
pub(crate) fn combined(
    alloc: Global,
    left: &[Interval],
    right: &[Interval],
    combination: Combination,
) -> Result<Runs, NoMemory>
    requires left { IsApart 0 left.now }
    requires right { IsApart 0 right.now }
    ensures ascending { IfOk result (λ runs. IsStrictlyIncreasing runs) }
    ensures members { IfOk result (λ runs. (x : ℕ) → contains runs x
        ≡ keeps_of combination (contains (numbers_of left.now) x) (contains (numbers_of right.now) x)) }
{
    let mut kept = Runs::empty(alloc);
    let mut left_rest = left;
    let mut right_rest = right;
    let mut at = 0;
    while !left_rest.is_empty() || !right_rest.is_empty() {
        let (in_left, left_end) = until_change(left_rest, at);
        let (in_right, right_end) = until_change(right_rest, at);
        let end = left_end.min(right_end);
        if combination.keeps(in_left, in_right) {
            kept.push_range(at, end)?;
        }
        left_rest = past(left_rest, end);
        right_rest = past(right_rest, end);
        at = end;
    }
    Ok(kept)
}

/// Whether some number is in intervals of both sides.
pub(crate) fn have_common(left: &[Interval], right: &[Interval]) -> bool
    requires left { IsApart 0 left.now }
    requires right { IsApart 0 right.now }
    ensures { result ≡ list_any (contains (numbers_of right.now)) (numbers_of left.now) }
{
    let mut left_rest = left;
    let mut right_rest = right;
    while !left_rest.is_empty() && !right_rest.is_empty() {
        let (left_first, right_first) = (left_rest[0], right_rest[0]);
        if left_first.first < right_first.end && right_first.first < left_first.end {
            return true;
        }
        left_rest = past(left_rest, right_first.first);
        right_rest = past(right_rest, left_first.first);
    }
    false
}

/// Whether the number `at` is in the first of the intervals, which ends after it, and the number at which this changes.
fn until_change(rest: &[Interval], at: u32) -> (bool, u32)
    ensures inside { result.0 ≡ is_begun rest.now at }
    ensures end { result.1 ≡ change_after rest.now at }
{
    if rest.is_empty() {
        return (false, u32::MAX);
    }
    let interval = rest[0];
    if interval.first <= at {
        (true, interval.end)
    } else {
        (false, interval.first)
    }
}

/// The intervals without the first, if that ends at or before `at`.
fn past(rest: &[Interval], at: u32) -> &[Interval]
    ensures { result.now ≡ past_of rest.now at }
{
    if !rest.is_empty() && rest[0].end <= at {
        return &rest[1..];
    }
    rest
}
