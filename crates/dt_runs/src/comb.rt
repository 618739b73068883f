//! Sets with equal intervals at equal distances.

ghost use Rattle.dt_runs.specs.Combs.{IsComb};
ghost use Rattle.dt_runs.specs.Intervals.{numbers_of, IsApart, IsTallied};
ghost use Rattle.dt_runs.specs.declared.comb.Comb.{Comb};
ghost use Rattle.std.specs.Prelude.{IfSome, None, ◌≡◌, []};

use crate::interval::Interval;

/// Equal intervals at equal distances, as a block of a matrix has them: `len` numbers from `low` on, as many from
/// `low + dist` on, and so on.
#[derive(Clone, Copy, Debug, PartialEq, Eq)]
pub struct Comb {
    pub low: u32,
    pub len: u32,
    pub dist: u32,
}

/// The comb whose teeth these intervals are, if all are as long and as far apart.
pub(crate) fn comb_of(intervals: &[Interval]) -> Option<Comb>
    requires apart { IsApart 0 intervals.now }
    requires tallied { IsTallied 0 intervals.now }
    ensures some { IfSome result (λ comb. IsComb comb (numbers_of intervals.now)) }
    ensures none { result ≡ None → (comb : Comb) → IsComb comb (numbers_of intervals.now) → numbers_of intervals.now ≡ [] }
{
    if intervals.is_empty() {
        return None;
    }
    let first = intervals[0];
    let len = first.end - first.first;
    let others = &intervals[1..];
    let dist = if others.is_empty() {
        len
    } else {
        others[0].first - first.first
    };
    let mut last = first.first;
    let mut rest = others;
    while !rest.is_empty() {
        let tooth = rest[0];
        if tooth.first - last != dist || tooth.end - tooth.first != len {
            return None;
        }
        last = tooth.first;
        rest = &rest[1..];
    }
    Some(Comb {
        low: first.first,
        len,
        dist,
    })
}
