//! The texts of words and paths.

ghost use Rattle.std.specs.Prelude.{◌≡◌, ◌-◌, ◌++◌, codes, map, OnOk};
ghost use Rattle.std.specs.List.{flat_map};
ghost use Rattle.dt_report.specs.PlanText.{interval_text, intervals_text, path_text, words_text};

use dt_base::{Bytes, NoMemory, Vars};
use dt_runs::{Interval, Runs};

/// Puts words at the end: their fewest intervals, joined by commas, and `-` where there are none.
pub fn put_words(out: &mut Bytes, words: &Runs) -> Result<(), NoMemory>
    ensures { OnOk result (out.new ≡ out.old ++ words_text words.now) }
{
    put_intervals(out, words.intervals())
}

fn put_intervals(out: &mut Bytes, intervals: &[Interval]) -> Result<(), NoMemory>
    ensures { OnOk result (out.new ≡ out.old ++ intervals_text (map (λ i. (i.first, i.end - 1)) intervals.now)) }
{
    match intervals.split_first() {
        None => out.append(b"-"),
        Some((first, rest)) => {
            put_interval(out, first)?;
            put_more_intervals(out, rest)
        }
    }
}

/// Puts intervals, a comma before each.
fn put_more_intervals(out: &mut Bytes, intervals: &[Interval]) -> Result<(), NoMemory>
    ensures { OnOk result (out.new ≡ out.old ++ flat_map (λ s. codes "," ++ interval_text s) (map (λ i. (i.first, i.end - 1)) intervals.now)) }
{
    for interval in intervals {
        out.append(b",")?;
        put_interval(out, interval)?;
    }
    Ok(())
}

fn put_interval(out: &mut Bytes, interval: &Interval) -> Result<(), NoMemory>
    ensures { OnOk result (out.new ≡ out.old ++ interval_text (interval.now.first, interval.now.end - 1)) }
{
    let last = interval.end.saturating_sub(1);
    out.append_number(interval.first)?;
    if interval.first == last {
        return Ok(());
    }
    out.append(b"-")?;
    out.append_number(last)
}

/// Puts a path at the end: its values joined by points, and `-` where there are none.
pub fn put_path(out: &mut Bytes, path: &Vars) -> Result<(), NoMemory>
    ensures { OnOk result (out.new ≡ out.old ++ path_text path.now) }
{
    let values = path.as_slice();
    if values.is_empty() {
        out.append(b"-")
    } else {
        out.append_joined(values, b'.')
    }
}
