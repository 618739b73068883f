//! The first operation that holds another back.

ghost use Rattle.std.specs.Prelude.{◌≡◌, ◌<◌, ◌&&◌, length, nat_eq};
ghost use Rattle.std.specs.List.{find, list_any};
ghost use Rattle.dt_base.specs.Ranges.{below};
ghost use Rattle.dt_tracker.specs.Tracks.{follows, has_left};

use crate::release::Counts;
use dt_base::Numbers;

/// Whether an operation is in a row.
fn is_in(row: &[u32], op: u32) -> bool
    ensures { result ≡ list_any (nat_eq op) row.now }
{
    row.contains(&op)
}

/// The first operation with a unit left from which an event leads to this one.
pub(crate) fn first_holding(counts: &Counts, rows: &[Numbers], op: u32) -> Option<u32>
    requires units { length counts.now.units.items ≡ length rows.now }
    requires done { length counts.now.done.items ≡ length rows.now }
    requires few { length rows.now < 4294967296 }
    ensures { result ≡ find (λ a. has_left counts.now.units.items counts.now.done.items a && follows rows.now a op) (below (length rows.now)) }
{
    for a in 0..rows.len() {
        if counts.has_left(a as u32) && is_in(rows[a].as_slice(), op) {
            return Some(a as u32);
        }
    }
    None
}
