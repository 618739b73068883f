//! The operations that follow each operation.

ghost use Rattle.std.specs.Prelude.{◌≡◌, ◌<◌, ℕ, [], IfOk, length, map, slice_index, slice_index_or};
ghost use Rattle.std.specs.List.{All};
ghost use Rattle.dt_base.specs.Ranges.{below};
ghost use Rattle.dt_tracker.specs.Tracks.{followers_in};
ghost use Rattle.dt_tracker.specs.Waiting.{AreReady, IsWaiting};

use crate::release::{Counts, is_ready, put_flag};
use dt_base::{NoMemory, Numbers};
use dt_flags::Flags;
use std::alloc::Global;

/// So many rows without operations.
fn empty_rows(alloc: Global, count: u32) -> Result<Vec<Numbers>, NoMemory>
    ensures { IfOk result (λ rows. rows.items ≡ map (followers_in []) (below count)) }
{
    let mut rows = Vec::new(alloc);
    for row in 0..count {
        rows.push(Numbers::new(alloc))?;
    }
    Ok(rows)
}

/// For each operation those that an event leads to, in the order of the events. More generally, for each number below `count` the
/// second numbers of the pairs that begin with it.
pub fn rows_of(alloc: Global, count: u32, events: &[(u32, u32)]) -> Result<Vec<Numbers>, NoMemory>
    requires { All (λ (e : ℕ × ℕ). e.0 < count) events.now }
    ensures { IfOk result (λ rows. rows.items ≡ map (followers_in events.now) (below count)) }
{
    let mut rows = empty_rows(alloc, count)?;
    for i in 0..events.len() {
        let (first, second) = events[i];
        rows[first as usize].items.push(second)?;
    }
    Ok(rows)
}

/// For each operation how many events lead to it from operations that have units.
pub(crate) fn waiting_for(
    alloc: Global,
    counts: &Counts,
    events: &[(u32, u32)],
) -> Result<Vec<u32>, NoMemory>
    requires done { length counts.now.done.items ≡ length counts.now.units.items }
    requires few { length events.now < 4294967296 }
    requires events { All (λ (e : ℕ × ℕ). (e.0 < length counts.now.units.items) × (e.1 < length counts.now.units.items)) events.now }
    ensures { IfOk result (λ v. IsWaiting counts.now.units.items counts.now.done.items events.now v.items) }
{
    let mut waiting = vec![in alloc; 0u32; counts.units.len()]?;
    for i in 0..events.len() {
        let (first, second) = events[i];
        waiting[second as usize] += u32::from(counts.has_left(first));
    }
    Ok(waiting)
}

/// A flag for each operation: it may go on.
pub(crate) fn enabled_flags(
    alloc: Global,
    counts: &Counts,
    waiting: &[u32],
) -> Result<Flags, NoMemory>
    requires units { length counts.now.units.items ≡ length waiting.now }
    requires done { length counts.now.done.items ≡ length waiting.now }
    requires few { length waiting.now < 4294967296 }
    ensures count { IfOk result (λ f. length f ≡ length waiting.now) }
    ensures ready { IfOk result (λ f. AreReady counts.now.units.items counts.now.done.items waiting.now f) }
{
    let mut flags = Flags::new(alloc, waiting.len() as u32)?;
    for op in 0..waiting.len() {
        let ready = is_ready(counts.has_left(op as u32), waiting[op]);
        put_flag(&mut flags, op as u32, ready);
    }
    Ok(flags)
}
