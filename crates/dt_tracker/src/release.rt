//! What changes where an operation finishes.

ghost use Rattle.std.specs.Prelude.{◌≡◌, ℕ, ◌+◌, ◌<◌, ◌≤◌, ◌&&◌, false, true, length, nat_eq, slice_index, slice_set};
ghost use Rattle.dt_tracker.specs.Tracks.{has_left};
ghost use Rattle.dt_tracker.specs.Waiting.{AreReady, CanRelease, IsFirst, fewer};

use dt_flags::Flags;

/// How many units each operation has, and how many of them are done.
#[derive(Drop)]
pub(crate) struct Counts {
    pub(crate) units: Vec<u32>,
    pub(crate) done: Vec<u32>,
}

impl Counts {
    /// Whether an operation has a unit left.
    pub(crate) fn has_left(&self, op: u32) -> bool
        requires units { op < length self.now.units.items }
        requires done { op < length self.now.done.items }
        ensures { result ≡ has_left self.now.units.items self.now.done.items op }
    {
        self.done[op as usize] < self.units[op as usize]
    }
}

/// One more unit of an operation is done.
pub(crate) fn count_unit(counts: &mut Counts, op: u32)
    requires units { op < length counts.old.units.items }
    requires done { op < length counts.old.done.items }
    requires left { has_left counts.old.units.items counts.old.done.items op ≡ true }
    ensures units { counts.new.units.items ≡ counts.old.units.items }
    ensures done { counts.new.done.items ≡ slice_set counts.old.done.items op (slice_index counts.old.done.items op + 1) }
{
    let done = counts.done[op as usize];
    if done < counts.units[op as usize] {
        counts.done[op as usize] = done + 1;
    }
}

/// The first operation with a unit left, from one on before which none has one; the count of all where none has one.
pub(crate) fn first_with_left(counts: &Counts, from: u32) -> u32
    requires done { length counts.now.done.items ≡ length counts.now.units.items }
    requires few { length counts.now.units.items < 4294967296 }
    requires from { from ≤ length counts.now.units.items }
    requires before { (a : ℕ) → a < from → has_left counts.now.units.items counts.now.done.items a ≡ false }
    ensures { IsFirst counts.now.units.items counts.now.done.items result }
{
    let count = counts.units.len() as u32;
    for op in from..count {
        if counts.has_left(op) {
            return op;
        }
    }
    count
}

/// Sets or clears a flag.
pub(crate) fn put_flag(flags: &mut Flags, place: u32, flag: bool)
    requires { place < length flags.old }
    ensures { flags.new ≡ slice_set flags.old place flag }
{
    if flag {
        flags.set(place);
    } else {
        flags.clear(place);
    }
}

/// Whether an operation may go on, by whether it has a unit left and for how many events it waits.
pub(crate) fn is_ready(has_left: bool, waiting: u32) -> bool
    ensures { result ≡ (has_left && nat_eq waiting 0) }
{
    has_left && waiting == 0
}

/// Each operation of a row waits for one less. Those that wait for none now and have a unit left are enabled.
pub(crate) fn release(counts: &Counts, row: &[u32], waiting: &mut Vec<u32>, flags: &mut Flags)
    requires units { length counts.now.units.items ≡ length waiting.old.items }
    requires done { length counts.now.done.items ≡ length waiting.old.items }
    requires flags { length flags.old ≡ length waiting.old.items }
    requires can { CanRelease row.now waiting.old.items }
    requires ready { AreReady counts.now.units.items counts.now.done.items waiting.old.items flags.old }
    ensures waiting { waiting.new.items ≡ fewer row.now waiting.old.items }
    ensures flags { length flags.new ≡ length flags.old }
    ensures ready { AreReady counts.now.units.items counts.now.done.items waiting.new.items flags.new }
{
    for i in 0..row.len() {
        let op = row[i];
        waiting[op as usize] -= 1;
        let ready = is_ready(counts.has_left(op), waiting[op as usize]);
        put_flag(flags, op, ready);
    }
}
