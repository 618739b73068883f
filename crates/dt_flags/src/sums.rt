//! Numbers with the sums of pairs, of pairs of pairs, and so on.

ghost use Rattle.std.specs.Prelude.{◌≡◌, ◌<◌, ◌≤◌, ◌+◌, ◌-◌, ◌*◌, ◌^◌, IfOk, length, replicate, slice_index, slice_set, sum, take};
ghost use Rattle.dt_flags.specs.Sums.{CanReplace, halved, replaced, replaced_in};

use dt_base::{NoMemory, Numbers};
use std::alloc::Global;
use std::marker::Model;

/// A place among numbers, and how far behind its begin.
#[derive(Clone, Copy)]
pub(crate) struct Spot {
    pub(crate) place: usize,
    pub(crate) behind: u32,
}

/// Numbers, any of which may change, and which know quickly up to where they add to an amount. Above them lie the sums of their
/// pairs, of the pairs of these, and so on, up to one number.
#[derive(Drop)]
pub struct Sums {
    levels: Vec<Numbers>,
}

impl Model for Sums {
    ghost use Rattle.std.specs.Prelude.{List, ℕ};
    ghost use Rattle.dt_flags.specs.Sums.{IsTree, lowest};

    ghost Value = { List ℕ };

    ghost view = { λ s. lowest s.levels.items };

    ghost invariant = { λ s. IsTree s.levels.items };
}

/// So many zeros.
fn zeros(alloc: Global, len: usize) -> Result<Numbers, NoMemory>
    ensures { IfOk result (λ l. l ≡ replicate len 0) }
{
    let items = vec![in alloc; 0u32; len]?;
    Ok(Numbers { items })
}

/// One of the numbers, and 0 behind the last.
fn number_at(numbers: &Numbers, place: usize) -> u32
    ensures { result ≡ slice_index numbers.now place }
{
    match numbers.items.get(place) {
        None => 0,
        Some(number) => *number,
    }
}

/// A number has another part in place of one.
fn replace_in(numbers: &mut Numbers, place: usize, old: u32, new: u32)
    requires place { place < length numbers.old }
    requires part { old ≤ slice_index numbers.old place }
    requires small { slice_index numbers.old place - old + new < 2 ^ 32 }
    ensures { numbers.new ≡ replaced_in numbers.old place old new }
{
    numbers.items[place] = numbers.items[place] - old + new;
}

/// On each level the number above a place has another part in place of one.
fn replace(levels: &mut Vec<Numbers>, place: usize, old: u32, new: u32)
    requires { CanReplace levels.old.items place old new }
    ensures { levels.new.items ≡ replaced levels.old.items place old new }
{
    let mut at = place;
    for level in 0..levels.len() {
        replace_in(&mut levels[level], at, old, new);
        at /= 2;
    }
}

/// From a place among the sums of pairs to the one of the two below it.
fn step_down(numbers: &Numbers, spot: Spot) -> Spot
    requires few { length numbers.now < 2 ^ 32 }
    requires within { spot.behind < slice_index (halved numbers.now) spot.place }
    ensures within { result.behind < slice_index numbers.now result.place }
    ensures kept { sum (take result.place numbers.now) + result.behind ≡ sum (take spot.place (halved numbers.now)) + spot.behind }
{
    let left = 2 * spot.place;
    let first = number_at(numbers, left);
    if spot.behind < first {
        Spot {
            place: left,
            behind: spot.behind,
        }
    } else {
        Spot {
            place: left + 1,
            behind: spot.behind - first,
        }
    }
}

impl Sums {
    /// So many numbers, each 0.
    pub fn zeros(alloc: Global, count: u32) -> Result<Sums, NoMemory>
        ensures { IfOk result (λ s. s ≡ replicate count 0) }
    {
        let mut levels = Vec::new(alloc);
        let mut len = count as usize;
        levels.push(zeros(alloc, len)?)?;
        while len > 1 {
            len -= len / 2;
            levels.push(zeros(alloc, len)?)?;
        }
        Ok(Sums { levels })
    }

    /// A number becomes another one.
    pub fn put(&mut self, place: u32, number: u32)
        requires exists { place < length self.old }
        requires fits { sum (slice_set self.old place number) < 2 ^ 32 }
        ensures { self.new ≡ slice_set self.old place number }
    {
        let old = number_at(&self.levels[0], place as usize);
        replace(&mut self.levels, place as usize, old, number);
    }

    /// The place up to which the numbers add to at most an amount, and with whose number they add to more.
    pub fn find(&self, amount: u32) -> u32
        requires { amount < sum self.now }
        ensures exists { result < length self.now }
        ensures before { sum (take result self.now) ≤ amount }
        ensures after { amount < sum (take result self.now) + slice_index self.now result }
    {
        let mut spot = Spot {
            place: 0,
            behind: amount,
        };
        let mut level = self.levels.len();
        while level > 0 {
            level -= 1;
            spot = step_down(&self.levels[level], spot);
        }
        spot.place as u32
    }
}
