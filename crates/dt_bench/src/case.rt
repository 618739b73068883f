//! The cases, and what each computes.

ghost use Rattle.std.specs.Prelude.{◌≤◌, ◌<◌};

use dt_base::NoMemory;
use dt_runs::Runs;
use std::alloc::Global;

/// The most intervals in a set.
pub const LARGEST: u32 = 1_000_000;

/// How often a call that does not go through the intervals is made.
const TIMES: u32 = 1000;

/// What is done once two sets are built.
#[derive(Clone, Copy)]
pub enum Case {
    Build,
    Meet,
    Minus,
    Union,
    Touches,
    Count,
    At,
    Rank,
}

impl Case {
    pub(crate) fn from_word(word: &str) -> Option<Case> {
        match word {
            "build" => Some(Case::Build),
            "meet" => Some(Case::Meet),
            "minus" => Some(Case::Minus),
            "union" => Some(Case::Union),
            "touches" => Some(Case::Touches),
            "count" => Some(Case::Count),
            "at" => Some(Case::At),
            "rank" => Some(Case::Rank),
            _ => None,
        }
    }
}

/// The answer of a case on sets of so many intervals. The first has 0 and 1 of each 5 numbers, the second 1 and 2,
/// and the third 3 alone.
pub(crate) fn answer(alloc: Global, case: Case, size: u32) -> Result<u32, NoMemory>
    requires { size ≤ LARGEST }
{
    let first = Runs::of_box(alloc, &[size, 5], &[0, 0], &[size, 2])?;
    let second = Runs::of_box(alloc, &[size, 5], &[0, 1], &[size, 3])?;
    let third = Runs::of_box(alloc, &[size, 5], &[0, 3], &[size, 4])?;
    match case {
        Case::Build => Ok(first.count() ^ second.count() ^ third.count()),
        Case::Meet => Ok(first.meet(alloc, &second)?.count()),
        Case::Minus => Ok(first.minus(alloc, &second)?.count()),
        Case::Union => Ok(first.union(alloc, &second)?.count()),
        Case::Touches => Ok(if first.touches(&third) { 1 } else { 0 }),
        Case::Count => Ok(counts(&first)),
        Case::At => Ok(numbers_at(&first, size)),
        Case::Rank => Ok(ranks(&first, size)),
    }
}

/// The count, asked for again and again.
fn counts(runs: &Runs) -> u32 {
    let mut mixed = 0;
    for k in 0..TIMES {
        mixed ^= runs.count() ^ k;
    }
    mixed
}

/// The numbers at places all over the set.
fn numbers_at(runs: &Runs, size: u32) -> u32
    requires { size ≤ LARGEST }
{
    let mut mixed = 0;
    for k in 0..TIMES {
        let place = k * (size / 500);
        mixed ^= runs.at(place).unwrap_or(0);
    }
    mixed
}

/// The places of numbers all over the set.
fn ranks(runs: &Runs, size: u32) -> u32
    requires { size ≤ LARGEST }
{
    let mut mixed = 0;
    for k in 0..TIMES {
        let number = k * (size / 200);
        mixed ^= runs.rank(number).unwrap_or(0);
    }
    mixed
}
