//! The entries of `order steps`.

ghost use Rattle.std.specs.Prelude.{◌≡◌, ◌≤◌, length, true};
ghost use Rattle.std.specs.List.{list_any, position_or_len};
ghost use Rattle.dt_order.specs.Orders.{asks_units, entry_of, first_number, first_part, has_numbers, is_counted, is_entry, is_parting, is_small, passes, second_number, second_part};

use crate::orders::Entry;
use dt_text::{is_numeral, number};

/// What each entry has to pass, in the order of the tests.
#[derive(Clone, Copy, Debug)]
pub enum Test {
    /// It is `K`, `K*C` or `A-B`.
    IsEntry,
    /// Both numbers are below 2^64.
    HasNumbers,
    /// Its count is not 0, its range doesn't fall.
    AsksUnits,
    /// Both numbers are below 2^32.
    IsSmall,
}

impl Test {
    pub fn passes(self, word: &[u8]) -> bool
        ensures { result ≡ passes self word.now }
    {
        match self {
            Test::IsEntry => is_entry(word),
            Test::HasNumbers => has_numbers(word),
            Test::AsksUnits => asks_units(word),
            Test::IsSmall => is_small(word),
        }
    }
}

/// How many bytes stand before the byte that parts the entry, all of them where there is none.
fn first_len(word: &[u8]) -> usize
    ensures place { result ≡ position_or_len is_parting word.now }
    ensures within { result ≤ length word.now }
{
    word.iter()
        .take_while(|b| **b != b'*' && **b != b'-')
        .count()
}

fn first_part(word: &[u8]) -> &[u8]
    ensures { result.now ≡ first_part word.now }
{
    &word[..first_len(word)]
}

/// What stands behind the byte that parts the entry, all of it where there is none.
fn second_part(word: &[u8]) -> &[u8]
    ensures { result.now ≡ second_part word.now }
{
    let len = first_len(word);
    if len < word.len() {
        &word[len + 1..]
    } else {
        word
    }
}

fn is_counted(word: &[u8]) -> bool
    ensures { result ≡ is_counted word.now }
{
    word.contains(&b'*')
}

/// Whether the word is `K`, `K*C` or `A-B`.
fn is_entry(word: &[u8]) -> bool
    ensures { result ≡ is_entry word.now }
{
    is_numeral(first_part(word)) && is_numeral(second_part(word))
}

/// Whether both numbers are below 2^64.
fn has_numbers(word: &[u8]) -> bool
    ensures { result ≡ has_numbers word.now }
{
    number(first_part(word)).is_some() && number(second_part(word)).is_some()
}

fn first_number(word: &[u8]) -> u64
    ensures { result ≡ first_number word.now }
{
    number(first_part(word)).unwrap_or(0)
}

fn second_number(word: &[u8]) -> u64
    ensures { result ≡ second_number word.now }
{
    number(second_part(word)).unwrap_or(0)
}

/// Whether the entry asks for a unit: its count is not 0, its range doesn't fall.
fn asks_units(word: &[u8]) -> bool
    ensures { result ≡ asks_units word.now }
{
    if is_counted(word) {
        0 < second_number(word)
    } else {
        first_number(word) <= second_number(word)
    }
}

/// Whether both numbers are below 2^32.
fn is_small(word: &[u8]) -> bool
    ensures { result ≡ is_small word.now }
{
    first_number(word) <= u64::from(u32::MAX) && second_number(word) <= u64::from(u32::MAX)
}

/// The entry that the word is.
pub fn entry_of(word: &[u8]) -> Entry
    requires { is_small word.now ≡ true }
    ensures { result ≡ entry_of word.now }
{
    let first = first_number(word) as u32;
    let second = second_number(word) as u32;
    if is_counted(word) {
        Entry::Count(first, second)
    } else {
        Entry::Range(first, second)
    }
}
