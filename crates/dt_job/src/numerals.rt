//! Numbers that stand as words of a line.

ghost use Rattle.std.specs.Prelude.{◌≡◌, All, length, map};
ghost use Rattle.dt_text.specs.Numbers.{all_numbers_of};
ghost use Rattle.dt_text.specs.Spans.{IsToken, token_in};
ghost use Rattle.dt_model.specs.Steps.{Gives, found};
ghost use Rattle.dt_job.specs.Shapes.{are_numerals, numeral_of};

use dt_model::{Cause, LineEnd, found, need};
use dt_text::{Token, all_numbers, are_all_numerals, is_numeral, number};
use std::alloc::Global;

/// The number of a word: Syntax where it isn't digits, BadNumber where it has no value below 2^64.
#[tactic(auto, unfolding(crate::specs::Shapes::numeral_of))]
pub fn read_numeral(word: &[u8]) -> Result<u64, LineEnd>
    ensures { Gives (λ n. n) result (numeral_of word.now) }
{
    need(is_numeral(word), Cause::Syntax)?;
    found(number(word), Cause::BadNumber)
}

/// Whether there are words, each of digits.
pub fn are_numerals(text: &[u8], tokens: &[Token]) -> bool
    requires { All (IsToken (length text.now)) tokens.now }
    ensures { result ≡ are_numerals (map (token_in text.now) tokens.now) }
{
    !tokens.is_empty() && are_all_numerals(text, tokens)
}

/// The numbers of words that are digits: BadNumber where one has no value below 2^64.
pub fn read_numbers(alloc: Global, text: &[u8], words: &[Token]) -> Result<Vec<u64>, LineEnd>
    requires { All (IsToken (length text.now)) words.now }
    ensures { Gives (λ v. v.items) result (found (all_numbers_of (map (token_in text.now) words.now)) Cause.BadNumber) }
{
    found(all_numbers(alloc, text, words)?, Cause::BadNumber)
}
