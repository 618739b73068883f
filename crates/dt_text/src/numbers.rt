//! Numbers.

ghost use Rattle.std.specs.Prelude.{◌≡◌, ◌≤◌, All, IfOk, length, map, option_map};
ghost use Rattle.std.specs.List.{AllPass, list_all};
ghost use Rattle.dt_text.specs.Numbers.{all_numbers_of, number_of, digits_value, is_digit, is_numeral};
ghost use Rattle.dt_text.specs.Spans.{IsToken, token_in};

use crate::token_list::Token;
use crate::token_spans::word;
use dt_base::NoMemory;
use std::alloc::Global;

/// The value of 1 to 20 digits, where it is below 2^64. Zeros may lead.
pub fn number(text: &[u8]) -> Option<u64>
    ensures { result ≡ number_of text.now }
{
    if text.is_empty() || text.len() > 20 || !are_digits(text) {
        return None;
    }
    u64::try_from(value(text)).ok()
}

/// The numbers of tokens, none where one of them has no value below 2^64.
pub fn all_numbers(
    alloc: Global,
    text: &[u8],
    tokens: &[Token],
) -> Result<Option<Vec<u64>>, NoMemory>
    requires { All (IsToken (length text.now)) tokens.now }
    ensures { IfOk result (λ o. option_map (λ v. v.items) o ≡ all_numbers_of (map (token_in text.now) tokens.now)) }
{
    let mut numbers = Vec::new(alloc);
    for token in tokens {
        match number(word(text, *token)) {
            None => return Ok(None),
            Some(n) => numbers.push(n)?,
        }
    }
    Ok(Some(numbers))
}

fn value(digits: &[u8]) -> u128
    requires few { length digits.now ≤ 20 }
    requires digits { AllPass is_digit digits.now }
    ensures { result ≡ digits_value digits.now }
{
    let mut value = 0u128;
    for digit in digits {
        value = value * 10 + u128::from(digit - b'0');
    }
    value
}

/// Whether a word is one or more digits, of any value.
pub fn is_numeral(word: &[u8]) -> bool
    ensures { result ≡ is_numeral word.now }
{
    !word.is_empty() && are_digits(word)
}

/// Whether each token is digits.
pub fn are_all_numerals(text: &[u8], tokens: &[Token]) -> bool
    requires { All (IsToken (length text.now)) tokens.now }
    ensures { result ≡ list_all is_numeral (map (token_in text.now) tokens.now) }
{
    for token in tokens {
        if !is_numeral(word(text, *token)) {
            return false;
        }
    }
    true
}

fn are_digits(text: &[u8]) -> bool
    ensures { result ≡ list_all is_digit text.now }
{
    text.iter().all(|b| is_digit(*b))
}

pub(crate) fn is_digit(byte: u8) -> bool
    ensures { result ≡ is_digit byte }
{
    matches!(byte, b'0'..=b'9')
}
