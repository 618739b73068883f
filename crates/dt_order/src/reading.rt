//! An `order` line.

ghost use Rattle.std.specs.Prelude.{◌≡◌, ◌<◌, ◌-◌, ◌^◌, All, IfOk, length, map, true};
ghost use Rattle.std.specs.List.{list_all};
ghost use Rattle.dt_text.specs.Spans.{IsToken, token_in};
ghost use Rattle.dt_text.specs.Tokens.{tokens_of};
ghost use Rattle.dt_model.specs.Steps.{Gives};
ghost use Rattle.dt_order.specs.Orders.{entry_of, is_small, listing_of, order_of, passes, seed_of, steps_of};

use crate::entries::{Test, entry_of};
use crate::orders::{Entry, EntryList, Order};
use dt_base::NoMemory;
use dt_model::{Cause, LineEnd, found, need};
use dt_text::{Token, is_numeral, number, word, words};
use std::alloc::Global;

/// The order that a line states, from what stands behind its first word: `listing`, `seed N`, or `steps` with entries `K`, `K*C`
/// or `A-B`. Syntax where the words have not this form; BadNumber where a number reaches 2^64; then, for steps, Syntax where a
/// count is 0 or a range falls, and BadNumber where a number reaches 2^32. Each test goes over the whole line.
#[tactic(auto, unfolding(crate::specs::Orders::order_of))]
pub fn parse_order(alloc: Global, text: &[u8]) -> Result<Order, LineEnd>
    requires { length text.now < 2 ^ 32 - 1 }
    ensures { Gives (λ o. o) result (order_of (tokens_of text.now)) }
{
    let tokens = words(alloc, text)?;
    read_order(alloc, text, tokens.as_slice())
}

#[tactic(auto, unfolding(crate::specs::Orders::order_of))]
fn read_order(alloc: Global, text: &[u8], tokens: &[Token]) -> Result<Order, LineEnd>
    requires { All (IsToken (length text.now)) tokens.now }
    ensures { Gives (λ o. o) result (order_of (map (token_in text.now) tokens.now)) }
{
    match tokens {
        [] => Err(LineEnd::Refused(Cause::Syntax)),
        [kind, rest @ ..] => {
            let kind = word(text, *kind);
            if kind == b"listing".as_slice() {
                read_listing(text, rest)
            } else if kind == b"seed".as_slice() {
                read_seed(text, rest)
            } else if kind == b"steps".as_slice() {
                read_steps(alloc, text, rest)
            } else {
                Err(LineEnd::Refused(Cause::Syntax))
            }
        }
    }
}

fn read_listing(text: &[u8], tokens: &[Token]) -> Result<Order, LineEnd>
    ensures { Gives (λ o. o) result (listing_of (map (token_in text.now) tokens.now)) }
{
    match tokens {
        [] => Ok(Order::Listing),
        _ => Err(LineEnd::Refused(Cause::Syntax)),
    }
}

/// `seed N`
#[tactic(auto, unfolding(crate::specs::Orders::seed_of))]
fn read_seed(text: &[u8], tokens: &[Token]) -> Result<Order, LineEnd>
    requires { All (IsToken (length text.now)) tokens.now }
    ensures { Gives (λ o. o) result (seed_of (map (token_in text.now) tokens.now)) }
{
    match tokens {
        [seed] => {
            let seed = word(text, *seed);
            need(is_numeral(seed), Cause::Syntax)?;
            let seed = found(number(seed), Cause::BadNumber)?;
            Ok(Order::Seed(seed))
        }
        _ => Err(LineEnd::Refused(Cause::Syntax)),
    }
}

/// `steps E E ..`
#[tactic(auto, unfolding(crate::specs::Orders::steps_of))]
fn read_steps(alloc: Global, text: &[u8], tokens: &[Token]) -> Result<Order, LineEnd>
    requires { All (IsToken (length text.now)) tokens.now }
    ensures { Gives (λ o. o) result (steps_of (map (token_in text.now) tokens.now)) }
{
    let are_entries = !tokens.is_empty() && all_pass(text, tokens, Test::IsEntry);
    need(are_entries, Cause::Syntax)?;
    need(all_pass(text, tokens, Test::HasNumbers), Cause::BadNumber)?;
    need(all_pass(text, tokens, Test::AsksUnits), Cause::Syntax)?;
    need(all_pass(text, tokens, Test::IsSmall), Cause::BadNumber)?;
    let items = entries(alloc, text, tokens)?;
    Ok(Order::Steps(EntryList { items }))
}

/// Whether every word passes the test.
fn all_pass(text: &[u8], tokens: &[Token], test: Test) -> bool
    requires { All (IsToken (length text.now)) tokens.now }
    ensures { result ≡ list_all (passes test) (map (token_in text.now) tokens.now) }
{
    for token in tokens {
        if !test.passes(word(text, *token)) {
            return false;
        }
    }
    true
}

/// The entries, in order.
fn entries(alloc: Global, text: &[u8], tokens: &[Token]) -> Result<Vec<Entry>, NoMemory>
    requires tokens { All (IsToken (length text.now)) tokens.now }
    requires small { list_all is_small (map (token_in text.now) tokens.now) ≡ true }
    ensures { IfOk result (λ v. v.items ≡ map entry_of (map (token_in text.now) tokens.now)) }
{
    let mut items = Vec::new(alloc);
    for token in tokens {
        items.push(entry_of(word(text, *token)))?;
    }
    Ok(items)
}
