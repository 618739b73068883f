//! `machine` lines.

ghost use Rattle.std.specs.Prelude.{◌≡◌, ◌<◌, ◌-◌, ◌^◌, [], ◌∷◌, None, All, length, map};
ghost use Rattle.dt_text.specs.Spans.{IsToken, token_in};
ghost use Rattle.dt_text.specs.Tokens.{tokens_of};
ghost use Rattle.dt_model.specs.Steps.{Gives};
ghost use Rattle.dt_place.specs.MachineLine.{machine_line, machine_with};

use crate::machines::Machine;
use dt_model::{Cause, LineEnd, found, need};
use dt_text::{Token, all_numbers, are_all_numerals, parts_at, word, words};
use std::alloc::Global;

/// The machine of a line, from what stands behind its first word. BadDim where a dimension is 0, or there are more than
/// 6 dimensions or 64 nodes.
pub fn parse_machine(alloc: Global, text: &[u8]) -> Result<Machine, LineEnd>
    requires { length text.now < 2 ^ 32 - 1 }
    ensures { Gives (λ m. m) result (machine_line (tokens_of text.now)) }
{
    let tokens = words(alloc, text)?;
    read_machine(alloc, text, tokens.as_slice())
}

#[tactic(auto, unfolding(crate::specs::MachineLine::machine_line))]
fn read_machine(alloc: Global, text: &[u8], tokens: &[Token]) -> Result<Machine, LineEnd>
    requires fits { length text.now < 2 ^ 32 - 1 }
    requires tokens { All (IsToken (length text.now)) tokens.now }
    ensures { Gives (λ m. m) result (machine_line (map (token_in text.now) tokens.now)) }
{
    match tokens {
        [level] => {
            let level = word(text, *level);
            let parts = parts_at(alloc, level, b'x')?;
            need(are_all_numerals(level, parts.as_slice()), Cause::Syntax)?;
            let numbers = found(
                all_numbers(alloc, level, parts.as_slice())?,
                Cause::BadNumber,
            )?;
            Machine::of_level(alloc, numbers.as_slice())
        }
        _ => Err(LineEnd::Refused(Cause::Syntax)),
    }
}
