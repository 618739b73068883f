//! `rotate`: a loop that begins elsewhere at each value of loops around it.

ghost use Rattle.std.specs.Prelude.{◌≡◌, All, IfOk, length, map};
ghost use Rattle.dt_text.specs.Spans.{IsToken, token_in};
ghost use Rattle.dt_model.specs.Steps.{Gives};
ghost use Rattle.dt_schedule.specs.Rotates.{rotate_names, rotate_of};
ghost use Rattle.dt_schedule.specs.Commands.{rule_of};

use crate::commands::Command;
use crate::loop_names::{loop_named, loops_named, read_names};
use dt_base::Name;
use dt_model::{Cause, LineEnd};
use dt_nest::Sched;
use dt_rewrite::Rotate;
use dt_text::Token;
use std::alloc::Global;

/// The first of these names is a loop, which the others but the last rotate; the last is the new loop.
#[tactic(auto, unfolding(crate::specs::Rotates::rotate_names))]
fn rotate_names(alloc: Global, sched: &Sched, names: &[Name]) -> Result<Command, LineEnd>
    ensures read { Gives (λ c. c) result (rotate_names sched.now names.now) }
    ensures known { IfOk result (λ c. (rule_of c).can sched.now) }
{
    match names {
        [] => Err(LineEnd::Refused(Cause::Syntax)),
        [t, behind @ ..] => {
            if behind.len() < 2 {
                return Err(LineEnd::Refused(Cause::Syntax));
            }
            let last = behind.len() - 1;
            let var = loop_named(sched, t.as_slice())?;
            let by = loops_named(alloc, sched, &behind[..last])?;
            let fresh = behind[last].copied();
            Ok(Command::Rotate(Rotate { var, by, fresh }))
        }
    }
}

/// `rotate t` with one or more loops, then the new loop
#[tactic(auto, unfolding(crate::specs::Rotates::rotate_of))]
pub fn read_rotate(
    alloc: Global,
    text: &[u8],
    tokens: &[Token],
    sched: &Sched,
) -> Result<Command, LineEnd>
    requires { All (IsToken (length text.now)) tokens.now }
    ensures read { Gives (λ c. c) result (rotate_of sched.now (map (token_in text.now) tokens.now)) }
    ensures known { IfOk result (λ c. (rule_of c).can sched.now) }
{
    let names = read_names(alloc, text, tokens)?;
    rotate_names(alloc, sched, names.as_slice())
}
