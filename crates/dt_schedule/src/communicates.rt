//! `communicate`: at which loop tensors are communicated.

ghost use Rattle.std.specs.Prelude.{◌≡◌, All, IfOk, length, map};
ghost use Rattle.dt_text.specs.Spans.{IsToken, token_in};
ghost use Rattle.dt_model.specs.Steps.{Gives};
ghost use Rattle.dt_schedule.specs.Communicates.{communicate_names, communicate_of};
ghost use Rattle.dt_schedule.specs.Commands.{rule_of};

use crate::commands::Command;
use crate::loop_names::{loop_named, read_names};
use crate::tensor_names::tensors_named;
use dt_base::Name;
use dt_model::{Cause, LineEnd};
use dt_nest::Sched;
use dt_rewrite::Communicate;
use dt_text::Token;
use std::alloc::Global;

/// The first of these names is a loop, at which the others, which are tensors, are moved.
#[tactic(auto, unfolding(crate::specs::Communicates::communicate_names))]
fn communicate_names(alloc: Global, sched: &Sched, names: &[Name]) -> Result<Command, LineEnd>
    ensures read { Gives (λ c. c) result (communicate_names sched.now names.now) }
    ensures known { IfOk result (λ c. (rule_of c).can sched.now) }
{
    match names {
        [] => Err(LineEnd::Refused(Cause::Syntax)),
        [v, behind @ ..] => {
            if behind.is_empty() {
                return Err(LineEnd::Refused(Cause::Syntax));
            }
            let var = loop_named(sched, v.as_slice())?;
            let tensors = tensors_named(alloc, sched, behind)?;
            Ok(Command::Communicate(Communicate { var, tensors }))
        }
    }
}

/// `communicate v` with one or more tensors
#[tactic(auto, unfolding(crate::specs::Communicates::communicate_of))]
pub fn read_communicate(
    alloc: Global,
    text: &[u8],
    tokens: &[Token],
    sched: &Sched,
) -> Result<Command, LineEnd>
    requires { All (IsToken (length text.now)) tokens.now }
    ensures read { Gives (λ c. c) result (communicate_of sched.now (map (token_in text.now) tokens.now)) }
    ensures known { IfOk result (λ c. (rule_of c).can sched.now) }
{
    let names = read_names(alloc, text, tokens)?;
    communicate_names(alloc, sched, names.as_slice())
}
