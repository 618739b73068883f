//! `reorder`: consecutive loops in another order.

ghost use Rattle.std.specs.Prelude.{◌≡◌, All, IfOk, length, map};
ghost use Rattle.dt_text.specs.Spans.{IsToken, token_in};
ghost use Rattle.dt_model.specs.Steps.{Gives};
ghost use Rattle.dt_schedule.specs.Reorders.{reorder_of};
ghost use Rattle.dt_schedule.specs.Commands.{rule_of};

use crate::commands::Command;
use crate::loop_names::read_loops;
use dt_model::LineEnd;
use dt_nest::Sched;
use dt_rewrite::Reorder;
use dt_text::Token;
use std::alloc::Global;

/// `reorder` with two or more loops
#[tactic(auto, unfolding(crate::specs::Reorders::reorder_of))]
pub fn read_reorder(
    alloc: Global,
    text: &[u8],
    tokens: &[Token],
    sched: &Sched,
) -> Result<Command, LineEnd>
    requires { All (IsToken (length text.now)) tokens.now }
    ensures read { Gives (λ c. c) result (reorder_of sched.now (map (token_in text.now) tokens.now)) }
    ensures known { IfOk result (λ c. (rule_of c).can sched.now) }
{
    let vars = read_loops(alloc, text, tokens, sched, 2)?;
    Ok(Command::Reorder(Reorder { vars }))
}
