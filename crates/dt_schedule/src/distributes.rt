//! `distribute`: the outermost loops over the machine.

ghost use Rattle.std.specs.Prelude.{◌≡◌, All, IfOk, length, map};
ghost use Rattle.dt_text.specs.Spans.{IsToken, token_in};
ghost use Rattle.dt_model.specs.Steps.{Gives};
ghost use Rattle.dt_schedule.specs.Distributes.{distribute_of};
ghost use Rattle.dt_schedule.specs.Commands.{rule_of};

use crate::commands::Command;
use crate::loop_names::read_loops;
use dt_base::Extents;
use dt_model::LineEnd;
use dt_nest::Sched;
use dt_rewrite::Distribute;
use dt_text::Token;
use std::alloc::Global;

/// `distribute` with one or more loops
#[tactic(auto, unfolding(crate::specs::Distributes::distribute_of))]
pub fn read_distribute(
    alloc: Global,
    text: &[u8],
    tokens: &[Token],
    sched: &Sched,
    grid: &[u32],
) -> Result<Command, LineEnd>
    requires { All (IsToken (length text.now)) tokens.now }
    ensures read { Gives (λ c. c) result (distribute_of sched.now grid.now (map (token_in text.now) tokens.now)) }
    ensures known { IfOk result (λ c. (rule_of c).can sched.now) }
{
    let vars = read_loops(alloc, text, tokens, sched, 1)?;
    let grid = Extents::from_slice(alloc, grid)?;
    Ok(Command::Distribute(Distribute { vars, grid }))
}
