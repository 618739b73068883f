//! `divide`: a loop in two, by the extent of the outer one.

ghost use Rattle.std.specs.Prelude.{◌≡◌, All, IfOk, length, map};
ghost use Rattle.dt_text.specs.Spans.{IsToken, token_in};
ghost use Rattle.dt_model.specs.Steps.{Gives};
ghost use Rattle.dt_schedule.specs.Divides.{divide_of};
ghost use Rattle.dt_schedule.specs.Commands.{rule_of};

use crate::commands::Command;
use crate::two_loops::read_two_loops;
use dt_model::LineEnd;
use dt_nest::Sched;
use dt_rewrite::Divide;
use dt_text::Token;

/// `divide v o i p`
#[tactic(auto, unfolding(crate::specs::Divides::divide_of))]
pub fn read_divide(text: &[u8], tokens: &[Token], sched: &Sched) -> Result<Command, LineEnd>
    requires { All (IsToken (length text.now)) tokens.now }
    ensures read { Gives (λ c. c) result (divide_of sched.now (map (token_in text.now) tokens.now)) }
    ensures known { IfOk result (λ c. (rule_of c).can sched.now) }
{
    let two = read_two_loops(text, tokens, sched)?;
    Ok(Command::Divide(Divide {
        var: two.var,
        outer: two.outer,
        inner: two.inner,
        pieces: two.number,
    }))
}
