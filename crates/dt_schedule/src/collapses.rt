//! `collapse`: a loop and its body in one.

ghost use Rattle.std.specs.Prelude.{◌≡◌, ◌≤◌, ◌&&◌, All, IfOk, length, map};
ghost use Rattle.std.specs.Bool.{OnTrue};
ghost use Rattle.dt_text.specs.Names.{is_name};
ghost use Rattle.dt_text.specs.Spans.{IsToken, token_in};
ghost use Rattle.dt_model.specs.Steps.{Gives};
ghost use Rattle.dt_schedule.specs.Collapses.{collapse_of};
ghost use Rattle.dt_schedule.specs.Commands.{rule_of};

use crate::commands::Command;
use crate::loop_names::loop_named;
use dt_base::Name;
use dt_model::{Cause, LineEnd};
use dt_nest::Sched;
use dt_rewrite::Collapse;
use dt_text::{Token, is_name, word};

/// Three names.
fn are_names(a: &[u8], b: &[u8], c: &[u8]) -> bool
    ensures value { result ≡ (is_name a.now && is_name b.now && is_name c.now) }
    ensures few { OnTrue result ((length a.now ≤ 16) × (length b.now ≤ 16) × (length c.now ≤ 16)) }
{
    is_name(a) && is_name(b) && is_name(c)
}

/// `collapse a b f`
#[tactic(auto, unfolding(crate::specs::Collapses::collapse_of))]
pub fn read_collapse(text: &[u8], tokens: &[Token], sched: &Sched) -> Result<Command, LineEnd>
    requires { All (IsToken (length text.now)) tokens.now }
    ensures read { Gives (λ c. c) result (collapse_of sched.now (map (token_in text.now) tokens.now)) }
    ensures known { IfOk result (λ c. (rule_of c).can sched.now) }
{
    match tokens {
        [a, b, fused] => {
            let a = word(text, *a);
            let b = word(text, *b);
            let fused = word(text, *fused);
            if !are_names(a, b, fused) {
                return Err(LineEnd::Refused(Cause::Syntax));
            }
            let outer = loop_named(sched, a)?;
            let inner = loop_named(sched, b)?;
            Ok(Command::Collapse(Collapse {
                outer,
                inner,
                fused: Name::from_slice(fused),
            }))
        }
        _ => Err(LineEnd::Refused(Cause::Syntax)),
    }
}
