//! A loop that becomes two, as a line names it.

ghost use Rattle.std.specs.Prelude.{◌≡◌, ◌≤◌, ◌&&◌, All, IfOk, ◌<◌, length, map};
ghost use Rattle.std.specs.Bool.{OnTrue};
ghost use Rattle.dt_text.specs.Names.{is_name};
ghost use Rattle.dt_text.specs.Numbers.{is_numeral};
ghost use Rattle.dt_text.specs.Spans.{IsToken, token_in};
ghost use Rattle.dt_model.specs.Steps.{Gives};
ghost use Rattle.dt_schedule.specs.TwoLoops.{number_32, two_loops_of};

use crate::loop_names::loop_named;
use dt_base::Name;
use dt_model::{Cause, LineEnd, found};
use dt_nest::Sched;
use dt_text::{Token, is_name, is_numeral, number, word};

/// A loop, the names of the two that it becomes, and the number by which it is cut.
#[derive(Debug, Drop)]
pub struct TwoLoops {
    pub var: u32,
    pub outer: Name,
    pub inner: Name,
    pub number: u32,
}

/// Three names and a number.
fn is_form(v: &[u8], outer: &[u8], inner: &[u8], number: &[u8]) -> bool
    ensures value { result ≡ (is_name v.now && is_name outer.now && is_name inner.now && is_numeral number.now) }
    ensures few { OnTrue result ((length v.now ≤ 16) × (length outer.now ≤ 16) × (length inner.now ≤ 16)) }
{
    is_name(v) && is_name(outer) && is_name(inner) && is_numeral(number)
}

fn number_32(n: u64) -> u32
    ensures { result ≡ number_32 n }
{
    if n < 4294967295 { n as u32 } else { u32::MAX }
}

/// The loop, the names and the number behind the words `split` and `divide`.
#[tactic(auto, unfolding(crate::specs::TwoLoops::two_loops_of))]
pub fn read_two_loops(text: &[u8], tokens: &[Token], sched: &Sched) -> Result<TwoLoops, LineEnd>
    requires { All (IsToken (length text.now)) tokens.now }
    ensures read { Gives (λ t. t) result (two_loops_of sched.now (map (token_in text.now) tokens.now)) }
    ensures known { IfOk result (λ t. t.var < length sched.now.names) }
{
    match tokens {
        [v, outer, inner, factor] => {
            let v = word(text, *v);
            let outer = word(text, *outer);
            let inner = word(text, *inner);
            let factor = word(text, *factor);
            if !is_form(v, outer, inner, factor) {
                return Err(LineEnd::Refused(Cause::Syntax));
            }
            let n = found(number(factor), Cause::BadNumber)?;
            let var = loop_named(sched, v)?;
            Ok(TwoLoops {
                var,
                outer: Name::from_slice(outer),
                inner: Name::from_slice(inner),
                number: number_32(n),
            })
        }
        _ => Err(LineEnd::Refused(Cause::Syntax)),
    }
}
