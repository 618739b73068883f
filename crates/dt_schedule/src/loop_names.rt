//! Loops by their names.

ghost use Rattle.std.specs.Prelude.{◌≡◌, ◌≤◌, ◌<◌, ◌^◌, All, IfOk, IfSome, length, map, position};
ghost use Rattle.std.specs.List.{AllByRecursion};
ghost use Rattle.std.specs.Str.{bytes_eq};
ghost use Rattle.dt_text.specs.Spans.{IsToken, token_in};
ghost use Rattle.dt_model.specs.Steps.{Gives};
ghost use Rattle.dt_nest.specs.Schedule.{seen};
ghost use Rattle.dt_schedule.specs.NamesOf.{loop_of, loops_in, loops_of, name_in, names_of};

use dt_base::{Name, Names, Vars};
use dt_model::{Cause, LineEnd};
use dt_nest::{Sched, SchedParts, has_loop};
use dt_text::{Token, is_name, word};
use std::alloc::Global;

/// The number of the loop with this name: UnknownLoop where it is no loop of the nest now.
#[tactic(auto, unfolding(crate::specs::NamesOf::loop_of))]
fn loop_in(parts: &SchedParts, name: &[u8]) -> Result<u32, LineEnd>
    requires short { length name.now ≤ 64 }
    requires few { length (seen parts.now).names < 2 ^ 32 }
    ensures read { Gives (λ v. v) result (loop_of (seen parts.now) name.now) }
    ensures known { IfOk result (λ v. v < length (seen parts.now).names) }
{
    let name = Name::from_slice(name);
    match parts.names.number_of(&name) {
        None => Err(LineEnd::Refused(Cause::UnknownLoop(name))),
        Some(at) => {
            let v = at as u32;
            if !has_loop(&parts.nest, v) {
                return Err(LineEnd::Refused(Cause::UnknownLoop(name)));
            }
            Ok(v)
        }
    }
}

/// The number of the loop of the schedule with this name.
pub fn loop_named(sched: &Sched, name: &[u8]) -> Result<u32, LineEnd>
    requires { length name.now ≤ 64 }
    ensures read { Gives (λ v. v) result (loop_of sched.now name.now) }
    ensures known { IfOk result (λ v. v < length sched.now.names) }
{
    loop_in(sched.parts(), name)
}

/// The numbers of the loops with these names.
pub fn loops_named(alloc: Global, sched: &Sched, names: &[Name]) -> Result<Vars, LineEnd>
    ensures read { Gives (λ vs. vs) result (loops_of sched.now names.now) }
    ensures known { IfOk result (λ vs. AllByRecursion (λ v. v < length sched.now.names) vs) }
{
    let mut vars = Vars::new(alloc);
    for name in names {
        match loop_named(sched, name.as_slice()) {
            Ok(v) => vars.push(v)?,
            Err(end) => return Err(end),
        }
    }
    Ok(vars)
}

/// A word that is a name.
#[tactic(auto, unfolding(crate::specs::NamesOf::name_in))]
fn read_name(word: &[u8]) -> Result<Name, LineEnd>
    ensures { Gives (λ name. name) result (name_in word.now) }
{
    if !is_name(word) {
        return Err(LineEnd::Refused(Cause::Syntax));
    }
    Ok(Name::from_slice(word))
}

/// Words that are all names.
pub fn read_names(alloc: Global, text: &[u8], tokens: &[Token]) -> Result<Names, LineEnd>
    requires { All (IsToken (length text.now)) tokens.now }
    ensures { Gives (λ names. names) result (names_of (map (token_in text.now) tokens.now)) }
{
    let mut names = Names::new(alloc);
    for token in tokens {
        match read_name(word(text, *token)) {
            Ok(name) => names.push(name)?,
            Err(end) => return Err(end),
        }
    }
    Ok(names)
}

/// The numbers of the loops that the words name: Syntax where they are fewer than `least`.
#[tactic(auto, unfolding(crate::specs::NamesOf::loops_in))]
pub fn read_loops(
    alloc: Global,
    text: &[u8],
    tokens: &[Token],
    sched: &Sched,
    least: usize,
) -> Result<Vars, LineEnd>
    requires { All (IsToken (length text.now)) tokens.now }
    ensures read { Gives (λ vs. vs) result (loops_in sched.now least (map (token_in text.now) tokens.now)) }
    ensures known { IfOk result (λ vs. AllByRecursion (λ v. v < length sched.now.names) vs) }
{
    let names = read_names(alloc, text, tokens)?;
    let names = names.as_slice();
    if names.len() < least {
        return Err(LineEnd::Refused(Cause::Syntax));
    }
    loops_named(alloc, sched, names)
}
