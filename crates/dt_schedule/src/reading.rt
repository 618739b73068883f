//! The command of a line, by its words.

ghost use Rattle.std.specs.Prelude.{◌≡◌, All, IfOk, length, map};
ghost use Rattle.dt_text.specs.Spans.{IsToken, token_in};
ghost use Rattle.dt_model.specs.Steps.{Gives};
ghost use Rattle.dt_schedule.specs.CommandForms.{command_of, form_of};
ghost use Rattle.dt_schedule.specs.Commands.{rule_of};

use crate::collapses::read_collapse;
use crate::command_words::{CommandWord, command_word};
use crate::commands::Command;
use crate::communicates::read_communicate;
use crate::distributes::read_distribute;
use crate::divides::read_divide;
use crate::reorders::read_reorder;
use crate::rotates::read_rotate;
use crate::site::Site;
use crate::splits::read_split;
use dt_model::{Cause, LineEnd, Locator};
use dt_nest::Sched;
use dt_text::{Token, word};
use std::alloc::Global;

/// The command of this kind, by the words behind its own.
#[tactic(auto, unfolding(crate::specs::CommandForms::form_of))]
fn read_form<L: Locator>(
    alloc: Global,
    kind: CommandWord,
    text: &[u8],
    tokens: &[Token],
    sched: &Sched,
    site: &Site<'_, L>,
) -> Result<Command, LineEnd>
    requires { All (IsToken (length text.now)) tokens.now }
    ensures read { Gives (λ c. c) result (form_of sched.now site.now.grid.now (L.tensors site.now.loc.now) kind (map (token_in text.now) tokens.now)) }
    ensures known { IfOk result (λ c. (rule_of c).can sched.now) }
{
    match kind {
        CommandWord::Split => read_split(text, tokens, sched),
        CommandWord::Divide => read_divide(text, tokens, sched),
        CommandWord::Reorder => read_reorder(alloc, text, tokens, sched),
        CommandWord::Collapse => read_collapse(text, tokens, sched),
        CommandWord::Rotate => read_rotate(alloc, text, tokens, sched),
        CommandWord::Distribute => read_distribute(alloc, text, tokens, sched, site.grid),
        CommandWord::Communicate => read_communicate(alloc, text, tokens, sched),
    }
}

/// The command of a line, by its words.
#[tactic(auto, unfolding(crate::specs::CommandForms::command_of))]
pub fn read_command<L: Locator>(
    alloc: Global,
    text: &[u8],
    tokens: &[Token],
    sched: &Sched,
    site: &Site<'_, L>,
) -> Result<Command, LineEnd>
    requires { All (IsToken (length text.now)) tokens.now }
    ensures read { Gives (λ c. c) result (command_of sched.now site.now.grid.now (L.tensors site.now.loc.now) (map (token_in text.now) tokens.now)) }
    ensures known { IfOk result (λ c. (rule_of c).can sched.now) }
{
    match tokens {
        [] => Err(LineEnd::Refused(Cause::UnknownWord)),
        [first, behind @ ..] => match command_word(word(text, *first)) {
            None => Err(LineEnd::Refused(Cause::UnknownWord)),
            Some(kind) => read_form(alloc, kind, text, behind, sched, site),
        },
    }
}
