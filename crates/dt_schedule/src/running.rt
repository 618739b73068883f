//! A command line on a schedule.

ghost use Rattle.std.specs.Prelude.{◌≡◌, ◌-◌, ◌^◌, ◌<◌, IfOk, length};
ghost use Rattle.dt_text.specs.Tokens.{tokens_of};
ghost use Rattle.dt_nest.specs.Commands.{KeepsAccesses, KeepsSum};
ghost use Rattle.dt_nest.specs.FitsStored.{FitsStored};
ghost use Rattle.dt_nest.specs.Grid.{IsOnGrid};
ghost use Rattle.dt_schedule.specs.Commands.{AnswersLine, LineKeeps, command_line};

use crate::commands::Command;
use crate::reading::read_command;
use crate::site::Site;
use dt_base::Names;
use dt_model::{LineEnd, Locator};
use dt_nest::{Rewrite, RewriteEnd, Sched};
use dt_text::words;
use std::alloc::Global;

/// Does what a command line says to a schedule.
#[tactic(auto, unfolding(crate::specs::Commands::command_line))]
pub(crate) fn commanded<L: Locator>(
    alloc: Global,
    sched: Sched,
    text: &[u8],
    site: &Site<'_, L>,
) -> Result<Sched, RewriteEnd>
    requires { length text.now < 2 ^ 32 - 1 }
    ensures answers { AnswersLine sched (command_line sched site.now.grid.now (L.tensors site.now.loc.now) (tokens_of text.now)) result }
    ensures keeps { IfOk result (λ s. LineKeeps site.now.grid.now (L.tensors site.now.loc.now) sched s) }
{
    let _lawful = sched.parts();
    let tokens = match words(alloc, text) {
        Ok(tokens) => tokens,
        Err(_) => return Err(RewriteEnd::NoMemory(sched)),
    };
    match read_command(alloc, text, tokens.as_slice(), &sched, site) {
        Ok(command) => command.apply(alloc, sched),
        Err(LineEnd::Refused(cause)) => Err(RewriteEnd::Illegal(sched, cause)),
        Err(LineEnd::NoMemory) => Err(RewriteEnd::NoMemory(sched)),
    }
}

/// Does what a command line says. `text` is the whole line, without its LF, and has no byte that a line may not have;
/// `grid` has the machine's dimensions. A word that begins no command is UnknownWord.
pub fn run_command<L: Locator>(
    alloc: Global,
    sched: Sched,
    text: &[u8],
    grid: &[u32],
    loc: &L,
    tensors: &Names,
) -> Result<Sched, RewriteEnd>
    requires line { length text.now < 2 ^ 32 - 1 }
    requires names { tensors.now ≡ sched.tensors }
    requires located { FitsStored (L.tensors loc.now) sched }
    ensures answers { AnswersLine sched (command_line sched grid.now (L.tensors loc.now) (tokens_of text.now)) result }
    ensures keeps { IfOk result (λ s. KeepsSum sched s) }
    ensures fits { IfOk result (λ s. FitsStored (L.tensors loc.now) s) }
    ensures stays { IfOk result (λ s. KeepsAccesses sched s) }
    ensures grid { IfOk result (λ s. IsOnGrid grid.now sched → IsOnGrid grid.now s) }
{
    commanded(alloc, sched, text, &Site { grid, loc })
}
