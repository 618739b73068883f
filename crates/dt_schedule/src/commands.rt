//! Commands: one type for all of them.

use dt_model::Cause;
use dt_nest::{Rewrite, SchedParts};
use dt_rewrite::{Collapse, Communicate, Distribute, Divide, Reorder, Rotate, Split};
use std::alloc::Global;

/// A command that changes a schedule.
#[derive(Debug, Drop)]
pub enum Command {
    Split(Split),
    Divide(Divide),
    Reorder(Reorder),
    Collapse(Collapse),
    Rotate(Rotate),
    Distribute(Distribute),
    Communicate(Communicate),
}

impl Rewrite for Command {
    ghost use Rattle.dt_schedule.specs.Commands.{rule_of};
    ghost use Rattle.dt_schedule.specs.CommandLaws.{command_keeps};

    ghost rule = { rule_of };

    fn first_cause(&self, parts: &SchedParts) -> Option<Cause> {
        match self {
            Command::Split(command) => command.first_cause(parts),
            Command::Divide(command) => command.first_cause(parts),
            Command::Reorder(command) => command.first_cause(parts),
            Command::Collapse(command) => command.first_cause(parts),
            Command::Rotate(command) => command.first_cause(parts),
            Command::Distribute(command) => command.first_cause(parts),
            Command::Communicate(command) => command.first_cause(parts),
        }
    }

    fn applied(self, alloc: Global, parts: SchedParts) -> Result<SchedParts, SchedParts> {
        match self {
            Command::Split(command) => command.applied(alloc, parts),
            Command::Divide(command) => command.applied(alloc, parts),
            Command::Reorder(command) => command.applied(alloc, parts),
            Command::Collapse(command) => command.applied(alloc, parts),
            Command::Rotate(command) => command.applied(alloc, parts),
            Command::Distribute(command) => command.applied(alloc, parts),
            Command::Communicate(command) => command.applied(alloc, parts),
        }
    }

    ghost keeps = { command_keeps };
}
