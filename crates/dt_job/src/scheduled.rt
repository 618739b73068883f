//! A statement with its schedule.

ghost use Rattle.std.specs.Prelude.{◌≡◌, IfOk, map};
ghost use Rattle.dt_job.specs.Drafts.{part_of};

use crate::declarations::Declarations;
use crate::line_stop::LineStop;
use dt_base::{Bytes, Lines, Names, NoMemory};
use dt_index::print_stmt;
use dt_model::Stmt;
use dt_nest::{RewriteEnd, Sched};
use dt_plan::{Part, Parts};
use dt_schedule::run_command;
use std::alloc::Global;
use std::marker::Model;

/// A statement, its text as it is printed, and its schedule so far.
#[derive(Debug, Drop)]
pub struct Scheduled {
    stmt: Stmt,
    head: Bytes,
    // It is away only while a command has it.
    sched: Option<Sched>,
}

impl Model for Scheduled {
    ghost use Rattle.std.specs.Prelude.{IsSome, [], unwrap_or};
    ghost use Rattle.std.specs.Coded.{Coded, codes};
    ghost use Rattle.dt_nest.specs.Chain.{stmt_schedule};
    ghost use Rattle.dt_nest.specs.TreeCode.{Node, tree_code};
    ghost use Rattle.dt_job.specs.Scheduled.{ScheduledView};

    ghost Value = { ScheduledView };

    ghost coded = { let node : Coded Node = Prim.hlevel codes in Prim.hlevel (codes, tree_code node) };

    ghost view = { λ s. record { stmt = s.stmt; head = s.head; sched = unwrap_or s.sched (stmt_schedule s.stmt [] []) } };

    ghost invariant = { λ s. IsSome s.sched };
}

impl Scheduled {
    ghost use Rattle.std.specs.Prelude.{◌≡◌, ◌<◌, ◌-◌, ◌^◌, IfOk, OnErr, length};
    ghost use Rattle.dt_text.specs.Tokens.{tokens_of};
    ghost use Rattle.dt_job.specs.Stops.{Says};
    ghost use Rattle.dt_index.specs.Printed.{stmt_text};
    ghost use Rattle.dt_nest.specs.Chain.{stmt_schedule, IsSchedulable, MeansStmt};
    ghost use Rattle.dt_schedule.specs.Commands.{command_line};
    ghost use Rattle.dt_job.specs.Contents.{stored_of_all};
    ghost use Rattle.dt_job.specs.Drafts.{IsScheduled, part_of};

    /// A statement with the schedule that it starts with, by the names of its variables and of the tensors.
    pub fn new(
        alloc: Global,
        stmt: Stmt,
        vars: &Names,
        tensors: &Names,
    ) -> Result<Scheduled, NoMemory>
        requires { IsSchedulable stmt vars.now tensors.now }
        ensures scheduled { IfOk result (λ s. s ≡ record { stmt = stmt; head = stmt_text stmt vars.now tensors.now; sched = stmt_schedule stmt vars.now tensors.now }) }
        ensures means { IfOk result (λ s. MeansStmt s.stmt s.sched) }
    {
        let head = print_stmt(alloc, &stmt, vars, tensors)?;
        let sched = Sched::of_stmt(alloc, &stmt, vars, tensors)?;
        Ok(Scheduled {
            stmt,
            head,
            sched: Some(sched),
        })
    }

    /// Does what a command line says to the schedule, over these tensors and for a machine with these dimensions.
    pub fn command(
        &mut self,
        alloc: Global,
        text: &[u8],
        grid: &[u32],
        declared: &Declarations,
    ) -> Result<(), LineStop>
        requires line { length text.now < 2 ^ 32 - 1 }
        requires lawful { IsScheduled grid.now declared.now self.old }
        ensures answers { Says (λ _. self.new.sched) result (command_line self.old.sched grid.now (stored_of_all declared.now) (tokens_of text.now)) }
        ensures others { self.new ≡ record self.old { sched = self.new.sched } }
        ensures err { OnErr result (self.new ≡ self.old) }
        ensures lawful { IsScheduled grid.now declared.now self.new }
    {
        let sched = self.sched.take().unwrap();
        match run_command(alloc, sched, text, grid, declared, declared.names()) {
            Ok(sched) => {
                self.sched = Some(sched);
                Ok(())
            }
            Err(RewriteEnd::Illegal(sched, cause)) => {
                self.sched = Some(sched);
                Err(LineStop::Refused(cause))
            }
            Err(RewriteEnd::NoMemory(sched)) => {
                self.sched = Some(sched);
                Err(LineStop::NoMemory)
            }
        }
    }

    /// Its text and its part. Until barriers come, all parts are in segment 0.
    fn into_part(self) -> (Bytes, Part)
        ensures head { result.0 ≡ self.head }
        ensures part { result.1 ≡ part_of self }
    {
        let Scheduled { stmt, head, sched } = self;
        let part = Part {
            sched: sched.unwrap(),
            adds: stmt.adds,
            segment: 0,
        };
        (head, part)
    }
}

/// The statements' texts and their parts, each in order.
pub fn separated(alloc: Global, closed: Vec<Scheduled>) -> Result<(Lines, Parts), NoMemory>
    ensures heads { IfOk result (λ r. r.0 ≡ map (λ s. s.head) closed.items) }
    ensures parts { IfOk result (λ r. r.1 ≡ map part_of closed.items) }
{
    let mut heads = Lines::new(alloc);
    let mut parts = Parts::new(alloc);
    for scheduled in closed {
        let (head, part) = scheduled.into_part();
        parts.push(part)?;
        heads.push(head)?;
    }
    Ok((heads, parts))
}
