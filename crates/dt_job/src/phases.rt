//! Which lines may come when.

ghost use Rattle.std.specs.Prelude.{◌≡◌, is_some, true};
ghost use Rattle.std.specs.Bool.{OnTrue};
ghost use Rattle.dt_job.specs.Phases.{is_whole, knows_machine, open_stmt, takes_declaration, takes_distal, takes_machine, takes_output, takes_stmt};

use crate::scheduled::Scheduled;

/// Where the reading of a job stands.
#[derive(Debug, Drop)]
pub enum Phase {
    /// No line is read.
    Version,
    /// The version is known.
    Machine,
    /// The machine is known, and no statement or output is read.
    Declarations,
    /// This statement is open.
    Open(Scheduled),
    /// The last statement is closed.
    Statements,
    /// An output is read.
    Outputs,
}

impl Phase {
    /// Goes on to another phase.
    pub fn enter(&mut self, next: Phase)
        ensures { self.new ≡ next }
    {
        *self = next;
    }

    pub fn takes_distal(&self) -> bool
        ensures { result ≡ takes_distal self.now }
    {
        matches!(self, Phase::Version)
    }

    pub fn takes_machine(&self) -> bool
        ensures { result ≡ takes_machine self.now }
    {
        matches!(self, Phase::Machine)
    }

    /// Whether a line `tensor`, `place`, `data` or `fill` may come.
    pub fn takes_declaration(&self) -> bool
        ensures { result ≡ takes_declaration self.now }
    {
        matches!(self, Phase::Declarations)
    }

    pub fn takes_stmt(&self) -> bool
        ensures value { result ≡ takes_stmt self.now }
        ensures known { OnTrue result (knows_machine self.now ≡ true) }
    {
        matches!(self, Phase::Declarations | Phase::Statements)
    }

    pub fn takes_output(&self) -> bool
        ensures { result ≡ takes_output self.now }
    {
        matches!(
            self,
            Phase::Declarations | Phase::Statements | Phase::Outputs
        )
    }

    /// Whether a statement is open.
    pub fn is_open(&self) -> bool
        ensures { result ≡ is_some (open_stmt self.now) }
    {
        matches!(self, Phase::Open(_))
    }

    /// Whether the job may end here.
    pub fn is_whole(&self) -> bool
        ensures { result ≡ is_whole self.now }
    {
        matches!(
            self,
            Phase::Declarations | Phase::Statements | Phase::Outputs
        )
    }
}
