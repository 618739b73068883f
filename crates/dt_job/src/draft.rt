//! What the lines read so far say.

use crate::declarations::Declarations;
use crate::job::Job;
use crate::line_stop::LineStop;
use crate::outputs::{Show, Shows};
use crate::phases::Phase;
use crate::scheduled::{Scheduled, separated};
use dt_base::{Name, NoMemory};
use dt_model::Cause;
use dt_place::{Machine, Placement, Places};
use dt_tensor::{Tensor, Tensors};
use std::alloc::Global;
use std::marker::Model;
use std::mem;

/// What the lines read so far say.
#[derive(Drop)]
pub struct Draft {
    machine: Option<Machine>,
    declared: Declarations,
    closed: Vec<Scheduled>,
    shows: Shows,
    phase: Phase,
}

impl Model for Draft {
    ghost use Rattle.std.specs.Coded.{Coded, codes};
    ghost use Rattle.dt_nest.specs.TreeCode.{Node, tree_code};
    ghost use Rattle.dt_job.specs.Drafts.{DraftView, IsDraft};

    ghost Value = { DraftView };

    ghost coded = { let node : Coded Node = Prim.hlevel codes in Prim.hlevel (codes, tree_code node) };

    ghost view = { λ d. record { machine = d.machine; tensors = d.declared; closed = d.closed.items; shows = d.shows; phase = d.phase } };

    ghost invariant = { λ d. IsDraft (record { machine = d.machine; tensors = d.declared; closed = d.closed.items; shows = d.shows; phase = d.phase }) };
}

impl Draft {
    ghost use Rattle.std.specs.Prelude.{◌≡◌, ◌≤◌, ◌<◌, ◌∷◌, ◌++◌, ◌-◌, ◌^◌, [], length, IfOk, IsSome, None, OnOk, OnErr, option_copied, Some, option_map, true, false};
    ghost use Rattle.dt_job.specs.Stops.{Says};
    ghost use Rattle.dt_index.specs.Known.{place_of};
    ghost use Rattle.dt_place.specs.Machines.{dims_of};
    ghost use Rattle.dt_job.specs.Contents.{known_of, position_count_of, with_placement, with_values};
    ghost use Rattle.dt_job.specs.Drafts.{DraftView, FitsMachine, IsDraft, IsScheduled, empty_draft, grid_of};
    ghost use Rattle.dt_job.specs.JobTensors.{IsJobTensor};
    ghost use Rattle.dt_job.specs.Jobs.{IsJob, ShowsBelow};
    ghost use Rattle.dt_job.specs.ScheduleLine.{schedule_line};
    ghost use Rattle.dt_job.specs.Phases.{is_whole, knows_machine, open_stmt, takes_declaration, takes_distal, takes_machine, takes_output};
    ghost use Rattle.dt_job.specs.Read.{job_on, stmts_of};
    ghost use Rattle.dt_job.specs.declared.phases.Phase.TheVariants as phases;

    pub fn new(alloc: Global) -> Draft
        ensures { result ≡ empty_draft }
    {
        Draft {
            machine: None,
            declared: Declarations::new(alloc),
            closed: Vec::new(alloc),
            shows: Shows::new(alloc),
            phase: Phase::Version,
        }
    }

    /// Where the reading stands.
    pub fn phase(&self) -> &Phase
        ensures { result.now ≡ self.now.phase }
    {
        &self.phase
    }

    /// The version is known: goes on to the machine.
    pub fn begin(&mut self)
        requires { takes_distal self.old.phase ≡ true }
        ensures { self.new ≡ record self.old { phase = phases.Machine } }
    {
        self.phase.enter(Phase::Machine);
    }

    /// The machine, where its line has come.
    pub fn machine(&self) -> Option<&Machine>
        ensures { option_copied result ≡ self.now.machine }
    {
        self.machine.as_ref()
    }

    /// Takes the machine, and goes on to the declarations.
    pub fn take_machine(&mut self, machine: Machine)
        requires { takes_machine self.old.phase ≡ true }
        ensures { self.new ≡ record self.old { machine = Some machine; phase = phases.Declarations } }
    {
        self.machine = Some(machine);
        self.phase.enter(Phase::Declarations);
    }

    /// The tensors that are declared.
    pub fn declared(&self) -> &Declarations
        ensures tensors { result.now ≡ self.now.tensors }
        ensures lawful { IsDraft self.now }
    {
        &self.declared
    }

    /// How many statements are closed.
    pub fn closed_count(&self) -> usize
        ensures { result ≡ length self.now.closed }
    {
        self.closed.len()
    }

    /// One more tensor, whose numbers no line has given.
    pub fn declare(&mut self, name: Name, tensor: Tensor) -> Result<(), NoMemory>
        requires new { place_of name (known_of self.old.tensors) ≡ None }
        requires early { takes_declaration self.old.phase ≡ true }
        requires few { length self.old.tensors < 32 }
        requires lawful { IsJobTensor tensor }
        ensures ok { OnOk result (self.new ≡ record self.old { tensors = self.old.tensors ++ (name, record { packed = tensor; given = false; placement = None }) ∷ [] }) }
        ensures err { OnErr result (self.new ≡ self.old) }
    {
        self.declared.add(name, tensor)?;
        Ok(())
    }

    /// The numbers of a tensor, in order of position.
    pub fn give(&mut self, at: u32, values: Vec<u64>)
        requires early { takes_declaration self.old.phase ≡ true }
        requires tensor { at < length self.old.tensors }
        requires count { length values.items ≡ position_count_of self.old.tensors at }
        ensures { self.new ≡ record self.old { tensors = with_values self.old.tensors at values.items } }
    {
        self.declared.give(at, values);
    }

    /// The placement of a tensor.
    pub fn place(&mut self, at: u32, placement: Placement)
        requires early { takes_declaration self.old.phase ≡ true }
        requires tensor { at < length self.old.tensors }
        requires lawful { FitsMachine self.old.machine placement }
        ensures { self.new ≡ record self.old { tensors = with_placement self.old.tensors at placement } }
    {
        self.declared.place(at, placement);
    }

    /// Opens a statement.
    pub fn open(&mut self, scheduled: Scheduled)
        requires machine { knows_machine self.old.phase ≡ true }
        requires few { length self.old.closed < 32 }
        requires lawful { IsScheduled (grid_of self.old.machine) self.old.tensors scheduled }
        ensures { self.new ≡ record self.old { phase = phases.Open scheduled } }
    {
        self.phase.enter(Phase::Open(scheduled));
    }

    /// Does what a command line says to the schedule of the open statement, which stays where the line is refused.
    pub fn command(&mut self, alloc: Global, text: &[u8]) -> Result<(), LineStop>
        requires { length text.now < 2 ^ 32 - 1 }
        ensures { Says (λ _. self.new) result (schedule_line self.old text.now) }
    {
        let Some(machine) = &self.machine else {
            return Err(LineStop::Refused(Cause::OutOfPlace));
        };
        let Phase::Open(scheduled) = &mut self.phase else {
            return Err(LineStop::Refused(Cause::OutOfPlace));
        };
        scheduled.command(alloc, text, machine.dims(), &self.declared)
    }

    /// Closes the open statement. If memory runs out, it is lost.
    pub fn close(&mut self) -> Result<(), NoMemory>
        requires { IsSome (open_stmt self.old.phase) }
        ensures ok { OnOk result (option_map (λ s. record self.old { closed = self.old.closed ++ s ∷ []; phase = phases.Statements }) (open_stmt self.old.phase) ≡ Some self.new) }
    {
        match mem::replace(&mut self.phase, Phase::Statements) {
            Phase::Open(scheduled) => {
                self.closed.push(scheduled)?;
                Ok(())
            }
            _ => Ok(()),
        }
    }

    /// One more output.
    pub fn show(&mut self, show: Show) -> Result<(), NoMemory>
        requires late { takes_output self.old.phase ≡ true }
        requires tensor { ShowsBelow (length self.old.tensors) show }
        ensures ok { OnOk result (self.new ≡ record self.old { shows = self.old.shows ++ show ∷ []; phase = phases.Outputs }) }
        ensures err { OnErr result (self.new ≡ self.old) }
    {
        self.shows.push(show)?;
        self.phase.enter(Phase::Outputs);
        Ok(())
    }

    /// The job that the lines say.
    pub fn into_job(self, alloc: Global) -> Result<Job, NoMemory>
        requires { is_whole self.phase ≡ true }
        ensures job { IfOk result (λ j. option_map (job_on self) self.machine ≡ Some j) }
        ensures lawful { IfOk result (IsJob (stmts_of self)) }
    {
        let Draft {
            machine,
            declared,
            closed,
            shows,
            phase,
        } = self;
        mem::drop(phase);
        let machine = machine.unwrap();
        let (names, declared) = declared.into_parts();
        let mut tensors = Vec::new(alloc);
        let mut places = Vec::new(alloc);
        for (_name, declared) in declared {
            let (tensor, placement) = declared.into_parts();
            tensors.push(tensor)?;
            places.push(placement)?;
        }
        let (heads, parts) = separated(alloc, closed)?;
        Ok(Job {
            machine,
            names,
            tensors: Tensors::from_list(tensors),
            places: Places::from_vec(places),
            heads,
            parts,
            shows,
        })
    }
}
