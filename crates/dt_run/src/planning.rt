//! A job's plan and its events, or the first limit that they pass.

ghost use Rattle.std.specs.Prelude.{◌≡◌, IfOk, List, Ok};
ghost use Rattle.dt_model.specs.declared.stmt.Stmt.{Stmt};
ghost use Rattle.dt_plan.specs.Layouts.{Layout};
ghost use Rattle.dt_plan.specs.Limits.{plan_of as plan_in};
ghost use Rattle.dt_job.specs.Jobs.{IsJob};
ghost use Rattle.dt_run.specs.Planned.{IsPlanOrLimit};
ghost use Rattle.dt_run.specs.Planning.{job_layout, limit_at};

use dt_base::NoMemory;
use dt_events::{Events, EventsEnd, events_of};
use dt_job::Job;
use dt_plan::{Plan, PlanEnd, plan_of};
use dt_refusal::PlanCause;
use std::alloc::Global;

/// What comes of planning a job.
#[derive(Drop)]
pub enum Planned {
    /// Its plan, and the events of the plan.
    Made(Plan, Events),
    /// The first limit that they pass.
    Passes(PlanCause),
}

/// The limit that ended a plan, and none where memory ran out.
fn limit_at(end: PlanEnd) -> Option<PlanCause>
    ensures { result ≡ limit_at end }
{
    match end {
        PlanEnd::TooManyVisits => Some(PlanCause::TooManyVisits),
        PlanEnd::TooManyWords => Some(PlanCause::TooManyWords),
        PlanEnd::TooManyOps => Some(PlanCause::TooManyOps),
        PlanEnd::TooManyUnits => Some(PlanCause::TooManyUnits),
        PlanEnd::NoMemory => None,
    }
}

/// The plan with its events, unless it has too many.
fn with_events(alloc: Global, plan: Plan) -> Result<Planned, NoMemory>
    ensures { IfOk result (λ p. (l : Layout) → plan_in l ≡ Ok plan → IsPlanOrLimit l p) }
{
    match events_of(alloc, &plan) {
        Ok(events) => Ok(Planned::Made(plan, events)),
        Err(EventsEnd::TooManyEvents) => Ok(Planned::Passes(PlanCause::TooManyEvents)),
        Err(EventsEnd::NoMemory) => Err(NoMemory),
    }
}

/// The job's plan and its events, or the first limit that they pass.
pub fn plan_job(alloc: Global, job: &Job) -> Result<Planned, NoMemory>
    requires { (stmts : List Stmt) × IsJob stmts job.now }
    ensures { IfOk result (λ p. IsPlanOrLimit (job_layout job.now) p) }
{
    let made = plan_of(
        alloc,
        job.parts.as_slice(),
        job.places.as_slice(),
        &job.machine,
        &job.tensors,
    );
    match made {
        Ok(plan) => with_events(alloc, plan),
        Err(end) => match limit_at(end) {
            Some(cause) => Ok(Planned::Passes(cause)),
            None => Err(NoMemory),
        },
    }
}
