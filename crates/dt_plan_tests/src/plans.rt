//! From a job's text to its plan.

ghost use Rattle.std.specs.Prelude.{List};
ghost use Rattle.dt_model.specs.declared.stmt.Stmt.{Stmt};
ghost use Rattle.dt_job.specs.Jobs.{IsJob};

use dt_base::{Bytes, NoMemory};
use dt_job::{Job, read_job};
use dt_plan::{Plan, PlanEnd, plan_of};
use std::alloc::Global;
use std::test::Fail;

/// A job with its plan, or the limit that this passes.
#[derive(Drop)]
pub enum Planned {
    Made(Job, Plan),
    Passes(PlanEnd),
}

/// The plan of a job.
fn plan(alloc: Global, job: &Job) -> Result<Plan, PlanEnd>
    requires { (stmts : List Stmt) × IsJob stmts job.now }
{
    plan_of(
        alloc,
        job.parts.as_slice(),
        job.places.as_slice(),
        &job.machine,
        &job.tensors,
    )
}

/// The text of a job of these lines, each of which but the last ends in a semicolon.
fn job_text(alloc: Global, lines: &str) -> Result<Bytes, NoMemory> {
    let mut text = Bytes::new(alloc);
    text.append(b"distal 1\n")?;
    for line in lines.split(';') {
        text.append(line.as_bytes())?;
        text.append(b"\n")?;
    }
    Ok(text)
}

/// The job of a text with its plan.
pub fn job_plan(alloc: Global, text: &[u8]) -> Result<Planned, Fail> {
    if text.len() > 10_000 {
        return Err("too long")?;
    }
    let job = read_job(alloc, text)?;
    match plan(alloc, &job) {
        Ok(plan) => Ok(Planned::Made(job, plan)),
        Err(end) => Ok(Planned::Passes(end)),
    }
}

/// The job of these lines and its plan.
pub fn made(alloc: Global, lines: &str) -> Result<(Job, Plan), Fail> {
    let text = job_text(alloc, lines)?;
    match job_plan(alloc, text.as_slice())? {
        Planned::Made(job, plan) => Ok((job, plan)),
        Planned::Passes(_) => Err("a limit is passed")?,
    }
}

/// Puts the number of operations and that of units.
pub fn put_counts(out: &mut Bytes, plan: &Plan) -> Result<(), NoMemory> {
    out.append(b"ops ")?;
    out.append_number(plan.ops().len())?;
    out.append(b" units ")?;
    out.append_number(plan.units())
}

/// Puts the bounds of the nodes, and the traffic.
pub fn put_words(out: &mut Bytes, plan: &Plan) -> Result<(), NoMemory> {
    out.append(b" bounds")?;
    for node in 0..plan.nodes() {
        out.append(b" ")?;
        out.append_number(plan.bound(node))?;
    }
    let (local, group, across) = plan.traffic();
    out.append(b" local ")?;
    out.append_number(local)?;
    out.append(b" group ")?;
    out.append_number(group)?;
    out.append(b" across ")?;
    out.append_number(across)
}
