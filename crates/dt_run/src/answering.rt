//! The answer to an input.

ghost use Rattle.std.specs.Prelude.{◌≡◌, ◌++◌, ◌<◌, ◌-◌, ◌^◌, IfOk, List, OnOk, length, map};
ghost use Rattle.std.specs.List.{flat_map};
ghost use Rattle.dt_model.specs.declared.stmt.Stmt.{Stmt};
ghost use Rattle.dt_plan.specs.Limits.{plan_view};
ghost use Rattle.dt_events.specs.Events.{events_of};
ghost use Rattle.dt_job.specs.Jobs.{IsJob};
ghost use Rattle.dt_job.specs.Read.{job_of};
ghost use Rattle.dt_run.specs.Clauses.{outcome_in};
ghost use Rattle.dt_run.specs.EveryOrder.{HaveOrders};
ghost use Rattle.dt_run.specs.Outcome.{form_text, outcome_of_job, outcome_of_read, print_text, run_text, show_text};
ghost use Rattle.dt_run.specs.Planning.{job_layout};
ghost use Rattle.dt_run.specs.Running.{AreWorkless};
ghost use Rattle.dt_run.specs.TensorText.{dense_of, tensor_text};

use crate::accepting::accept;
use crate::form::Form;
use crate::planning::{Planned, plan_job};
use crate::running::run_parts;
use crate::tensor_text::put_tensor;
use dt_base::{Bytes, Name, NoMemory, ShortText};
use dt_events::Events;
use dt_job::{Job, JobEnd, Show, read_job};
use dt_model::Whole;
use dt_plan::Plan;
use dt_refusal::{refused_line, refused_plan};
use dt_report::plan_text;
use std::alloc::Global;

/// What is written for an input, and whether it was run.
#[derive(Debug, Drop)]
pub enum Answer {
    Text(Bytes),
    Refusal(ShortText),
}

/// The answer to an input that is not too long. If a job stands there, all orders that its plan's events allow agree.
pub fn answer_to(alloc: Global, form: Form, input: &[u8]) -> Result<Answer, NoMemory>
    requires { length input.now < 2 ^ 32 - 1 }
    ensures answer { IfOk result (λ a. outcome_in a ≡ outcome_of_read form (job_of input.now)) }
    ensures orders { IfOk result (λ a. HaveOrders input.now) }
{
    match read_job(alloc, input) {
        Ok(job) => {
            accept(&job);
            answer_to_job(alloc, form, job)
        }
        Err(JobEnd::Refused(line, cause)) => Ok(Answer::Refusal(refused_line(line, &cause))),
        Err(JobEnd::NoMemory) => Err(NoMemory),
    }
}

/// The answer to a job: the form's text, or the refusal with the first limit that the job's plan passes.
fn answer_to_job(alloc: Global, form: Form, job: Job) -> Result<Answer, NoMemory>
    requires job { (stmts : List Stmt) × IsJob stmts job }
    requires workless { AreWorkless job.parts }
    ensures { IfOk result (λ a. (stmts : List Stmt) → IsJob stmts job → outcome_in a ≡ outcome_of_job form (record { job = job; stmts = stmts })) }
{
    match plan_job(alloc, &job)? {
        Planned::Made(plan, events) => {
            Ok(Answer::Text(text_of(alloc, form, job, &plan, &events)?))
        }
        Planned::Passes(cause) => Ok(Answer::Refusal(refused_plan(&cause))),
    }
}

/// What a form writes of a job with this plan and these events.
fn text_of(
    alloc: Global,
    form: Form,
    job: Job,
    plan: &Plan,
    events: &Events,
) -> Result<Bytes, NoMemory>
    requires job { (stmts : List Stmt) × IsJob stmts job }
    requires workless { AreWorkless job.parts }
    requires plan { plan.now ≡ plan_view (job_layout job) }
    requires events { events.now ≡ events_of plan.now }
    ensures { IfOk result (λ t. (stmts : List Stmt) → IsJob stmts job → t ≡ form_text form (record { job = job; stmts = stmts })) }
{
    match form {
        Form::Run => run(alloc, job),
        Form::Plan => plan_text(alloc, plan, events, job.parts.as_slice(), &job.heads),
    }
}

/// What a run of the job writes. The tensors' numbers are moved, so that they stand in memory once.
fn run(alloc: Global, job: Job) -> Result<Bytes, NoMemory>
    requires job { (stmts : List Stmt) × IsJob stmts job }
    requires workless { AreWorkless job.parts }
    ensures { IfOk result (λ t. (stmts : List Stmt) → IsJob stmts job → t ≡ run_text (record { job = job; stmts = stmts })) }
{
    let Job {
        names,
        tensors,
        parts,
        shows,
        ..
    } = job;
    let (levels, mut wholes) = tensors.into_wholes(alloc)?;
    run_parts(alloc, parts.as_slice(), &levels, &mut wholes)?;
    let mut out = Bytes::new(alloc);
    out.append(b"distal run\n")?;
    put_shows(
        &mut out,
        names.as_slice(),
        wholes.as_slice(),
        shows.as_slice(),
    )?;
    Ok(out)
}

fn put_shows(
    out: &mut Bytes,
    names: &[Name],
    tensors: &[Whole],
    shows: &[Show],
) -> Result<(), NoMemory>
    ensures { OnOk result (out.new ≡ out.old ++ flat_map (show_text names.now (map dense_of tensors.now)) shows.now) }
{
    for show in shows {
        put_show(out, names, tensors, show)?;
    }
    Ok(())
}

fn put_show(out: &mut Bytes, names: &[Name], tensors: &[Whole], show: &Show) -> Result<(), NoMemory>
    ensures { OnOk result (out.new ≡ out.old ++ show_text names.now (map dense_of tensors.now) show.now) }
{
    match show {
        Show::Print(tensor) => put_print(out, names, tensors, *tensor as usize),
    }
}

/// Prints the tensor with a number, where there is one.
fn put_print(out: &mut Bytes, names: &[Name], tensors: &[Whole], at: usize) -> Result<(), NoMemory>
    ensures { OnOk result (out.new ≡ out.old ++ print_text names.now (map dense_of tensors.now) at) }
{
    match (names.get(at), tensors.get(at)) {
        (Some(name), Some(tensor)) => put_whole(out, name, tensor),
        (None, Some(_)) | (Some(_), None) | (None, None) => Ok(()),
    }
}

/// Prints a tensor with dense levels.
fn put_whole(out: &mut Bytes, name: &Name, tensor: &Whole) -> Result<(), NoMemory>
    ensures { OnOk result (out.new ≡ out.old ++ tensor_text name.now (dense_of tensor.now)) }
{
    put_tensor(out, name, &tensor.shape(), tensor.values())
}
