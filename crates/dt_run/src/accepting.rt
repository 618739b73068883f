//! What the orders of a job rest on, beside its statements and its plan: facts that its types keep. Nothing is made of them but proofs.

ghost use Rattle.std.specs.Prelude.{◌<◌, ◌^◌};
ghost use Rattle.std.specs.List.{AllByRecursion};
ghost use Rattle.dt_nest.specs.Lawful.{IsLawful};
ghost use Rattle.dt_place.specs.Machines.{IsMachine};
ghost use Rattle.dt_plan.specs.declared.parts.Part.{Part};
ghost use Rattle.dt_run.specs.EveryOrder.{AreWords};

use dt_job::Job;
use dt_plan::has_too_many_visits;
use dt_tensor::Tensor;

/// A job's machine and its schedules are lawful, and its numbers are of 64 bits.
pub fn accept(job: &Job)
    ensures machine { IsMachine job.now.machine }
    ensures lawful { AllByRecursion (λ (p : Part). IsLawful p.sched) job.now.parts }
    ensures words { AreWords job.now.tensors }
{
    let _dims = job.machine.dims();
    let _many = has_too_many_visits(job.parts.as_slice());
    have_words(job.tensors.as_slice());
}

fn have_words(tensors: &[Tensor])
    ensures { AreWords tensors.now }
{
    for tensor in tensors {
        are_words(tensor.values());
    }
}

fn are_words(values: &[u64])
    ensures { AllByRecursion (λ v. v < 2 ^ 64) values.now }
{
    for _value in values {}
}
