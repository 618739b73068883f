//! Tensors by their names.

ghost use Rattle.std.specs.Prelude.{◌≡◌, ◌+◌, ◌≤◌, ◌<◌, ◌^◌, IfOk, IfSome, length, position};
ghost use Rattle.std.specs.List.{AllByRecursion};
ghost use Rattle.std.specs.Str.{bytes_eq};
ghost use Rattle.dt_model.specs.Steps.{Gives};
ghost use Rattle.dt_nest.specs.Schedule.{seen};
ghost use Rattle.dt_schedule.specs.NamesOf.{tensor_of, tensors_of};

use dt_base::{Name, Vars};
use dt_model::{Cause, LineEnd};
use dt_nest::{Sched, SchedParts, accesses_tensor};
use std::alloc::Global;

/// Where a name first is among names.
fn number_in(names: &[Name], name: &[u8]) -> Option<usize>
    ensures value { result ≡ position (λ n. bytes_eq n name.now) names.now }
    ensures within { IfSome result (λ k. k < length names.now) }
{
    names.iter().position(|n| n.is(name))
}

/// The number of the tensor with this name: UnknownTensor where the statement doesn't access it.
#[tactic(auto, unfolding(crate::specs::NamesOf::tensor_of))]
fn tensor_in(parts: &SchedParts, name: &[u8]) -> Result<u32, LineEnd>
    requires short { length name.now ≤ 64 }
    requires few { length (seen parts.now).tensors < 2 ^ 32 }
    ensures read { Gives (λ t. t) result (tensor_of (seen parts.now) name.now) }
    ensures known { IfOk result (λ t. t < length (seen parts.now).tensors) }
{
    match number_in(parts.tensors.as_slice(), name) {
        None => Err(LineEnd::Refused(Cause::UnknownTensor(Name::from_slice(name)))),
        Some(at) => {
            let t = at as u32;
            if !accesses_tensor(&parts.nest, t) {
                return Err(LineEnd::Refused(Cause::UnknownTensor(Name::from_slice(name))));
            }
            Ok(t)
        }
    }
}

/// The number of the tensor of the schedule with this name.
fn tensor_named(sched: &Sched, name: &[u8]) -> Result<u32, LineEnd>
    requires { length name.now ≤ 64 }
    ensures read { Gives (λ t. t) result (tensor_of sched.now name.now) }
    ensures known { IfOk result (λ t. t < length sched.now.tensors) }
{
    tensor_in(sched.parts(), name)
}

/// The numbers of the tensors with these names.
pub fn tensors_named(alloc: Global, sched: &Sched, names: &[Name]) -> Result<Vars, LineEnd>
    ensures read { Gives (λ ts. ts) result (tensors_of sched.now names.now) }
    ensures known { IfOk result (λ ts. AllByRecursion (λ t. t < length sched.now.tensors + length sched.now.works) ts) }
{
    let mut tensors = Vars::new(alloc);
    for name in names {
        match tensor_named(sched, name.as_slice()) {
            Ok(t) => tensors.push(t)?,
            Err(end) => return Err(end),
        }
    }
    Ok(tensors)
}
