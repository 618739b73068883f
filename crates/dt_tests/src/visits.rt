//! The values of variables at the visits of a schedule.

ghost use Rattle.std.specs.Prelude.{◌≡◌, map, option_map, Some};
ghost use Rattle.std.specs.List.{AllByRecursion};
ghost use Rattle.dt_nest.specs.FitsStored.{FitsStored};
ghost use Rattle.dt_nest.specs.Run.{HasValue, answer_of};
ghost use Rattle.dt_tensor.specs.Packed.{stored_of};

use dt_base::NoMemory;
use dt_nest::{Nest, Sched, Visit, Visits};
use dt_tensor::Tensors;
use std::alloc::Global;

/// Puts the values of some variables behind others.
fn push_values(visits: &Visits<Tensors>, vars: &[u32], list: &mut Vec<u64>) -> Result<(), NoMemory>
    requires { AllByRecursion (HasValue visits.now) vars.now }
{
    for var in vars {
        list.push(visits.eval(*var))?;
    }
    Ok(())
}

/// Puts the values of the variables on the left side behind others, where the last item is the visit of a leaf.
fn push_left(visits: &Visits<Tensors>, item: Visit, list: &mut Vec<u64>) -> Result<(), NoMemory>
    requires { option_map answer_of visits.now.last ≡ Some item }
{
    match item {
        Visit::Reset(_) => Ok(()),
        Visit::Leaf => match visits.leaf() {
            Nest::Leaf { lhs, .. } => push_values(visits, lhs.vars.as_slice(), list),
            Nest::Loop { .. } => Ok(()),
            Nest::Pre { .. } => Ok(()),
        },
    }
}

/// The values of the variables on the left side at each visit, one after another.
pub fn values(alloc: Global, sched: &Sched, tensors: &Tensors) -> Result<Vec<u64>, NoMemory>
    requires { FitsStored (map stored_of tensors.now) sched.now }
{
    let mut visits = Visits::over(alloc, sched, tensors, &[])?;
    let mut list = Vec::new(alloc);
    loop {
        match visits.next() {
            None => return Ok(list),
            Some(item) => push_left(&visits, item, &mut list)?,
        }
    }
}
