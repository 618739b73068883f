//! The visits of a product's nest, one after another.

ghost use Rattle.std.specs.Prelude.{◌≡◌, map, option_map, Some};
ghost use Rattle.std.specs.List.{AllByRecursion};
ghost use Rattle.dt_nest.specs.FitsStored.{FitsStored};
ghost use Rattle.dt_nest.specs.Run.{HasValue, IsAtLeaf, answer_of};
ghost use Rattle.dt_tensor.specs.Packed.{stored_of};

use crate::case_end::CaseEnd;
use crate::jobs::{TILED, job_of_size};
use dt_model::Locator;
use dt_nest::{Nest, Sched, Visit, Visits};
use dt_tensor::Tensors;
use std::alloc::Global;

/// The largest extent.
pub const LARGEST_EXTENT: u32 = 64;

/// How far a walk goes.
#[derive(Clone, Copy)]
pub enum Walk {
    /// The schedule is made, and no visit.
    Made,
    /// All visits.
    Visited,
    /// All visits, and the leaf of each.
    Leaves,
    /// All visits, and at each the values of the variables on the left side.
    Evaluated,
}

impl Walk {
    pub(crate) fn from_word(word: &str) -> Option<Walk> {
        match word {
            "schedule" => Some(Walk::Made),
            "visits" => Some(Walk::Visited),
            "leaves" => Some(Walk::Leaves),
            "values" => Some(Walk::Evaluated),
            _ => None,
        }
    }
}

/// The answer of a walk over the nest of a product with this extent, cut by three splits of 8.
pub fn walked(alloc: Global, walk: Walk, extent: u32) -> Result<u32, CaseEnd> {
    let job = job_of_size(alloc, TILED, extent)?;
    match job.parts.as_slice() {
        [] => Err(CaseEnd::Refused),
        [part, ..] => match walk {
            Walk::Made => Ok(0),
            Walk::Visited => visited(alloc, &part.sched, &job.tensors),
            Walk::Leaves => leaves(alloc, &part.sched, &job.tensors),
            Walk::Evaluated => evaluated(alloc, &part.sched, &job.tensors),
        },
    }
}

/// The number of the visits.
fn visited(alloc: Global, sched: &Sched, tensors: &Tensors) -> Result<u32, CaseEnd>
    requires { FitsStored (map stored_of tensors.now) sched.now }
{
    let mut visits = Visits::over(alloc, sched, tensors, &[])?;
    let mut count = 0u32;
    loop {
        match visits.next() {
            None => return Ok(count),
            Some(_) => count = count.wrapping_add(1),
        }
    }
}

/// The sum of the left tensors' numbers over the leaves of all visits.
fn leaves(alloc: Global, sched: &Sched, tensors: &Tensors) -> Result<u32, CaseEnd>
    requires { FitsStored (map stored_of tensors.now) sched.now }
{
    let mut visits = Visits::over(alloc, sched, tensors, &[])?;
    let mut sum = 0u32;
    loop {
        match visits.next() {
            None => return Ok(sum),
            Some(item) => sum = sum.wrapping_add(left_at(&visits, item)),
        }
    }
}

/// The number of the left tensor at the last item, which is this one.
fn left_at<L: Locator>(visits: &Visits<L>, item: Visit) -> u32
    requires { option_map answer_of visits.now.last ≡ Some item }
{
    match item {
        Visit::Reset(_) => 0,
        Visit::Leaf => match visits.leaf() {
            Nest::Leaf { lhs, .. } => lhs.tensor,
            Nest::Loop { .. } => 0,
            Nest::Pre { .. } => 0,
        },
    }
}

/// The sum of all values at all visits, modulo a prime.
pub fn evaluated(alloc: Global, sched: &Sched, tensors: &Tensors) -> Result<u32, CaseEnd>
    requires { FitsStored (map stored_of tensors.now) sched.now }
{
    let mut visits = Visits::over(alloc, sched, tensors, &[])?;
    let mut sum = 0u64;
    loop {
        match visits.next() {
            None => return Ok((sum % 1_000_000_007) as u32),
            Some(item) => sum = sum.wrapping_add(values_at(&visits, item)),
        }
    }
}

/// The sum of the values at the last item, which is this one.
fn values_at<L: Locator>(visits: &Visits<L>, item: Visit) -> u64
    requires { option_map answer_of visits.now.last ≡ Some item }
{
    match item {
        Visit::Reset(_) => 0,
        Visit::Leaf => values_of(visits),
    }
}

/// The sum of the values of the variables on the left side at the last visit.
fn values_of<L: Locator>(visits: &Visits<L>) -> u64
    requires { IsAtLeaf visits.now }
{
    match visits.leaf() {
        Nest::Leaf { lhs, .. } => sum_of(visits, lhs.vars.as_slice()),
        Nest::Loop { .. } => 0,
        Nest::Pre { .. } => 0,
    }
}

/// The sum of the values of some variables.
fn sum_of<L: Locator>(visits: &Visits<L>, vars: &[u32]) -> u64
    requires { AllByRecursion (HasValue visits.now) vars.now }
{
    let mut sum = 0u64;
    for var in vars {
        sum = sum.wrapping_add(visits.eval(*var));
    }
    sum
}
