//! Visits of a nest whose outer loop is split and collapsed again and again.

ghost use Rattle.std.specs.Prelude.{◌≡◌, ◌<◌, ◌∷◌, Some, IfOk, length, map, option_map};
ghost use Rattle.std.specs.List.{AllByRecursion};
ghost use Rattle.dt_nest.specs.FitsStored.{FitsStored};
ghost use Rattle.dt_nest.specs.Point.{HasValueAt, IsPointOf};
ghost use Rattle.dt_nest.specs.Run.{AreValued, IsAtLeaf, OnLanes, answer_of};
ghost use Rattle.dt_bounds.specs.Points.{IsVisitOf};
ghost use Rattle.dt_tensor.specs.Packed.{stored_of};

use crate::case_end::CaseEnd;
use crate::dots::{dot_schedule, dot_tensors, tensor_names};
use crate::jobs::job_of_size;
use crate::walk::evaluated;
use dt_base::{Bytes, Names, NoMemory};
use dt_model::{Access, Term};
use dt_nest::{Nest, Point, RewriteEnd, Sched, Visit, Visits};
use dt_schedule::run_command;
use dt_tensor::Tensors;
use std::alloc::Global;

/// The largest extent.
pub const LARGEST_EXTENT: u32 = 256;

/// How often the loop is split and collapsed.
const PAIRS: u32 = 24;

/// A matrix times a vector, the loop over rows inside.
const HEAD: &[u8] = b"distal 1
machine 1
tensor A #
tensor B #x#
tensor C #
stmt A(i0) = B(i0,j) * C(j)
reorder j i0
";

/// Which nest is visited: with the substituted loop inside the one that is cut, or with the one that is cut inside the other.
#[derive(Clone, Copy)]
pub enum Paired {
    /// The schedule with a substituted loop is made, and no visit.
    LanesMade,
    /// Each valid value of that loop at each visit, with the value of the variable on the left side.
    Lanes,
    /// The plain schedule is made, and no visit.
    PlainMade,
    /// All visits, with the same value.
    Plain,
}

impl Paired {
    pub(crate) fn from_word(word: &str) -> Option<Paired> {
        match word {
            "paired-lanes-made" => Some(Paired::LanesMade),
            "paired-lanes" => Some(Paired::Lanes),
            "paired-plain-made" => Some(Paired::PlainMade),
            "paired-plain" => Some(Paired::Plain),
            _ => None,
        }
    }
}

/// The line that splits the loop for the k-th time.
fn split_line(alloc: Global, k: u32) -> Result<Bytes, NoMemory> {
    let mut line = Bytes::from_slice(alloc, b"split i")?;
    line.append_number(k)?;
    line.append(b" a")?;
    line.append_number(k)?;
    line.append(b" b")?;
    line.append_number(k)?;
    line.append(b" 2")?;
    Ok(line)
}

/// The line that collapses both again.
fn collapse_line(alloc: Global, k: u32) -> Result<Bytes, NoMemory> {
    let mut line = Bytes::from_slice(alloc, b"collapse a")?;
    line.append_number(k)?;
    line.append(b" b")?;
    line.append_number(k)?;
    line.append(b" i")?;
    line.append_number(k.saturating_add(1))?;
    Ok(line)
}

/// The schedule after a command's line, which tensors still fit.
fn commanded(
    alloc: Global,
    sched: Sched,
    line: &Bytes,
    tensors: &Tensors,
    names: &Names,
) -> Result<Sched, CaseEnd>
    requires fits { FitsStored (map stored_of tensors.now) sched }
    requires names { names.now ≡ sched.tensors }
    ensures fits { IfOk result (λ s. FitsStored (map stored_of tensors.now) s) }
    ensures names { IfOk result (λ s. names.now ≡ s.tensors) }
{
    if line.len() > 100 {
        return Err(CaseEnd::Refused);
    }
    match run_command(alloc, sched, line.as_slice(), &[1], tensors, names) {
        Ok(sched) => Ok(sched),
        Err(RewriteEnd::Illegal(..)) => Err(CaseEnd::Refused),
        Err(RewriteEnd::NoMemory(_)) => Err(CaseEnd::NoMemory),
    }
}

/// The schedule whose outer loop was split and collapsed so often.
fn paired_schedule(
    alloc: Global,
    first: Sched,
    tensors: &Tensors,
    names: &Names,
) -> Result<Sched, CaseEnd>
    requires fits { FitsStored (map stored_of tensors.now) first }
    requires names { names.now ≡ first.tensors }
    ensures { IfOk result (λ s. FitsStored (map stored_of tensors.now) s) }
{
    let mut sched = first;
    for k in 0..PAIRS {
        let split = split_line(alloc, k)?;
        let cut = commanded(alloc, sched, &split, tensors, names)?;
        let collapse = collapse_line(alloc, k)?;
        sched = commanded(alloc, cut, &collapse, tensors, names)?;
    }
    Ok(sched)
}

/// The text of the job with the plain nest.
fn plain_text(alloc: Global) -> Result<Vec<u8>, NoMemory> {
    let mut text = Bytes::from_slice(alloc, HEAD)?;
    for k in 0..PAIRS {
        text.append(split_line(alloc, k)?.as_slice())?;
        text.append(b"\n")?;
        text.append(collapse_line(alloc, k)?.as_slice())?;
        text.append(b"\n")?;
    }
    text.append(b"end\n")?;
    Ok(text.into_vec())
}

/// The sum of the values, and 0 where only the schedule is to be made.
pub fn paired_sum(alloc: Global, nest: Paired, extent: u32) -> Result<u32, CaseEnd> {
    match nest {
        Paired::LanesMade => lanes(alloc, extent, true),
        Paired::Lanes => lanes(alloc, extent, false),
        Paired::PlainMade => plain(alloc, extent, true),
        Paired::Plain => plain(alloc, extent, false),
    }
}

fn plain(alloc: Global, extent: u32, only_made: bool) -> Result<u32, CaseEnd> {
    let text = plain_text(alloc)?;
    let job = job_of_size(alloc, text.as_slice(), extent)?;
    match job.parts.as_slice() {
        [] => Err(CaseEnd::Refused),
        [part, ..] => {
            if only_made {
                return Ok(0);
            }
            evaluated(alloc, &part.sched, &job.tensors)
        }
    }
}

fn lanes(alloc: Global, extent: u32, only_made: bool) -> Result<u32, CaseEnd> {
    let tensors = dot_tensors(alloc, extent)?;
    let first = dot_schedule(alloc, extent)?;
    let names = tensor_names(alloc)?;
    let sched = paired_schedule(alloc, first, &tensors, &names)?;
    if only_made {
        return Ok(0);
    }
    summed_lanes(alloc, &sched, &tensors)
}

/// The sum over all values of the substituted loop at all visits, modulo a prime.
fn summed_lanes(alloc: Global, sched: &Sched, tensors: &Tensors) -> Result<u32, CaseEnd>
    requires { FitsStored (map stored_of tensors.now) sched.now }
{
    let mut visits = Visits::over(alloc, sched, tensors, &[])?;
    let mut room = visits.lane_room(alloc)?;
    let values = room.as_mut_slice();
    let mut sum = 0u64;
    loop {
        match visits.next() {
            None => return Ok((sum % 1_000_000_007) as u32),
            Some(item) => sum = sum.wrapping_add(item_sum(&visits, item, values)),
        }
    }
}

/// The sum at the last item, which is this one.
fn item_sum(visits: &Visits<Tensors>, item: Visit, values: &mut [Option<u32>]) -> u64
    requires item { option_map answer_of visits.now.last ≡ Some item }
    requires room { length values.old ≡ length visits.now.sched.names }
    ensures room { length values.new ≡ length values.old }
{
    match item {
        Visit::Reset(_) => 0,
        Visit::Leaf => visit_sum(visits, values),
    }
}

fn visit_sum(visits: &Visits<Tensors>, values: &mut [Option<u32>]) -> u64
    requires leaf { IsAtLeaf visits.now }
    requires room { length values.old ≡ length visits.now.sched.names }
    ensures room { length values.new ≡ length values.old }
{
    match visits.leaf() {
        Nest::Leaf { lhs, terms, .. } => {
            let terms = terms.as_slice();
            leaf_sum(visits, lhs, terms, values)
        }
        Nest::Loop { .. } => 0,
        Nest::Pre { .. } => 0,
    }
}

fn leaf_sum(
    visits: &Visits<Tensors>,
    lhs: &Access,
    terms: &[Term],
    values: &mut [Option<u32>],
) -> u64
    requires leaf { IsVisitOf visits.now lhs.now terms.now }
    requires valued { AreValued visits.now }
    requires room { length values.old ≡ length visits.now.sched.names }
    ensures room { length values.new ≡ length values.old }
{
    match visits.lanes() {
        None => 0,
        Some(extent) => lanes_sum(visits, extent, lhs, terms, values),
    }
}

fn lanes_sum(
    visits: &Visits<Tensors>,
    extent: u32,
    lhs: &Access,
    terms: &[Term],
    values: &mut [Option<u32>],
) -> u64
    requires lanes { OnLanes visits.now (λ lanes. extent ≡ lanes.extent) }
    requires leaf { IsVisitOf visits.now lhs.now terms.now }
    requires valued { AreValued visits.now }
    requires room { length values.old ≡ length visits.now.sched.names }
    ensures room { length values.new ≡ length values.old }
{
    let mut sum = 0u64;
    for x in 0..extent {
        sum = sum.wrapping_add(lane_sum(visits, x, lhs, terms, values));
    }
    sum
}

/// The sum of the values of the variables on the left side at one value of the substituted loop, if it is valid.
fn lane_sum(
    visits: &Visits<Tensors>,
    x: u32,
    lhs: &Access,
    terms: &[Term],
    values: &mut [Option<u32>],
) -> u64
    requires within { OnLanes visits.now (λ lanes. x < lanes.extent) }
    requires leaf { IsVisitOf visits.now lhs.now terms.now }
    requires valued { AreValued visits.now }
    requires room { length values.old ≡ length visits.now.sched.names }
    ensures room { length values.new ≡ length values.old }
{
    if !visits.enter_lane(x, values) {
        return 0;
    }
    let point = Point {
        lane: Some(x),
        values,
    };
    point_sum(visits, &point, lhs.vars.as_slice())
}

fn point_sum(visits: &Visits<Tensors>, point: &Point, vars: &[u32]) -> u64
    requires point { IsPointOf visits.now point.now }
    requires valued { AllByRecursion (HasValueAt visits.now point.now.lane) vars.now }
{
    let mut sum = 0u64;
    for var in vars {
        sum = sum.wrapping_add(visits.value_in(point, *var));
    }
    sum
}
