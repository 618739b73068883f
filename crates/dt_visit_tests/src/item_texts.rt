//! The visits of a schedule as a text: a line for each item, with the values of the variables of each access.

ghost use Rattle.std.specs.Prelude.{◌≡◌, ◌<◌, ◌∷◌, Some, length, map, option_map};
ghost use Rattle.std.specs.List.{AllByRecursion, flat_map};
ghost use Rattle.dt_nest.specs.FitsStored.{FitsStored};
ghost use Rattle.dt_nest.specs.Point.{HasValueAt, IsPointOf};
ghost use Rattle.dt_nest.specs.Run.{AreAscending, AreValued, IsAtLeaf, OnLanes, answer_of};
ghost use Rattle.dt_nest.specs.Tree.{factor_accesses, read_accesses};
ghost use Rattle.dt_nest.specs.Visits.{IsPath};
ghost use Rattle.dt_bounds.specs.Points.{AreValuedAt, IsVisitOf, accesses_in};
ghost use Rattle.dt_tensor.specs.Packed.{stored_of};

use dt_base::{Bytes, NoMemory};
use dt_model::{Access, Factor, Term};
use dt_nest::{Nest, Point, Sched, Visit, Visits};
use dt_tensor::Tensors;
use std::alloc::Global;

/// The accesses of a leaf: the left one, and those of the terms.
#[derive(Drop)]
struct Accesses<'n> {
    lhs: &'n Access,
    terms: &'n [Term],
}

/// The letter of a tensor or workspace.
fn letter(tensor: u32) -> &'static [u8] {
    match tensor {
        0 => b" A",
        1 => b" B",
        2 => b" C",
        _ => b" W",
    }
}

/// Puts an access at the end, a letter with the values of its variables.
fn put_access(
    visits: &Visits<Tensors>,
    point: &Point,
    access: &Access,
    text: &mut Bytes,
) -> Result<(), NoMemory>
    requires point { IsPointOf visits.now point.now }
    requires valued { AllByRecursion (HasValueAt visits.now point.now.lane) access.now.vars }
{
    text.append(letter(access.tensor))?;
    for var in access.vars.as_slice() {
        text.append_number(visits.value_in(point, *var))?;
    }
    Ok(())
}

fn put_factor(
    visits: &Visits<Tensors>,
    point: &Point,
    factor: &Factor,
    text: &mut Bytes,
) -> Result<(), NoMemory>
    requires point { IsPointOf visits.now point.now }
    requires valued { AreValuedAt visits.now point.now.lane (factor_accesses factor.now) }
{
    match factor {
        Factor::Read(access) => put_access(visits, point, access, text),
        Factor::Literal(_) => Ok(()),
    }
}

fn put_factors(
    visits: &Visits<Tensors>,
    point: &Point,
    factors: &[Factor],
    text: &mut Bytes,
) -> Result<(), NoMemory>
    requires point { IsPointOf visits.now point.now }
    requires valued { AreValuedAt visits.now point.now.lane (flat_map factor_accesses factors.now) }
{
    for factor in factors {
        put_factor(visits, point, factor, text)?;
    }
    Ok(())
}

fn put_terms(
    visits: &Visits<Tensors>,
    point: &Point,
    terms: &[Term],
    text: &mut Bytes,
) -> Result<(), NoMemory>
    requires point { IsPointOf visits.now point.now }
    requires valued { AreValuedAt visits.now point.now.lane (read_accesses terms.now) }
{
    for term in terms {
        put_factors(visits, point, term.factors.as_slice(), text)?;
    }
    Ok(())
}

/// Puts the accesses at one point of the visit at the end.
fn put_point(
    visits: &Visits<Tensors>,
    point: &Point,
    accesses: &Accesses,
    text: &mut Bytes,
) -> Result<(), NoMemory>
    requires point { IsPointOf visits.now point.now }
    requires valued { AreValuedAt visits.now point.now.lane (accesses_in accesses.now.lhs.now accesses.now.terms.now) }
{
    put_access(visits, point, accesses.lhs, text)?;
    put_terms(visits, point, accesses.terms, text)
}

/// Puts one value of the visit's substituted loop and the accesses there at the end, if it is valid.
fn put_lane(
    visits: &Visits<Tensors>,
    x: u32,
    accesses: &Accesses,
    values: &mut [Option<u32>],
    text: &mut Bytes,
) -> Result<(), NoMemory>
    requires within { OnLanes visits.now (λ lanes. x < lanes.extent) }
    requires leaf { IsVisitOf visits.now accesses.now.lhs.now accesses.now.terms.now }
    requires valued { AreValued visits.now }
    requires room { length values.old ≡ length visits.now.sched.names }
    ensures room { length values.new ≡ length values.old }
{
    if !visits.enter_lane(x, values) {
        return Ok(());
    }
    text.append(b" ")?;
    text.append_number(x)?;
    text.append(b":")?;
    let point = Point {
        lane: Some(x),
        values,
    };
    put_point(visits, &point, accesses, text)
}

fn put_lanes(
    visits: &Visits<Tensors>,
    extent: u32,
    accesses: &Accesses,
    values: &mut [Option<u32>],
    text: &mut Bytes,
) -> Result<(), NoMemory>
    requires lanes { OnLanes visits.now (λ lanes. (extent ≡ lanes.extent) × AreAscending (Some lanes)) }
    requires leaf { IsVisitOf visits.now accesses.now.lhs.now accesses.now.terms.now }
    requires valued { AreValued visits.now }
    requires room { length values.old ≡ length visits.now.sched.names }
    ensures room { length values.new ≡ length values.old }
{
    for x in 0..extent {
        put_lane(visits, x, accesses, values, text)?;
    }
    Ok(())
}

fn put_accesses(
    visits: &Visits<Tensors>,
    accesses: &Accesses,
    values: &mut [Option<u32>],
    text: &mut Bytes,
) -> Result<(), NoMemory>
    requires leaf { IsVisitOf visits.now accesses.now.lhs.now accesses.now.terms.now }
    requires valued { AreValued visits.now }
    requires room { length values.old ≡ length visits.now.sched.names }
    ensures room { length values.new ≡ length values.old }
{
    match visits.lanes() {
        None => put_point(visits, &visits.point(), accesses, text),
        Some(extent) => put_lanes(visits, extent, accesses, values, text),
    }
}

/// Puts the last visit at the end.
fn put_visit(
    visits: &Visits<Tensors>,
    values: &mut [Option<u32>],
    text: &mut Bytes,
) -> Result<(), NoMemory>
    requires leaf { IsAtLeaf visits.now }
    requires room { length values.old ≡ length visits.now.sched.names }
    ensures room { length values.new ≡ length values.old }
{
    match visits.leaf() {
        Nest::Leaf { lhs, terms, .. } => {
            let terms = terms.as_slice();
            put_accesses(visits, &Accesses { lhs, terms }, values, text)
        }
        Nest::Loop { .. } => Ok(()),
        Nest::Pre { .. } => Ok(()),
    }
}

/// Puts the last item, which is this one, at the end, and a semicolon.
fn put_item(
    visits: &Visits<Tensors>,
    item: Visit,
    values: &mut [Option<u32>],
    text: &mut Bytes,
) -> Result<(), NoMemory>
    requires item { option_map answer_of visits.now.last ≡ Some item }
    requires room { length values.old ≡ length visits.now.sched.names }
    ensures room { length values.new ≡ length values.old }
{
    match item {
        Visit::Reset(work) => {
            text.append(b" reset ")?;
            text.append_number(work)?;
        }
        Visit::Leaf => put_visit(visits, values, text)?,
    }
    text.append(b";")
}

/// The visits that extend a path, each item behind the one before.
pub fn items_text(
    alloc: Global,
    sched: &Sched,
    tensors: &Tensors,
    path: &[u32],
) -> Result<Bytes, NoMemory>
    requires fits { FitsStored (map stored_of tensors.now) sched.now }
    requires path { IsPath sched.now path.now }
{
    let mut visits = Visits::over(alloc, sched, tensors, path)?;
    let mut room = visits.lane_room(alloc)?;
    let values = room.as_mut_slice();
    let mut text = Bytes::new(alloc);
    loop {
        match visits.next() {
            None => return Ok(text),
            Some(item) => put_item(&visits, item, values, &mut text)?,
        }
    }
}
