//! The positions at which the accesses of a visit stand.

ghost use Rattle.std.specs.Prelude.{◌≡◌, ℕ, ◌<◌, ◌&&◌, [], ◌∷◌, Some, length, map, min, IfOk, OnOk, nat_lt};
ghost use Rattle.std.specs.List.{AllByRecursion, flat_map};
ghost use Rattle.dt_model.specs.Positions.{tensor_at};
ghost use Rattle.dt_nest.specs.Tree.{read_accesses, factor_accesses};
ghost use Rattle.dt_nest.specs.Run.{AreAscending, AreValued, IsAtLeaf, OnLanes};
ghost use Rattle.dt_bounds.specs.Found.{Adds, is_at};
ghost use Rattle.dt_nest.specs.Point.{HasValueAt, IsPointOf, env_at};
ghost use Rattle.dt_bounds.specs.Points.{AddsReached, AreValuedAt, IsTarget, IsVisitOf, accesses_in, is_lane_reached, is_reached, last_touches};

use crate::found::push_position;
use dt_base::NoMemory;
use dt_model::{Access, Factor, Locator, Term};
use dt_nest::{Nest, Point, Visits};

/// A tensor among those of a locator.
#[derive(Drop)]
pub struct Target<'l, L: Locator> {
    pub loc: &'l L,
    pub tensor: u32,
}

/// The accesses of a leaf: the left one, and those of the terms.
#[derive(Drop)]
pub struct Accesses<'n> {
    lhs: &'n Access,
    terms: &'n [Term],
}

/// The positions that were found, and room for the coordinates of one access.
#[derive(Drop)]
pub struct Found {
    pub positions: Vec<u32>,
    pub coords: Vec<u32>,
}

/// The number, or the greatest of 32 bits where that is less. No tensor stores a coordinate so great.
fn clipped(value: u64) -> u32
    ensures { result ≡ min value 4294967295 }
{
    value.min(u64::from(u32::MAX)) as u32
}

/// Writes the clipped values of the variables in place of the coordinates.
fn write_coordinates<L: Locator>(
    visits: &Visits<L>,
    point: &Point,
    vars: &[u32],
    coords: &mut Vec<u32>,
) -> Result<(), NoMemory>
    requires point { IsPointOf visits.now point.now }
    requires valued { AllByRecursion (HasValueAt visits.now point.now.lane) vars.now }
    ensures { OnOk result (coords.new.items ≡ map (λ u. min (env_at visits.now point.now.lane u) 4294967295) vars.now) }
{
    coords.clear();
    for var in vars {
        coords.push(clipped(visits.value_in(point, *var)))?;
    }
    Ok(())
}

/// The position at which an access of the tensor stands, and none where it is of another tensor or nothing is stored there.
fn place_of<L: Locator>(
    visits: &Visits<L>,
    point: &Point,
    target: &Target<L>,
    access: &Access,
    coords: &mut Vec<u32>,
) -> Result<Option<u32>, NoMemory>
    requires point { IsPointOf visits.now point.now }
    requires valued { AllByRecursion (HasValueAt visits.now point.now.lane) access.now.vars }
    requires target { IsTarget (L.tensors target.now.loc.now) target.now.tensor }
    ensures { IfOk result (λ place. (x : ℕ) → is_at place x ≡ (nat_lt x (length (tensor_at (L.tensors target.now.loc.now) target.now.tensor).coords) && is_reached (tensor_at (L.tensors target.now.loc.now) target.now.tensor) target.now.tensor (env_at visits.now point.now.lane) (access.now ∷ []) x)) }
{
    if access.tensor != target.tensor {
        return Ok(None);
    }
    write_coordinates(visits, point, access.vars.as_slice(), coords)?;
    Ok(target.loc.place(target.tensor, coords.as_slice()))
}

/// Adds the position at which an access of the tensor stands.
fn push_access<L: Locator>(
    visits: &Visits<L>,
    point: &Point,
    target: &Target<L>,
    access: &Access,
    found: &mut Found,
) -> Result<(), NoMemory>
    requires point { IsPointOf visits.now point.now }
    requires valued { AllByRecursion (HasValueAt visits.now point.now.lane) access.now.vars }
    requires target { IsTarget (L.tensors target.now.loc.now) target.now.tensor }
    ensures { OnOk result (AddsReached (tensor_at (L.tensors target.now.loc.now) target.now.tensor) target.now.tensor (env_at visits.now point.now.lane) (access.now ∷ []) found.old.positions.items found.new.positions.items) }
{
    let place = place_of(visits, point, target, access, &mut found.coords)?;
    push_position(&mut found.positions, place)
}

/// Adds the position of a factor that reads the tensor.
fn push_factor<L: Locator>(
    visits: &Visits<L>,
    point: &Point,
    target: &Target<L>,
    factor: &Factor,
    found: &mut Found,
) -> Result<(), NoMemory>
    requires point { IsPointOf visits.now point.now }
    requires valued { AreValuedAt visits.now point.now.lane (factor_accesses factor.now) }
    requires target { IsTarget (L.tensors target.now.loc.now) target.now.tensor }
    ensures { OnOk result (AddsReached (tensor_at (L.tensors target.now.loc.now) target.now.tensor) target.now.tensor (env_at visits.now point.now.lane) (factor_accesses factor.now) found.old.positions.items found.new.positions.items) }
{
    match factor {
        Factor::Read(access) => push_access(visits, point, target, access, found),
        Factor::Literal(_) => Ok(()),
    }
}

fn push_factors<L: Locator>(
    visits: &Visits<L>,
    point: &Point,
    target: &Target<L>,
    factors: &[Factor],
    found: &mut Found,
) -> Result<(), NoMemory>
    requires point { IsPointOf visits.now point.now }
    requires valued { AreValuedAt visits.now point.now.lane (flat_map factor_accesses factors.now) }
    requires target { IsTarget (L.tensors target.now.loc.now) target.now.tensor }
    ensures { OnOk result (AddsReached (tensor_at (L.tensors target.now.loc.now) target.now.tensor) target.now.tensor (env_at visits.now point.now.lane) (flat_map factor_accesses factors.now) found.old.positions.items found.new.positions.items) }
{
    for factor in factors {
        push_factor(visits, point, target, factor, found)?;
    }
    Ok(())
}

fn push_terms<L: Locator>(
    visits: &Visits<L>,
    point: &Point,
    target: &Target<L>,
    terms: &[Term],
    found: &mut Found,
) -> Result<(), NoMemory>
    requires point { IsPointOf visits.now point.now }
    requires valued { AreValuedAt visits.now point.now.lane (read_accesses terms.now) }
    requires target { IsTarget (L.tensors target.now.loc.now) target.now.tensor }
    ensures { OnOk result (AddsReached (tensor_at (L.tensors target.now.loc.now) target.now.tensor) target.now.tensor (env_at visits.now point.now.lane) (read_accesses terms.now) found.old.positions.items found.new.positions.items) }
{
    for term in terms {
        push_factors(visits, point, target, term.factors.as_slice(), found)?;
    }
    Ok(())
}

/// Adds the positions of all accesses of the tensor at one point of the visit.
fn push_point<L: Locator>(
    visits: &Visits<L>,
    point: &Point,
    target: &Target<L>,
    accesses: &Accesses,
    found: &mut Found,
) -> Result<(), NoMemory>
    requires point { IsPointOf visits.now point.now }
    requires valued { AreValuedAt visits.now point.now.lane (accesses_in accesses.now.lhs.now accesses.now.terms.now) }
    requires target { IsTarget (L.tensors target.now.loc.now) target.now.tensor }
    ensures { OnOk result (AddsReached (tensor_at (L.tensors target.now.loc.now) target.now.tensor) target.now.tensor (env_at visits.now point.now.lane) (accesses_in accesses.now.lhs.now accesses.now.terms.now) found.old.positions.items found.new.positions.items) }
{
    push_access(visits, point, target, accesses.lhs, found)?;
    push_terms(visits, point, target, accesses.terms, found)
}

/// Adds the positions at one value of the visit's substituted loop, if that is valid.
fn push_lane<L: Locator>(
    visits: &Visits<L>,
    x: u32,
    target: &Target<L>,
    accesses: &Accesses,
    values: &mut [Option<u32>],
    found: &mut Found,
) -> Result<(), NoMemory>
    requires within { OnLanes visits.now (λ lanes. x < lanes.extent) }
    requires leaf { IsVisitOf visits.now accesses.now.lhs.now accesses.now.terms.now }
    requires valued { AreValued visits.now }
    requires target { IsTarget (L.tensors target.now.loc.now) target.now.tensor }
    requires room { length values.old ≡ length visits.now.sched.names }
    ensures adds { OnOk result (Adds (length (tensor_at (L.tensors target.now.loc.now) target.now.tensor).coords) (is_lane_reached visits.now (tensor_at (L.tensors target.now.loc.now) target.now.tensor) target.now.tensor (accesses_in accesses.now.lhs.now accesses.now.terms.now) x) found.old.positions.items found.new.positions.items) }
    ensures room { length values.new ≡ length values.old }
{
    if !visits.enter_lane(x, values) {
        return Ok(());
    }
    let point = Point {
        lane: Some(x),
        values,
    };
    push_point(visits, &point, target, accesses, found)
}

/// Adds the positions at each valid value of the visit's substituted loop.
fn push_lanes<L: Locator>(
    visits: &Visits<L>,
    extent: u32,
    target: &Target<L>,
    accesses: &Accesses,
    values: &mut [Option<u32>],
    found: &mut Found,
) -> Result<(), NoMemory>
    requires lanes { OnLanes visits.now (λ lanes. (extent ≡ lanes.extent) × AreAscending (Some lanes)) }
    requires leaf { IsVisitOf visits.now accesses.now.lhs.now accesses.now.terms.now }
    requires valued { AreValued visits.now }
    requires target { IsTarget (L.tensors target.now.loc.now) target.now.tensor }
    requires room { length values.old ≡ length visits.now.sched.names }
    ensures adds { OnOk result (Adds (length (tensor_at (L.tensors target.now.loc.now) target.now.tensor).coords) (last_touches visits.now (tensor_at (L.tensors target.now.loc.now) target.now.tensor) target.now.tensor) found.old.positions.items found.new.positions.items) }
    ensures room { length values.new ≡ length values.old }
{
    for x in 0..extent {
        push_lane(visits, x, target, accesses, values, found)?;
    }
    Ok(())
}

/// Adds the positions at which the accesses of the last visit stand.
fn push_accesses<L: Locator>(
    visits: &Visits<L>,
    target: &Target<L>,
    accesses: &Accesses,
    values: &mut [Option<u32>],
    found: &mut Found,
) -> Result<(), NoMemory>
    requires leaf { IsVisitOf visits.now accesses.now.lhs.now accesses.now.terms.now }
    requires valued { AreValued visits.now }
    requires target { IsTarget (L.tensors target.now.loc.now) target.now.tensor }
    requires room { length values.old ≡ length visits.now.sched.names }
    ensures adds { OnOk result (Adds (length (tensor_at (L.tensors target.now.loc.now) target.now.tensor).coords) (last_touches visits.now (tensor_at (L.tensors target.now.loc.now) target.now.tensor) target.now.tensor) found.old.positions.items found.new.positions.items) }
    ensures room { length values.new ≡ length values.old }
{
    match visits.lanes() {
        None => push_point(visits, &visits.point(), target, accesses, found),
        Some(extent) => push_lanes(visits, extent, target, accesses, values, found),
    }
}

/// Adds the positions that the last visit touches. There is room for the values of all variables at a value of a
/// substituted loop.
pub fn push_visit<L: Locator>(
    visits: &Visits<L>,
    target: &Target<L>,
    values: &mut [Option<u32>],
    found: &mut Found,
) -> Result<(), NoMemory>
    requires leaf { IsAtLeaf visits.now }
    requires target { IsTarget (L.tensors target.now.loc.now) target.now.tensor }
    requires room { length values.old ≡ length visits.now.sched.names }
    ensures adds { OnOk result (Adds (length (tensor_at (L.tensors target.now.loc.now) target.now.tensor).coords) (last_touches visits.now (tensor_at (L.tensors target.now.loc.now) target.now.tensor) target.now.tensor) found.old.positions.items found.new.positions.items) }
    ensures room { length values.new ≡ length values.old }
{
    match visits.leaf() {
        Nest::Leaf { lhs, terms, .. } => {
            let accesses = Accesses {
                lhs,
                terms: terms.as_slice(),
            };
            push_accesses(visits, target, &accesses, values, found)
        }
        Nest::Loop { .. } => Ok(()),
        Nest::Pre { .. } => Ok(()),
    }
}
