//! What a visit adds: the values of variables there, and the numbers of accesses, factors and terms.

ghost use Rattle.std.specs.Prelude.{◌≡◌, ℕ, ◌<◌, ◌^◌, ◌%◌, All, Some, filter, length, map, slice_index, sum_by, take, true, if◌then◌else◌};
ghost use Rattle.std.specs.List.{AllByRecursion, range_with_len};
ghost use Rattle.dt_base.specs.Rows.{product};
ghost use Rattle.dt_nest.specs.Effects.{visit_sum};
ghost use Rattle.dt_nest.specs.Tree.{read_accesses};
ghost use Rattle.dt_nest.specs.Run.{HasLaneValue, IsAtLeaf, OnLanes, is_among};
ghost use Rattle.dt_nest.specs.Meaning.{factor_of, term_of, terms_of};
ghost use Rattle.dt_nest.specs.World.{world_of};
ghost use Rattle.dt_nest.specs.Visits.{environments};
ghost use Rattle.dt_nest.specs.Point.{IsPointOf, env_at, valid_of, visit_of};
ghost use Rattle.dt_leaf.specs.AtVisit.{AreCoordinates, AreReadable, IsFactorAt, IsReadAt, IsShort, IsTermAt};

use crate::numbers::Numbers;
use dt_model::{Access, Factor, Locator, Term};
use dt_nest::{Point, Visits};

/// The values of the variables, and 0 behind them.
pub fn coordinates<L: Locator>(visits: &Visits<L>, point: &Point, vars: &[u32]) -> [u32; 16]
    requires point { IsPointOf visits.now point.now }
    requires vars { AreCoordinates visits.now point.now.lane vars.now }
    ensures values { take (length vars.now) result ≡ map (env_at visits.now point.now.lane) vars.now }
{
    let mut coords = [0u32; 16];
    for (i, var) in vars.iter().enumerate() {
        coords[i] = visits.value_in(point, *var) as u32;
    }
    coords
}

fn access_number<N: Numbers, L: Locator>(
    visits: &Visits<L>,
    point: &Point,
    access: &Access,
    numbers: &N,
) -> u64
    requires point { IsPointOf visits.now point.now }
    requires access { IsReadAt (N.can_read numbers.now) visits.now point.now.lane access.now }
    ensures { result ≡ N.entries numbers.now access.now.tensor (map (env_at visits.now point.now.lane) access.now.vars) }
{
    let vars = access.vars.as_slice();
    let coords = coordinates(visits, point, vars);
    numbers.number(access.tensor, &coords[..vars.len()])
}

fn factor_number<N: Numbers, L: Locator>(
    visits: &Visits<L>,
    point: &Point,
    factor: &Factor,
    numbers: &N,
) -> u64
    requires point { IsPointOf visits.now point.now }
    requires factor { IsFactorAt (N.can_read numbers.now) visits.now point.now.lane factor.now }
    ensures { result ≡ factor_of (N.entries numbers.now) (env_at visits.now point.now.lane) factor.now }
{
    match factor {
        Factor::Literal(n) => *n,
        Factor::Read(access) => access_number(visits, point, access, numbers),
    }
}

fn product_number<N: Numbers, L: Locator>(
    visits: &Visits<L>,
    point: &Point,
    factors: &[Factor],
    numbers: &N,
) -> u64
    requires point { IsPointOf visits.now point.now }
    requires factors { All (IsFactorAt (N.can_read numbers.now) visits.now point.now.lane) factors.now }
    ensures { result ≡ product (map (factor_of (N.entries numbers.now) (env_at visits.now point.now.lane)) factors.now) % 2 ^ 64 }
{
    let mut product = 1u64;
    for factor in factors {
        product = product.wrapping_mul(factor_number(visits, point, factor, numbers));
    }
    product
}

fn term_number<N: Numbers, L: Locator>(
    visits: &Visits<L>,
    point: &Point,
    term: &Term,
    numbers: &N,
) -> u64
    requires point { IsPointOf visits.now point.now }
    requires term { IsTermAt (N.can_read numbers.now) visits.now point.now.lane term.now }
    ensures { result ≡ term_of (N.entries numbers.now) (env_at visits.now point.now.lane) term.now % 2 ^ 64 }
{
    let product = product_number(visits, point, term.factors.as_slice(), numbers);
    if term.minus {
        product.wrapping_neg()
    } else {
        product
    }
}

/// The sum of the terms at the last visit, modulo 2^64.
fn terms_number<N: Numbers, L: Locator>(
    visits: &Visits<L>,
    point: &Point,
    terms: &[Term],
    numbers: &N,
) -> u64
    requires point { IsPointOf visits.now point.now }
    requires terms { All (IsTermAt (N.can_read numbers.now) visits.now point.now.lane) terms.now }
    ensures { result ≡ terms_of (N.entries numbers.now) (env_at visits.now point.now.lane) terms.now % 2 ^ 64 }
{
    let mut sum = 0u64;
    for term in terms {
        sum = sum.wrapping_add(term_number(visits, point, term, numbers));
    }
    sum
}

/// What one value of the last visit's substituted loop adds, modulo 2^64.
fn lane_number<N: Numbers, L: Locator>(
    visits: &Visits<L>,
    x: u32,
    terms: &[Term],
    numbers: &N,
    values: &mut [Option<u32>],
) -> u64
    requires within { OnLanes visits.now (λ lanes. x < lanes.extent) }
    requires terms { OnLanes visits.now (λ lanes. is_among x lanes.valid ≡ true) → All (IsTermAt (N.can_read numbers.now) visits.now (Some x)) terms.now }
    requires room { length values.old ≡ length visits.now.sched.names }
    ensures number { result ≡ (if is_among x (valid_of visits.now) then terms_of (N.entries numbers.now) (env_at visits.now (Some x)) terms.now else 0) % 2 ^ 64 }
    ensures room { length values.new ≡ length values.old }
{
    if !visits.enter_lane(x, values) {
        return 0;
    }
    let point = Point {
        lane: Some(x),
        values,
    };
    terms_number(visits, &point, terms, numbers)
}

/// What the values of the last visit's substituted loop add, modulo 2^64.
fn lanes_number<N: Numbers, L: Locator>(
    visits: &Visits<L>,
    extent: u32,
    terms: &[Term],
    numbers: &N,
    values: &mut [Option<u32>],
) -> u64
    requires extent { OnLanes visits.now (λ lanes. extent ≡ lanes.extent) }
    requires terms { (x : ℕ) → OnLanes visits.now (λ lanes. is_among x lanes.valid ≡ true) → All (IsTermAt (N.can_read numbers.now) visits.now (Some x)) terms.now }
    requires room { length values.old ≡ length visits.now.sched.names }
    ensures number { result ≡ sum_by (λ x. terms_of (N.entries numbers.now) (env_at visits.now (Some x)) terms.now) (filter (λ x. is_among x (valid_of visits.now)) (range_with_len 0 extent)) % 2 ^ 64 }
    ensures room { length values.new ≡ length values.old }
{
    let mut sum = 0u64;
    for x in 0..extent {
        sum = sum.wrapping_add(lane_number(visits, x, terms, numbers, values));
    }
    sum
}

/// What the last visit adds, modulo 2^64. There is room for the values of all variables at a value of a substituted loop.
pub fn visit_number<N: Numbers, L: Locator>(
    visits: &Visits<L>,
    terms: &[Term],
    numbers: &N,
    values: &mut [Option<u32>],
) -> u64
    requires leaf { IsAtLeaf visits.now }
    requires terms { terms.now ≡ (visit_of visits.now).leaf.terms }
    requires short { AllByRecursion IsShort (read_accesses terms.now) }
    requires valued { AllByRecursion (λ a. AllByRecursion (HasLaneValue visits.now) a.vars) (read_accesses terms.now) }
    requires small { (u : ℕ) → slice_index visits.now.sched.extents u < 2 ^ 32 }
    requires there { AllByRecursion (AreReadable (N.can_read numbers.now) terms.now) (environments (world_of visits.now.stored visits.now.sched) visits.now.sched.derived (visit_of visits.now)) }
    requires room { length values.old ≡ length visits.now.sched.names }
    ensures number { result ≡ visit_sum (world_of visits.now.stored visits.now.sched) visits.now.sched.derived (N.entries numbers.now) (visit_of visits.now) % 2 ^ 64 }
    ensures room { length values.new ≡ length values.old }
{
    match visits.lanes() {
        None => terms_number(visits, &visits.point(), terms, numbers),
        Some(extent) => lanes_number(visits, extent, terms, numbers, values),
    }
}
