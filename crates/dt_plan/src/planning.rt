//! The plan of a job.

ghost use Rattle.std.specs.Prelude.{◌≡◌, ◌<◌, ◌≤◌, ◌^◌, IfOk, Ok, false, length, map, nat_lt};
ghost use Rattle.std.specs.List.{AllByRecursion, zip};
ghost use Rattle.std.specs.List.Sorted.{IsSortedBy};
ghost use Rattle.dt_base.specs.Ranges.{below};
ghost use Rattle.dt_nest.specs.FitsStored.{FitsStored};
ghost use Rattle.dt_place.specs.Homes.{homes_on};
ghost use Rattle.dt_place.specs.Machines.{IsMachine, nodes_of};
ghost use Rattle.dt_place.specs.Placements.{IsPlacement};
ghost use Rattle.dt_place.specs.declared.placements.Placement.{Placement};
ghost use Rattle.dt_plan.specs.declared.parts.Part.{Part};
ghost use Rattle.dt_plan.specs.Bounds.{bound_of};
ghost use Rattle.dt_plan.specs.Keeps.{op_limit};
ghost use Rattle.dt_plan.specs.Layouts.{layout_of};
ghost use Rattle.dt_plan.specs.Limits.{Gives, bounds_within, ops_within, plan_of, plan_view};
ghost use Rattle.dt_plan.specs.Operations.{ops_of};
ghost use Rattle.dt_plan.specs.Plans.{plan_with};
ghost use Rattle.dt_plan.specs.Statements.{FitsLayout, HasHomes};

use crate::bounds::bounds_of;
use crate::brackets::OP_LIMIT;
use crate::footprints::all_footprints;
use crate::job_layout::JobLayout;
use crate::job_ops::{buffers_of, listed};
use crate::moved::product_of;
use crate::node_words::{WORD_LIMIT, sum_of};
use crate::ops::Ops;
use crate::parts::Part;
use crate::plan_end::PlanEnd;
use crate::plans::{Moves, Plan, unit_count};
use crate::touches::{Buffer, Touches};
use crate::traffic::moves_of;
use crate::visit_limit::has_too_many_visits;
use dt_base::NoMemory;
use dt_model::Locator;
use dt_place::{Homes, Machine, Placement, homes_on};
use std::alloc::Global;

/// The most units of a plan.
const UNIT_LIMIT: u64 = 33_554_432;

/// A plan without its nodes and homes.
#[derive(Drop)]
pub(crate) struct Listing {
    pub(crate) ops: Ops,
    pub(crate) touches: Vec<Touches>,
    pub(crate) segments: Vec<u32>,
    pub(crate) bounds: Vec<u64>,
    pub(crate) moves: Moves,
    pub(crate) buffers: Vec<Buffer>,
}

/// How many nodes a machine has: the product of its dimensions.
fn node_count(machine: &Machine) -> u32
    ensures count { result ≡ nodes_of machine.now }
    ensures lawful { IsMachine machine.now }
{
    product_of(machine.dims())
}

/// The homes of all tensors, in order.
fn all_homes<L: Locator>(
    alloc: Global,
    places: &[Placement],
    machine: &Machine,
    loc: &L,
) -> Result<Vec<Homes>, NoMemory>
    requires count { length places.now ≡ length (L.tensors loc.now) }
    requires few { length places.now < 2 ^ 32 }
    requires placements { AllByRecursion (λ (p : Placement). IsPlacement p machine.now) places.now }
    ensures { IfOk result (λ homes. homes.items ≡ map (λ x. homes_on x.0 machine.now x.1) (zip places.now (L.tensors loc.now))) }
{
    let mut all = Vec::new(alloc);
    for (tensor, placement) in places.iter().enumerate() {
        all.push(homes_on(alloc, placement, machine, loc, tensor as u32)?)?;
    }
    Ok(all)
}

/// The barrier segments of the statements.
fn segments_of(alloc: Global, parts: &[Part]) -> Result<Vec<u32>, NoMemory>
    ensures { IfOk result (λ segments. segments.items ≡ map (λ (p : Part). p.segment) parts.now) }
{
    let mut segments = Vec::new(alloc);
    for part in parts {
        segments.push(part.segment)?;
    }
    Ok(segments)
}

/// The bounds of all nodes, unless they are too many words in all.
fn bounds_within<L: Locator>(alloc: Global, layout: &JobLayout<L>) -> Result<Vec<u64>, PlanEnd>
    requires fits { FitsLayout layout.now }
    requires segments { IsSortedBy nat_lt (map (λ (p : Part). p.segment) layout.now.parts) }
    ensures { Gives (λ row. row.items) result (bounds_within layout.now) }
{
    let bounds = bounds_of(alloc, layout)?;
    if sum_of(bounds.as_slice()) > WORD_LIMIT {
        return Err(PlanEnd::TooManyWords);
    }
    Ok(bounds)
}

/// The operations, unless they are too many.
fn ops_within<L: Locator>(alloc: Global, layout: &JobLayout<L>) -> Result<Ops, PlanEnd>
    requires { FitsLayout layout.now }
    ensures { Gives (λ ops. ops) result (ops_within layout.now) }
{
    let ops = listed(alloc, layout)?;
    if ops.as_slice().len() > OP_LIMIT {
        return Err(PlanEnd::TooManyOps);
    }
    Ok(ops)
}

/// The listing with these bounds and operations.
fn listing_of<L: Locator>(
    alloc: Global,
    layout: &JobLayout<L>,
    bounds: Vec<u64>,
    ops: Ops,
) -> Result<Listing, NoMemory>
    requires fits { FitsLayout layout.now }
    requires bounds { bounds.items ≡ map (bound_of layout.now) (below (nodes_of layout.now.machine)) }
    requires ops { ops ≡ ops_of layout.now }
    requires few { length ops ≤ op_limit }
    ensures { IfOk result (λ s. plan_with layout.now s ≡ plan_view layout.now) }
{
    let segments = segments_of(alloc, layout.parts)?;
    let touches = all_footprints(alloc, layout, ops.as_slice())?;
    let moves = moves_of(layout.machine, ops.as_slice());
    let buffers = buffers_of(alloc, layout)?;
    Ok(Listing {
        ops,
        touches,
        segments,
        bounds,
        moves,
        buffers,
    })
}

/// The listing with these bounds and operations, unless there are too many units.
fn units_within<L: Locator>(
    alloc: Global,
    layout: &JobLayout<L>,
    bounds: Vec<u64>,
    ops: Ops,
) -> Result<Listing, PlanEnd>
    requires fits { FitsLayout layout.now }
    requires bounds { bounds_within layout.now ≡ Ok bounds.items }
    requires ops { ops_within layout.now ≡ Ok ops }
    ensures { Gives (plan_with layout.now) result (plan_of layout.now) }
{
    if unit_count(ops.as_slice()) > UNIT_LIMIT {
        return Err(PlanEnd::TooManyUnits);
    }
    let listing = listing_of(alloc, layout, bounds, ops)?;
    Ok(listing)
}

/// The listing with these bounds, or the first limit that is passed after that of words.
fn listing_with<L: Locator>(
    alloc: Global,
    layout: &JobLayout<L>,
    bounds: Vec<u64>,
) -> Result<Listing, PlanEnd>
    requires fits { FitsLayout layout.now }
    requires bounds { bounds_within layout.now ≡ Ok bounds.items }
    ensures { Gives (plan_with layout.now) result (plan_of layout.now) }
{
    match ops_within(alloc, layout) {
        Err(end) => Err(end),
        Ok(ops) => units_within(alloc, layout, bounds, ops),
    }
}

/// The listing of a job that has no more visits than a plan may have, or the first limit that is passed.
fn listing_within<L: Locator>(alloc: Global, layout: &JobLayout<L>) -> Result<Listing, PlanEnd>
    requires fits { FitsLayout layout.now }
    requires segments { IsSortedBy nat_lt (map (λ (p : Part). p.segment) layout.now.parts) }
    ensures { Gives (plan_with layout.now) result (plan_of layout.now) }
{
    match bounds_within(alloc, layout) {
        Err(end) => Err(end),
        Ok(bounds) => listing_with(alloc, layout, bounds),
    }
}

/// The listing on these homes.
fn listing_on<L: Locator>(
    alloc: Global,
    parts: &[Part],
    homes: &[Homes],
    machine: &Machine,
    loc: &L,
) -> Result<Listing, PlanEnd>
    requires homes { HasHomes (record { machine = machine.now; stored = L.tensors loc.now; homes = homes.now; parts = parts.now }) }
    requires fits { FitsLayout (record { machine = machine.now; stored = L.tensors loc.now; homes = homes.now; parts = parts.now }) }
    requires segments { IsSortedBy nat_lt (map (λ (p : Part). p.segment) parts.now) }
    ensures { Gives (plan_with (record { machine = machine.now; stored = L.tensors loc.now; homes = homes.now; parts = parts.now })) result (plan_of (record { machine = machine.now; stored = L.tensors loc.now; homes = homes.now; parts = parts.now })) }
{
    let layout = JobLayout {
        machine,
        loc,
        homes,
        parts,
    };
    listing_within(alloc, &layout)
}

/// The plan of a job of these parts, where each tensor has its placement, or the first limit that is passed: of visits, of
/// words, of operations, of units.
pub fn plan_of<L: Locator>(
    alloc: Global,
    parts: &[Part],
    places: &[Placement],
    machine: &Machine,
    loc: &L,
) -> Result<Plan, PlanEnd>
    requires count { length places.now ≡ length (L.tensors loc.now) }
    requires placements { AllByRecursion (λ (p : Placement). IsPlacement p machine.now) places.now }
    requires segments { IsSortedBy nat_lt (map (λ (p : Part). p.segment) parts.now) }
    requires fits { AllByRecursion (λ (p : Part). FitsStored (L.tensors loc.now) p.sched) parts.now }
    ensures { Gives (λ p. p) result (plan_of (layout_of machine.now (L.tensors loc.now) places.now parts.now)) }
{
    if has_too_many_visits(parts) {
        return Err(PlanEnd::TooManyVisits);
    }
    // Tensors have 32-bit numbers; the homes of more don't fit in memory.
    if places.len() > u32::MAX as usize {
        return Err(PlanEnd::NoMemory);
    }
    let nodes = node_count(machine);
    let homes = all_homes(alloc, places, machine, loc)?;
    match listing_on(alloc, parts, homes.as_slice(), machine, loc) {
        Err(end) => Err(end),
        Ok(listing) => Ok(Plan {
            nodes,
            ops: listing.ops,
            touches: listing.touches,
            homes,
            segments: listing.segments,
            bounds: listing.bounds,
            moves: listing.moves,
            buffers: listing.buffers,
        }),
    }
}
