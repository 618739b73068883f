//! Homes of tensors.

ghost use Rattle.std.specs.Prelude.{◌≡◌, ◌≤◌, ◌<◌, ◌^◌, [], ◌∷◌, ◌++◌, IfOk, IfSome, OnOk, filter, length, map, position, if◌then◌else◌};
ghost use Rattle.dt_base.specs.Ranges.{below};
ghost use Rattle.dt_model.specs.Positions.{coords_at, tensor_at};
ghost use Rattle.dt_base.specs.Rows.{product};
ghost use Rattle.dt_runs.specs.Boxes.{AreCorners, box_numbers};
ghost use Rattle.dt_runs.specs.Sets.{contains};
ghost use Rattle.dt_place.specs.Homes.{all_allow, allows, home_of, homes_on, inside_of, is_in_block, lies_in};
ghost use Rattle.dt_place.specs.Machines.{dims_of, nodes_of};
ghost use Rattle.dt_place.specs.Placements.{IsPlacement};
ghost use Rattle.dt_place.specs.declared.placements.Placement.TheVariants.{ByNames};

use crate::blocks::block;
use crate::home_list::Homes;
use crate::machines::Machine;
use crate::placements::{Placement, Symbol};
use crate::sides::{Side, sides_at};
use dt_base::NoMemory;
use dt_model::Locator;
use dt_runs::Runs;
use std::alloc::Global;

/// The positions of the tensor that a node is home to. The placement is the default, or one that a line gave for this
/// machine.
pub fn home<L: Locator>(
    alloc: Global,
    placement: &Placement,
    machine: &Machine,
    loc: &L,
    tensor: u32,
    node: u32,
) -> Result<Runs, NoMemory>
    requires placement { IsPlacement placement.now machine.now }
    requires tensor { tensor < length (L.tensors loc.now) }
    requires node { node < nodes_of machine.now }
    ensures { IfOk result (λ runs. runs ≡ home_of placement.now machine.now (tensor_at (L.tensors loc.now) tensor) node) }
{
    let count = loc.count(tensor);
    match placement {
        Placement::FirstNode => {
            if node == 0 {
                between(alloc, count, 0, count)
            } else {
                Ok(Runs::empty(alloc))
            }
        }
        Placement::ByNames(symbols) => by_names(
            alloc,
            symbols.as_slice(),
            machine,
            loc,
            tensor,
            node,
        ),
        Placement::ByPositions => {
            let (from, to) = block(count, machine.nodes(), node);
            between(alloc, count, from, to)
        }
    }
}

/// The positions of the tensor that each node is home to.
pub fn homes_on<L: Locator>(
    alloc: Global,
    placement: &Placement,
    machine: &Machine,
    loc: &L,
    tensor: u32,
) -> Result<Homes, NoMemory>
    requires placement { IsPlacement placement.now machine.now }
    requires tensor { tensor < length (L.tensors loc.now) }
    ensures homes { IfOk result (λ homes. homes ≡ homes_on placement.now machine.now (tensor_at (L.tensors loc.now) tensor)) }
    ensures count { IfOk result (λ homes. length homes ≡ nodes_of machine.now) }
{
    let mut items = Vec::new(alloc);
    for node in 0..machine.nodes() {
        items.push(home(alloc, placement, machine, loc, tensor, node)?)?;
    }
    Ok(Homes { items })
}

/// The least node whose home has the position, and none where no home has it.
pub fn first_holder(homes: &[Runs], pos: u32) -> Option<u32>
    requires { length homes.now < 2 ^ 32 }
    ensures { result ≡ position (λ home. contains home pos) homes.now }
{
    match holder(homes, pos) {
        Some(node) => Some(node as u32),
        None => None,
    }
}

fn holder(homes: &[Runs], pos: u32) -> Option<usize>
    ensures place { result ≡ position (λ home. contains home pos) homes.now }
    ensures within { IfSome result (λ k. k < length homes.now) }
{
    homes.iter().position(|home| has(home, pos))
}

fn has(home: &Runs, pos: u32) -> bool
    ensures { result ≡ contains home.now pos }
{
    home.rank(pos).is_some()
}

/// The home on a node of a tensor that is placed by names.
fn by_names<L: Locator>(
    alloc: Global,
    symbols: &[Symbol],
    machine: &Machine,
    loc: &L,
    tensor: u32,
    node: u32,
) -> Result<Runs, NoMemory>
    requires symbols { length symbols.now ≡ length (dims_of machine.now) }
    requires tensor { tensor < length (L.tensors loc.now) }
    requires node { node < nodes_of machine.now }
    ensures { IfOk result (λ runs. runs ≡ home_of (ByNames symbols.now) machine.now (tensor_at (L.tensors loc.now) tensor) node) }
{
    let dims = machine.dims();
    let all = machine.coords(node);
    let coords = &all[..dims.len()];
    if !all_allow(symbols, coords) {
        return Ok(Runs::empty(alloc));
    }
    let shape = loc.shape(tensor);
    let sides = sides_at(alloc, shape.dims(), symbols, dims, coords)?;
    if loc.cost(tensor) == 1 {
        boxed(alloc, shape.dims(), sides.as_slice())
    } else {
        inside(alloc, loc, tensor, sides.as_slice())
    }
}

/// The row-major numbers of the indices that lie in these sides: the positions of a tensor whose levels are dense,
/// in time linear in their intervals.
fn boxed(alloc: Global, extents: &[u32], sides: &[Side]) -> Result<Runs, NoMemory>
    requires corners { AreCorners extents.now (map (λ s. s.from) sides.now) (map (λ s. s.to) sides.now) }
    requires small { product extents.now < 2 ^ 32 }
    ensures { IfOk result (λ runs. runs ≡ box_numbers extents.now (map (λ s. s.from) sides.now) (map (λ s. s.to) sides.now)) }
{
    let los: Vec<u32> = sides.iter().map(|side| side.from).collect(alloc)?;
    let his: Vec<u32> = sides.iter().map(|side| side.to).collect(alloc)?;
    Runs::of_box(alloc, extents, los.as_slice(), his.as_slice())
}

/// Whether each symbol allows the tensor at these coordinates of a node.
fn all_allow(symbols: &[Symbol], node: &[u32]) -> bool
    ensures { result ≡ all_allow symbols.now node.now }
{
    symbols
        .iter()
        .zip(node)
        .all(|(symbol, q)| allows(*symbol, *q))
}

fn allows(symbol: Symbol, q: u32) -> bool
    ensures { result ≡ allows symbol q }
{
    match symbol {
        Symbol::Along(_) => true,
        Symbol::At(constant) => u32::from(constant) == q,
        Symbol::Every => true,
    }
}

/// The positions whose coordinates lie in these sides.
fn inside<L: Locator>(alloc: Global, loc: &L, tensor: u32, sides: &[Side]) -> Result<Runs, NoMemory>
    requires { tensor < length (L.tensors loc.now) }
    ensures { IfOk result (λ runs. runs ≡ inside_of sides.now (tensor_at (L.tensors loc.now) tensor)) }
{
    let mut list = Vec::new(alloc);
    let count = loc.count(tensor);
    for pos in 0..count {
        let coords = loc.coords(tensor, pos);
        push_if(&mut list, pos, lies_in(sides, coords.as_slice()))?;
    }
    Runs::from_sorted(alloc, list.as_slice())
}

fn push_if(list: &mut Vec<u32>, pos: u32, passes: bool) -> Result<(), NoMemory>
    ensures ok { OnOk result (list.new.items ≡ list.old.items ++ (if passes then pos ∷ [] else [])) }
{
    if passes {
        list.push(pos)?;
    }
    Ok(())
}

fn lies_in(sides: &[Side], coords: &[u32]) -> bool
    ensures { result ≡ lies_in sides.now coords.now }
{
    coords
        .iter()
        .zip(sides)
        .all(|(x, side)| side.from <= *x && *x < side.to)
}

/// The numbers below `count` from one up to, not including, another.
fn between(alloc: Global, count: u32, from: u32, to: u32) -> Result<Runs, NoMemory>
    requires order { from ≤ to }
    requires within { to ≤ count }
    ensures { IfOk result (λ runs. runs ≡ filter (λ pos. is_in_block pos (from, to)) (below count)) }
{
    Runs::of_box(alloc, &[count], &[from], &[to])
}
