//! Machines.

ghost use Rattle.std.specs.Prelude.{◌≡◌, ◌≤◌, ◌<◌, ◌-◌, ◌==◌, ◌↔◌, [], ◌∷◌, IsTrue, IfOk, IfSome, None, length, take, drop, replicate, slice_index_or};
ghost use Rattle.std.specs.List.{AllByRecursion, AllPass, list_all, zip};
ghost use Rattle.dt_base.specs.Ranges.{assignments};
ghost use Rattle.dt_base.specs.Rows.{product, row_major};
ghost use Rattle.dt_model.specs.Steps.{Gives};
ghost use Rattle.dt_place.specs.Machines.{are_dims, is_dim};

use dt_base::{Bytes, Extents, NoMemory};
use dt_model::{Cause, LineEnd};
use std::alloc::Global;
use std::marker::Model;

/// A grid of nodes: 1 to 3 levels with 1 to 6 dimensions in all, and 1 to 64 nodes.
#[derive(Debug, Drop)]
pub struct Machine {
    dims: Extents,
    levels: Vec<Extents>,
    nodes: u32,
    memory: Option<u64>,
}

impl Model for Machine {
    ghost use Rattle.std.specs.Prelude.{◌≡◌};
    ghost use Rattle.dt_base.specs.Rows.{product};
    ghost use Rattle.dt_place.specs.Machines.{MachineView, IsMachine, dims_of, nodes_of};

    ghost Value = { MachineView };

    ghost view = { λ m. record { levels = m.levels.items; memory = m.memory } };

    ghost invariant = { λ m. IsMachine (record { levels = m.levels.items; memory = m.memory })
        × (m.dims ≡ dims_of (record { levels = m.levels.items; memory = m.memory })) × (m.nodes ≡ product m.dims) };
}

impl Machine {
    ghost use Rattle.dt_place.specs.MachineLine.{machine_with};
    ghost use Rattle.dt_place.specs.Machines.{IsMachine, dims_of, nodes_of, node_coords, group_of};
    ghost use Rattle.dt_place.specs.PlaceLine.{have_dims};

    /// The machine with one level of these dimensions and no bound on memory, or BadDim.
    #[tactic(auto, unfolding(crate::specs::MachineLine::machine_with))]
    pub(crate) fn of_level(alloc: Global, dims: &[u64]) -> Result<Machine, LineEnd>
        ensures { Gives (λ m. m) result (machine_with (dims.now ∷ []) None) }
    {
        if !are_dims(dims) {
            return Err(LineEnd::Refused(Cause::BadDim));
        }
        let nodes = product(dims) as u32;
        let dims = narrowed(alloc, dims)?;
        let first = Extents::from_slice(alloc, dims.as_slice())?;
        let mut levels = Vec::new(alloc);
        levels.push(first)?;
        Ok(Machine {
            dims,
            levels,
            nodes,
            memory: None,
        })
    }

    /// The dimensions of all levels, in order.
    pub fn dims(&self) -> &[u32]
        ensures dims { result.now ≡ dims_of self.now }
        ensures lawful { IsMachine self.now }
        ensures few { length result.now ≤ 6 }
        ensures each { AllByRecursion (λ n. 1 ≤ n) result.now }
    {
        self.dims.as_slice()
    }

    /// How many nodes there are.
    pub fn nodes(&self) -> u32
        ensures count { result ≡ nodes_of self.now }
        ensures some { 1 ≤ result }
        ensures few { result ≤ 64 }
    {
        self.nodes
    }

    /// A node's coordinates, in the first places. The others are 0.
    pub fn coords(&self, node: u32) -> [u32; 6]
        requires { node < nodes_of self.now }
        ensures coords { take (length (dims_of self.now)) result ≡ node_coords self.now node }
        ensures rest { drop (length (dims_of self.now)) result ≡ replicate (6 - length (dims_of self.now)) 0 }
    {
        coordinates(self.dims(), self.nodes, node)
    }

    /// The node with these coordinates, and none where there are too few, too many, or one is out of range.
    pub fn number(&self, c: &[u32]) -> Option<u32>
        ensures node { result ≡ row_major (dims_of self.now) c.now }
        ensures within { IfSome result (λ node. node < nodes_of self.now) }
    {
        number_in(self.dims(), c)
    }

    /// Whether the levels have as many dimensions as these have symbols.
    pub(crate) fn has_levels(&self, levels: &[Bytes]) -> bool
        ensures { result ≡ have_dims levels.now self.now.levels }
    {
        levels.len() == self.levels.len() && have_lengths(levels, self.levels.as_slice())
    }

    /// Whether two nodes have the same coordinates at the first level.
    pub fn same_group(&self, a: u32, b: u32) -> bool
        requires a { a < nodes_of self.now }
        requires b { b < nodes_of self.now }
        ensures { IsTrue result ↔ (group_of self.now a ≡ group_of self.now b) }
    {
        let first = self.levels.as_slice()[0].len();
        self.coords(a)[..first] == self.coords(b)[..first]
    }
}

/// Whether each text has as many bytes as its level has dimensions.
fn have_lengths(texts: &[Bytes], levels: &[Extents]) -> bool
    ensures { result ≡ list_all (λ p. length p.0 == length p.1) (zip texts.now levels.now) }
{
    texts
        .iter()
        .zip(levels)
        .all(|(text, level)| text.len() == level.len())
}

/// Whether there are 1 to 6 dimensions, none 0, with at most 64 nodes.
fn are_dims(dims: &[u64]) -> bool
    ensures { result ≡ are_dims dims.now }
{
    !dims.is_empty() && dims.len() <= 6 && are_small(dims) && product(dims) <= 64
}

fn are_small(dims: &[u64]) -> bool
    ensures { result ≡ list_all is_dim dims.now }
{
    dims.iter().all(|n| 1 <= *n && *n <= 64)
}

fn product(dims: &[u64]) -> u64
    requires few { length dims.now ≤ 6 }
    requires small { AllPass is_dim dims.now }
    ensures { result ≡ product dims.now }
{
    let mut product = 1u64;
    for n in dims {
        product *= *n;
    }
    product
}

/// The same dimensions.
fn narrowed(alloc: Global, dims: &[u64]) -> Result<Extents, NoMemory>
    requires { AllPass is_dim dims.now }
    ensures { IfOk result (λ ns. ns ≡ dims.now) }
{
    let mut narrow = Extents::new(alloc);
    for n in dims {
        narrow.push(*n as u32)?;
    }
    Ok(narrow)
}

/// The coordinates with this row-major number, in the first places, and zeros behind them.
fn coordinates(dims: &[u32], nodes: u32, number: u32) -> [u32; 6]
    requires few { length dims.now ≤ 6 }
    requires nodes { nodes ≡ product dims.now }
    requires within { number < nodes }
    ensures coords { take (length dims.now) result ≡ slice_index_or (assignments dims.now) number [] }
    ensures rest { drop (length dims.now) result ≡ replicate (6 - length dims.now) 0 }
{
    let mut all = [0u32; 6];
    let mut size = nodes;
    let mut rest = number;
    for (i, n) in dims.iter().enumerate() {
        size /= *n;
        all[i] = rest / size;
        rest %= size;
    }
    all
}

/// The row-major number of these coordinates, where they are some of these dimensions.
fn number_in(dims: &[u32], c: &[u32]) -> Option<u32>
    requires each { AllByRecursion (λ n. 1 ≤ n) dims.now }
    requires few { product dims.now ≤ 64 }
    ensures { result ≡ row_major dims.now c.now }
{
    if c.len() != dims.len() {
        return None;
    }
    let mut number = 0u32;
    for (i, x) in c.iter().enumerate() {
        if *x >= dims[i] {
            return None;
        }
        number = number * dims[i] + *x;
    }
    Some(number)
}
