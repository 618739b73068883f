//! Plans.

ghost use Rattle.std.specs.Prelude.{◌≡◌, ◌<◌, [], length, nat_lt, position, IfSome, slice_index, slice_index_or};
ghost use Rattle.dt_copy.specs.Sources.{home_at};
ghost use Rattle.dt_plan.specs.Plans.{IsPlan, units_in, over_of};

use crate::ops::{Op, Ops};
use crate::touches::{Buffer, Touch, Touches};
use dt_place::Homes;
use dt_runs::Runs;
use std::marker::Model;

/// Positions that copies and folds move: on one node, between nodes of one group, and between groups.
#[derive(Clone, Copy, Debug)]
pub struct Moves {
    pub local: u64,
    pub group: u64,
    pub across: u64,
}

/// What a job does on its nodes: the operations in the order of the listing with what each one touches, the homes of the
/// tensors, and for each node the words that it needs room for.
#[derive(Drop)]
pub struct Plan {
    pub(crate) nodes: u32,
    pub(crate) ops: Ops,
    pub(crate) touches: Vec<Touches>,
    pub(crate) homes: Vec<Homes>,
    pub(crate) segments: Vec<u32>,
    pub(crate) bounds: Vec<u64>,
    pub(crate) moves: Moves,
    pub(crate) buffers: Vec<Buffer>,
}

impl Model for Plan {
    ghost use Rattle.dt_plan.specs.Limits.{PlanView};
    ghost use Rattle.dt_plan.specs.Plans.{IsPlan};

    ghost Value = { PlanView };

    ghost view = { λ p. record { nodes = p.nodes; ops = p.ops; touches = p.touches.items; homes = p.homes.items; segments = p.segments.items; bounds = p.bounds.items; traffic = record { local = p.moves.local; group = p.moves.group; across = p.moves.across }; buffers = p.buffers.items } };

    ghost invariant = { λ p. IsPlan (record { nodes = p.nodes; ops = p.ops; touches = p.touches.items; homes = p.homes.items; segments = p.segments.items; bounds = p.bounds.items; traffic = record { local = p.moves.local; group = p.moves.group; across = p.moves.across }; buffers = p.buffers.items }) };
}

/// The units of all operations.
pub fn unit_count(ops: &[Op]) -> u64
    requires { length ops.now < 4294967296 }
    ensures { result ≡ units_in ops.now }
{
    let mut count = 0u64;
    for op in ops {
        count += u64::from(op.units);
    }
    count
}

/// The place of the first bound above the capacity.
fn first_over(bounds: &[u64], capacity: u64) -> Option<usize>
    ensures place { result ≡ position (nat_lt capacity) bounds.now }
    ensures within { IfSome result (λ n. n < length bounds.now) }
{
    bounds.iter().position(|bound| capacity < *bound)
}

impl Plan {
    /// The operations, in the order of the listing.
    pub fn ops(&self) -> &[Op]
        ensures ops { result.now ≡ self.now.ops }
        ensures plan { IsPlan self.now }
    {
        self.ops.as_slice()
    }

    /// How many nodes the machine has.
    pub fn nodes(&self) -> u32
        ensures { result ≡ self.now.nodes }
    {
        self.nodes
    }

    /// The words that a node needs room for: its homes, and the most that the statements of a barrier segment open.
    pub fn bound(&self, node: u32) -> u64
        requires { node < self.now.nodes }
        ensures { result ≡ slice_index self.now.bounds node }
    {
        self.bounds[node as usize]
    }

    /// The least node whose bound is above the capacity in words, with that bound; none where no bound is.
    pub fn over(&self, capacity: u64) -> Option<(u32, u64)>
        ensures { result ≡ over_of self.now.bounds capacity }
    {
        match first_over(self.bounds.as_slice(), capacity) {
            None => None,
            Some(node) => Some((node as u32, self.bounds[node])),
        }
    }

    /// The positions that copies and folds move on one node, between nodes of one group, and between groups.
    pub fn traffic(&self) -> (u64, u64, u64)
        ensures { result ≡ (self.now.traffic.local, self.now.traffic.group, self.now.traffic.across) }
    {
        (self.moves.local, self.moves.group, self.moves.across)
    }

    /// The units of all operations.
    pub fn units(&self) -> u64
        ensures { result ≡ units_in self.now.ops }
    {
        unit_count(self.ops.as_slice())
    }

    /// The buffers of a node: homes by tensor, scratch by statement and tensor, workspaces by statement and number.
    pub fn buffers(&self, node: u32) -> &[Buffer]
        requires { node < self.now.nodes }
        ensures { result.now ≡ self.now.buffers }
    {
        self.buffers.as_slice()
    }

    /// What an operation touches, by its place in the listing.
    pub fn touches(&self, op: u32) -> &[Touch]
        requires { op < length self.now.ops }
        ensures { result.now ≡ slice_index_or self.now.touches op [] }
    {
        self.touches[op as usize].as_slice()
    }

    /// The positions of a tensor that a node is home to.
    pub fn home(&self, tensor: u32, node: u32) -> &Runs
        requires tensor { tensor < length self.now.homes }
        requires node { node < self.now.nodes }
        ensures { result.now ≡ home_at (slice_index_or self.now.homes tensor []) node }
    {
        &self.homes[tensor as usize].as_slice()[node as usize]
    }

    /// The barrier segment of a statement, from 0.
    pub fn segment(&self, stmt: u32) -> u32
        requires { stmt < length self.now.segments }
        ensures { result ≡ slice_index self.now.segments stmt }
    {
        self.segments[stmt as usize]
    }
}
