//! A job with its plan.

ghost use Rattle.std.specs.Prelude.{◌≡◌, ◌<◌, length};
ghost use Rattle.dt_place.specs.Machines.{nodes_of};
ghost use Rattle.dt_plan.specs.Operations.{ops_of};
ghost use Rattle.dt_plan.specs.Bounds.{buffers_of};
ghost use Rattle.dt_events.specs.Jobs.{op_at};

use dt_model::Locator;
use dt_place::Machine;
use dt_plan::{Buffer, Op, Part, Plan};
use std::marker::Model;

/// A machine, where the words of the tensors lie, the parts of the statements in order, and their plan.
#[derive(Drop)]
pub struct Job<'p, L: Locator> {
    pub(crate) machine: &'p Machine,
    pub(crate) loc: &'p L,
    pub(crate) parts: &'p [Part],
    pub(crate) plan: &'p Plan,
}

impl<'p, L: Locator> Model for Job<'p, L> {
    ghost use Rattle.std.specs.Coded.{Coded, codes};
    ghost use Rattle.dt_nest.specs.TreeCode.{Node, tree_code};
    ghost use Rattle.dt_plan.specs.Layouts.{Layout};
    ghost use Rattle.dt_sim.specs.Planned.{IsPlanned, planned_layout};

    ghost Value = { Layout };

    ghost coded = { let node : Coded Node = Prim.hlevel codes in Prim.hlevel (codes, tree_code node) };

    ghost view = { λ a. planned_layout a.machine.now (L.tensors a.loc.now) a.plan.now a.parts.now };

    ghost invariant = { λ a. IsPlanned (planned_layout a.machine.now (L.tensors a.loc.now) a.plan.now a.parts.now) a.plan.now };
}

impl<'p, L: Locator> Job<'p, L> {
    /// The operations, in the order of the listing.
    pub(crate) fn ops(&self) -> &'p [Op]
        ensures { result.now ≡ ops_of self.now }
    {
        let plan = self.plan;
        plan.ops()
    }

    /// One operation, by its place in the listing.
    pub(crate) fn op(&self, op: u32) -> &'p Op
        requires { op < length (ops_of self.now) }
        ensures { result.now ≡ op_at (ops_of self.now) op }
    {
        let ops = self.ops();
        &ops[op as usize]
    }

    /// The buffers that each node has.
    pub(crate) fn buffers(&self, node: u32) -> &'p [Buffer]
        requires { node < nodes_of self.now.machine }
        ensures { result.now ≡ buffers_of self.now }
    {
        let plan = self.plan;
        plan.buffers(node)
    }
}
