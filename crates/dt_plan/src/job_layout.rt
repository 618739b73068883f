//! A job as its plan is made.

use crate::parts::Part;
use dt_model::Locator;
use dt_place::{Homes, Machine};
use std::marker::Model;

/// A machine, where the words of the tensors lie, the homes of each tensor by node, and the parts of the statements in order.
#[derive(Drop)]
pub struct JobLayout<'a, L: Locator> {
    pub machine: &'a Machine,
    pub loc: &'a L,
    pub homes: &'a [Homes],
    pub parts: &'a [Part],
}

impl<'a, L: Locator> Model for JobLayout<'a, L> {
    ghost use Rattle.std.specs.Coded.{Coded, codes};
    ghost use Rattle.dt_nest.specs.TreeCode.{Node, tree_code};
    ghost use Rattle.dt_plan.specs.Layouts.{Layout};
    ghost use Rattle.dt_plan.specs.Statements.{HasHomes};

    ghost Value = { Layout };

    ghost coded = { let node : Coded Node = Prim.hlevel codes in Prim.hlevel (codes, tree_code node) };

    ghost view = { λ a. record { machine = a.machine.now; stored = L.tensors a.loc.now; homes = a.homes.now; parts = a.parts.now } };

    ghost invariant = { λ a. HasHomes (record { machine = a.machine.now; stored = L.tensors a.loc.now; homes = a.homes.now; parts = a.parts.now }) };
}
