//! Operations.

ghost use Rattle.std.specs.Prelude.{◌≡◌, [], ◌∷◌, ◌++◌, OnOk, OnErr};

use crate::kind::Kind;
use dt_base::{NoMemory, Vars};
use dt_runs::Runs;
use std::alloc::Global;
use std::marker::Model;

/// One operation of a statement, on a node and a path: the values of the loops from the outermost down to the one at which
/// the tensor is moved. A zero and a workspace have the empty path. A task has tensor 0 and no words.
#[derive(Debug, Drop)]
pub struct Op {
    pub stmt: u32,
    pub node: u32,
    pub path: Vars,
    pub kind: Kind,
    /// The tensor's number; workspaces come after all tensors.
    pub tensor: u32,
    /// The node that a copy comes from or a fold goes to, else the operation's own node.
    pub other: u32,
    /// Positions of the tensor, or words of the workspace.
    pub words: Runs,
    /// How many steps of a run it takes: one for each word of a copy or fold and for each visit of a task, else one.
    pub units: u32,
}

/// Operations, in the order of the listing.
#[derive(Debug, Drop)]
pub struct Ops {
    pub items: Vec<Op>,
}

impl Model for Ops {
    ghost use Rattle.std.specs.Prelude.{List};
    ghost use Rattle.dt_plan.specs.declared.ops.Op.{Op};

    ghost Value = { List Op };

    ghost view = { λ l. l.items.items };
}

impl Ops {
    pub fn new(alloc: Global) -> Ops
        ensures { result ≡ [] }
    {
        Ops {
            items: Vec::new(alloc),
        }
    }

    pub fn as_slice(&self) -> &[Op]
        ensures { result.now ≡ self.now }
    {
        self.items.as_slice()
    }

    /// Puts one operation at the end.
    pub fn push(&mut self, op: Op) -> Result<(), NoMemory>
        ensures ok { OnOk result (self.new ≡ self.old ++ op ∷ []) }
        ensures err { OnErr result (self.new ≡ self.old) }
    {
        self.items.push(op)?;
        Ok(())
    }

    /// Puts other operations behind those that are there.
    pub fn append(&mut self, more: Ops) -> Result<(), NoMemory>
        ensures { OnOk result (self.new ≡ self.old ++ more) }
    {
        for op in more.items {
            self.items.push(op)?;
        }
        Ok(())
    }
}
