//! Statements with their schedules.

ghost use Rattle.std.specs.Prelude.{◌≡◌, [], ◌∷◌, ◌++◌, OnOk, OnErr};

use dt_base::NoMemory;
use dt_nest::Sched;
use std::alloc::Global;
use std::marker::Model;

/// A statement as it is run: its schedule, whether it adds to its left tensor, and its barrier segment, from 0.
#[derive(Debug, Drop)]
pub struct Part {
    pub sched: Sched,
    pub adds: bool,
    pub segment: u32,
}

/// One part for each statement, in order.
#[derive(Debug, Drop)]
pub struct Parts {
    pub items: Vec<Part>,
}

impl Model for Parts {
    ghost use Rattle.std.specs.Coded.{Coded, codes};
    ghost use Rattle.std.specs.Prelude.{List};
    ghost use Rattle.dt_nest.specs.TreeCode.{Node, tree_code};
    ghost use Rattle.dt_plan.specs.declared.parts.Part.{Part};

    ghost Value = { List Part };

    ghost coded = { let node : Coded Node = Prim.hlevel codes in Prim.hlevel (codes, tree_code node) };

    ghost view = { λ l. l.items.items };
}

impl Parts {
    pub fn new(alloc: Global) -> Parts
        ensures { result ≡ [] }
    {
        Parts {
            items: Vec::new(alloc),
        }
    }

    pub fn as_slice(&self) -> &[Part]
        ensures { result.now ≡ self.now }
    {
        self.items.as_slice()
    }

    /// Puts one part at the end.
    pub fn push(&mut self, part: Part) -> Result<(), NoMemory>
        ensures ok { OnOk result (self.new ≡ self.old ++ part ∷ []) }
        ensures err { OnErr result (self.new ≡ self.old) }
    {
        self.items.push(part)?;
        Ok(())
    }
}
