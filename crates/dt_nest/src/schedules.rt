//! Schedules whose parts are lawful.

ghost use Rattle.std.specs.Prelude.{◌≡◌, IfOk};

use crate::chains::chain_around;
use crate::copies::{access_copied, extents_copied, names_copied, terms_copied};
use crate::derivations::Derivations;
use crate::loops::{Kernel, Nest};
use crate::name_tables::NameTable;
use crate::parts::{MovedList, SchedParts, Works};
use dt_base::{Names, NoMemory, Vars};
use dt_model::Stmt;
use std::alloc::Global;
use std::marker::Model;

/// A schedule whose parts are lawful.
#[derive(Debug, Drop)]
pub struct Sched {
    parts: SchedParts,
}

impl Model for Sched {
    ghost use Rattle.std.specs.Coded.{Coded, codes};
    ghost use Rattle.dt_nest.specs.Schedule.{Schedule, seen};
    ghost use Rattle.dt_nest.specs.TreeCode.{Node, tree_code};
    ghost use Rattle.dt_nest.specs.Lawful.{IsLawful};

    ghost Value = { Schedule };

    ghost coded = { let node : Coded Node = Prim.hlevel codes in Prim.hlevel (codes, tree_code node) };

    ghost view = { λ s. seen s.parts };

    ghost invariant = { λ s. IsLawful (seen s.parts) };
}

impl Sched {
    ghost use Rattle.dt_nest.specs.Schedule.{seen};
    ghost use Rattle.dt_nest.specs.Lawful.{IsLawful};
    ghost use Rattle.dt_nest.specs.Chain.{stmt_schedule, IsSchedulable, MeansStmt};

    /// The schedule of these parts. It takes no memory.
    pub fn from_parts(parts: SchedParts) -> Sched
        requires { IsLawful (seen parts) }
        ensures { result ≡ seen parts }
    {
        Sched { parts }
    }

    /// The parts again. It takes no memory.
    pub fn into_parts(self) -> SchedParts
        ensures parts { seen result ≡ self }
        ensures lawful { IsLawful self }
    {
        let Sched { parts } = self;
        parts
    }

    pub fn parts(&self) -> &SchedParts
        ensures parts { seen result.now ≡ self.now }
        ensures lawful { IsLawful self.now }
    {
        &self.parts
    }

    /// The schedule of a statement before any command, with the names of its variables and of the tensors.
    #[tactic(auto, unfolding(crate::specs::Chain::stmt_schedule))]
    pub fn of_stmt(
        alloc: Global,
        stmt: &Stmt,
        vars: &Names,
        tensors: &Names,
    ) -> Result<Sched, NoMemory>
        requires { IsSchedulable stmt.now vars.now tensors.now }
        ensures schedule { IfOk result (λ s. s ≡ stmt_schedule stmt.now vars.now tensors.now) }
        ensures sums { IfOk result (λ s. MeansStmt stmt.now s) }
    {
        let leaf = Nest::Leaf {
            lhs: access_copied(alloc, &stmt.lhs)?,
            terms: terms_copied(alloc, &stmt.terms)?,
            guards: Vars::new(alloc),
            kernel: Kernel::Plain,
        };
        let parts = SchedParts {
            nest: chain_around(alloc, stmt.extents.as_slice(), leaf)?,
            derived: Derivations::new(alloc),
            distributed: 0,
            moved: MovedList::new(alloc),
            tensors: names_copied(alloc, tensors)?,
            names: NameTable::of(alloc, vars)?,
            extents: extents_copied(alloc, &stmt.extents)?,
            works: Works::new(alloc),
        };
        Ok(Sched::from_parts(parts))
    }
}
