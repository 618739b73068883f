//! The parts of a schedule.

ghost use Rattle.std.specs.Prelude.{◌≡◌, IfOk, OnOk, OnErr, [], ◌∷◌, ◌++◌};

use crate::copies::extents_copied;
use crate::derivations::Derivations;
use crate::loops::Nest;
use crate::name_tables::NameTable;
use dt_base::{Extents, Name, Names, NoMemory};
use std::alloc::Global;
use std::marker::Model;

/// A tensor that a command communicates, and at which loop.
#[derive(Clone, Copy, Debug)]
pub struct Moved {
    pub tensor: u32,
    pub at: u32,
}

/// Tensors with their communicate loops, in the order of the commands.
#[derive(Debug, Drop)]
pub struct MovedList {
    pub items: Vec<Moved>,
}

impl Model for MovedList {
    ghost use Rattle.std.specs.Prelude.{List};
    ghost use Rattle.dt_nest.specs.declared.parts.Moved.{Moved};

    ghost Value = { List Moved };

    ghost view = { λ l. l.items.items };
}

impl MovedList {
    pub fn new(alloc: Global) -> MovedList
        ensures { result ≡ [] }
    {
        MovedList {
            items: Vec::new(alloc),
        }
    }

    pub fn as_slice(&self) -> &[Moved]
        ensures { result.now ≡ self.now }
    {
        self.items.as_slice()
    }

    pub fn copied(&self, alloc: Global) -> Result<MovedList, NoMemory>
        ensures { IfOk result (λ l. l ≡ self.now) }
    {
        let items = Vec::from_slice(alloc, self.items.as_slice())?;
        Ok(MovedList { items })
    }

    /// Puts one tensor with its loop at the end.
    pub fn push(&mut self, moved: Moved) -> Result<(), NoMemory>
        ensures ok { OnOk result (self.new ≡ self.old ++ moved ∷ []) }
        ensures err { OnErr result (self.new ≡ self.old) }
    {
        self.items.push(moved)?;
        Ok(())
    }
}

/// A workspace: its name, and the extents that its loops had when it was made.
#[derive(Debug, Drop)]
pub struct Work {
    pub name: Name,
    pub extents: Extents,
}

/// Workspaces, by number.
#[derive(Debug, Drop)]
pub struct Works {
    pub items: Vec<Work>,
}

impl Model for Works {
    ghost use Rattle.std.specs.Prelude.{List};
    ghost use Rattle.dt_nest.specs.declared.parts.Work.{Work};

    ghost Value = { List Work };

    ghost view = { λ l. l.items.items };
}

impl Work {
    pub fn copied(&self, alloc: Global) -> Result<Work, NoMemory>
        ensures { IfOk result (λ w. w ≡ self.now) }
    {
        let extents = extents_copied(alloc, &self.extents)?;
        Ok(Work {
            name: self.name.copied(),
            extents,
        })
    }
}

fn copy_works(alloc: Global, works: &[Work]) -> Result<Vec<Work>, NoMemory>
    ensures { IfOk result (λ v. v.items ≡ works.now) }
{
    let mut items = Vec::new(alloc);
    for work in works {
        items.push(work.copied(alloc)?)?;
    }
    Ok(items)
}

impl Works {
    pub fn new(alloc: Global) -> Works
        ensures { result ≡ [] }
    {
        Works {
            items: Vec::new(alloc),
        }
    }

    pub fn as_slice(&self) -> &[Work]
        ensures { result.now ≡ self.now }
    {
        self.items.as_slice()
    }

    pub fn copied(&self, alloc: Global) -> Result<Works, NoMemory>
        ensures { IfOk result (λ l. l ≡ self.now) }
    {
        let items = copy_works(alloc, self.items.as_slice())?;
        Ok(Works { items })
    }

    /// Puts one workspace at the end.
    pub fn push(&mut self, work: Work) -> Result<(), NoMemory>
        ensures ok { OnOk result (self.new ≡ self.old ++ work ∷ []) }
        ensures err { OnErr result (self.new ≡ self.old) }
    {
        self.items.push(work)?;
        Ok(())
    }
}

/// The parts of a schedule: the nest, the derivations, how many of the outermost loops are distributed, the
/// communicate loops, the names of the tensors, the names of loops and variables, past or present, with the extent of
/// each, and the workspaces.
#[derive(Debug, Drop)]
pub struct SchedParts {
    pub nest: Nest,
    pub derived: Derivations,
    pub distributed: u32,
    pub moved: MovedList,
    pub tensors: Names,
    pub names: NameTable,
    pub extents: Extents,
    pub works: Works,
}
