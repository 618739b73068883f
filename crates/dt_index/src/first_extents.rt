//! The extents of variables where they first stand.

ghost use Rattle.std.specs.Prelude.{◌≡◌, [], OnOk};
ghost use Rattle.dt_index.specs.NameSets.{noted, with_first};

use dt_base::{Name, NoMemory};
use indexmap::IndexMap;
use std::alloc::Global;
use std::marker::Model;

/// One extent for each of some variables. They are looked up by their hash.
#[derive(Drop)]
pub struct FirstExtents {
    map: IndexMap<Name, u32>,
}

impl Model for FirstExtents {
    ghost use Rattle.std.specs.Prelude.{List, ℕ};

    ghost Value = { List (List ℕ × ℕ) };

    ghost view = { λ m. m.map.entries };
}

impl FirstExtents {
    pub fn new(alloc: Global) -> FirstExtents
        ensures { result ≡ [] }
    {
        FirstExtents {
            map: IndexMap::new(alloc),
        }
    }

    /// The extent of the variable, none where it has none yet.
    pub fn get(&self, variable: &Name) -> Option<u32>
        ensures { result ≡ noted self.now variable.now }
    {
        self.map.get(variable).copied()
    }

    /// Notes the extent, unless the variable has one.
    pub fn note(&mut self, variable: &Name, extent: u32) -> Result<(), NoMemory>
        ensures { OnOk result (self.new ≡ with_first self.old variable.now extent) }
    {
        if self.get(variable).is_none() {
            self.map.insert(variable.copied(), extent)?;
        }
        Ok(())
    }
}
