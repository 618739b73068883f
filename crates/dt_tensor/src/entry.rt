//! Given entries of a tensor.

ghost use Rattle.std.specs.Prelude.{◌≡◌, [], ◌∷◌, ◌++◌, OnOk, OnErr};

use dt_base::{Coords, NoMemory};
use std::alloc::Global;
use std::marker::Model;

/// A number at coordinates of a tensor.
#[derive(Debug, Drop)]
pub struct Given {
    pub at: Coords,
    pub value: u64,
}

/// The entries that are given of a tensor, in order.
#[derive(Debug, Drop)]
pub struct Entries {
    pub items: Vec<Given>,
}

impl Model for Entries {
    ghost use Rattle.std.specs.Prelude.{List};
    ghost use Rattle.dt_tensor.specs.declared.entry.Given.{Given};

    ghost Value = { List Given };

    ghost view = { λ l. l.items.items };
}

impl Entries {
    pub fn new(alloc: Global) -> Entries
        ensures { result ≡ [] }
    {
        Entries {
            items: Vec::new(alloc),
        }
    }

    pub fn as_slice(&self) -> &[Given]
        ensures { result.now ≡ self.now }
    {
        self.items.as_slice()
    }

    /// Puts one entry at the end.
    pub fn push(&mut self, entry: Given) -> Result<(), NoMemory>
        ensures ok { OnOk result (self.new ≡ self.old ++ entry ∷ []) }
        ensures err { OnErr result (self.new ≡ self.old) }
    {
        self.items.push(entry)?;
        Ok(())
    }
}
