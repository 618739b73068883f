//! Occurrences of variables, and lists of them.

ghost use Rattle.std.specs.Prelude.{◌≡◌, [], ◌∷◌, ◌++◌, OnOk, OnErr};

use dt_base::{Name, NoMemory};
use std::alloc::Global;
use std::marker::Model;

/// A variable where it stands: its name, and the extent of the dimension there.
#[derive(Debug, Drop)]
pub struct Occurrence {
    pub name: Name,
    pub extent: u32,
}

/// Occurrences, in order.
#[derive(Debug, Drop)]
pub struct Occurrences {
    pub items: Vec<Occurrence>,
}

impl Model for Occurrences {
    ghost use Rattle.std.specs.Prelude.{List};
    ghost use Rattle.dt_index.specs.declared.occurrence_list.Occurrence.{Occurrence};

    ghost Value = { List Occurrence };

    ghost view = { λ l. l.items.items };
}

impl Occurrences {
    pub fn new(alloc: Global) -> Occurrences
        ensures { result ≡ [] }
    {
        Occurrences {
            items: Vec::new(alloc),
        }
    }

    pub fn as_slice(&self) -> &[Occurrence]
        ensures { result.now ≡ self.now }
    {
        self.items.as_slice()
    }

    /// Puts one occurrence at the end.
    pub fn push(&mut self, occurrence: Occurrence) -> Result<(), NoMemory>
        ensures ok { OnOk result (self.new ≡ self.old ++ occurrence ∷ []) }
        ensures err { OnErr result (self.new ≡ self.old) }
    {
        self.items.push(occurrence)?;
        Ok(())
    }
}
