//! What a job shows.

ghost use Rattle.std.specs.Prelude.{◌≡◌, [], ◌∷◌, ◌++◌, length, OnOk, OnErr};

use dt_base::NoMemory;
use std::alloc::Global;
use std::marker::Model;

/// An output line.
#[derive(Clone, Copy, Debug, PartialEq, Eq)]
pub enum Show {
    /// The tensor with this number is printed.
    Print(u32),
}

/// Output lines, in order.
#[derive(Debug, Drop)]
pub struct Shows {
    pub items: Vec<Show>,
}

impl Model for Shows {
    ghost use Rattle.std.specs.Prelude.{List};
    ghost use Rattle.dt_job.specs.declared.outputs.Show.{Show};

    ghost Value = { List Show };

    ghost view = { λ l. l.items.items };
}

impl Shows {
    pub fn new(alloc: Global) -> Shows
        ensures { result ≡ [] }
    {
        Shows {
            items: Vec::new(alloc),
        }
    }

    pub fn as_slice(&self) -> &[Show]
        ensures { result.now ≡ self.now }
    {
        self.items.as_slice()
    }

    pub fn len(&self) -> usize
        ensures { result ≡ length self.now }
    {
        self.items.len()
    }

    /// Puts one output line at the end.
    pub fn push(&mut self, show: Show) -> Result<(), NoMemory>
        ensures ok { OnOk result (self.new ≡ self.old ++ show ∷ []) }
        ensures err { OnErr result (self.new ≡ self.old) }
    {
        self.items.push(show)?;
        Ok(())
    }
}
