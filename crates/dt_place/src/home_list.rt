//! Homes of one tensor on all nodes.

use dt_runs::Runs;
use std::marker::Model;

/// The positions that each node is home to, in the nodes' order.
#[derive(Debug, Drop)]
pub struct Homes {
    pub items: Vec<Runs>,
}

impl Model for Homes {
    ghost use Rattle.std.specs.Prelude.{List, ℕ};

    ghost Value = { List (List ℕ) };

    ghost view = { λ l. l.items.items };
}

impl Homes {
    ghost use Rattle.std.specs.Prelude.{◌≡◌};

    pub fn as_slice(&self) -> &[Runs]
        ensures { result.now ≡ self.now }
    {
        self.items.as_slice()
    }
}
