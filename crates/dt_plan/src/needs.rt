//! The words of scratch on a path.

use dt_runs::Runs;
use std::marker::Model;

/// The scratch of a tensor or workspace, with its words.
#[derive(Debug, Drop)]
pub struct Need {
    pub tensor: u32,
    pub words: Runs,
}

/// The scratch on a path, by tensor.
#[derive(Debug, Drop)]
pub struct Needs {
    pub items: Vec<Need>,
}

impl Model for Needs {
    ghost use Rattle.std.specs.Prelude.{List};
    ghost use Rattle.dt_plan.specs.declared.needs.Need.{Need};

    ghost Value = { List Need };

    ghost view = { λ l. l.items.items };
}

impl Needs {
    ghost use Rattle.std.specs.Prelude.{◌≡◌};

    pub fn as_slice(&self) -> &[Need]
        ensures { result.now ≡ self.now }
    {
        self.items.as_slice()
    }
}
