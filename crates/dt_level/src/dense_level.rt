//! Levels that store every coordinate.

ghost use Rattle.std.specs.Prelude.{◌≡◌, ◌*◌, ◌^◌, ◌<◌, replicate};
ghost use Rattle.dt_base.specs.Ranges.{below};

use crate::levels::Level;
use std::marker::Model;

/// A level at which each parent has a child for every coordinate below the extent.
#[derive(Debug, Drop)]
pub struct Dense {
    extent: u32,
    parents: u32,
}

impl Model for Dense {
    ghost use Rattle.std.specs.Prelude.{◌*◌, ◌^◌, ◌<◌, List, ℕ, replicate};
    ghost use Rattle.dt_base.specs.Ranges.{below};

    ghost Value = { List (List ℕ) };

    ghost view = { λ d. replicate d.parents (below d.extent) };

    ghost invariant = { λ d. d.parents * d.extent < 2 ^ 32 };
}

impl Dense {
    /// The level of this extent behind so many parents.
    pub fn new(extent: u32, parents: u32) -> Dense
        requires { parents * extent < 2 ^ 32 }
        ensures { result ≡ replicate parents (below extent) }
    {
        Dense { extent, parents }
    }
}

impl Level for Dense {
    ghost level = { λ l. l };

    fn children(&self, _parent: u32) -> u32 {
        self.extent
    }

    fn child(&self, parent: u32, k: u32) -> (u32, u32) {
        (k, parent * self.extent + k)
    }

    fn find(&self, parent: u32, x: u32) -> Option<u32> {
        if x >= self.extent {
            return None;
        }
        Some(parent * self.extent + x)
    }

    fn at_least(&self, _parent: u32, x: u32) -> u32 {
        x.min(self.extent)
    }
}
