//! Coordinates.

ghost use Rattle.std.specs.Prelude.{◌≡◌, ◌≤◌, length};

use smallvec::SmallVec;
use std::alloc::Global;
use std::marker::Model;

/// The coordinates of an index of a tensor, in order. Up to four take no memory.
#[derive(Debug, Drop)]
pub struct Coords {
    pub items: SmallVec<u32, 4>,
}

impl Model for Coords {
    ghost use Rattle.std.specs.Prelude.{List, ℕ};

    ghost Value = { List ℕ };

    ghost view = { λ c. c.items.items };
}

impl Coords {
    /// At most four coordinates, which take no memory.
    pub fn of_few(alloc: Global, items: &[u32]) -> Coords
        requires { length items.now ≤ 4 }
        ensures { result ≡ items.now }
    {
        Coords {
            items: SmallVec::from_slice(alloc, items).unwrap(),
        }
    }

    pub fn as_slice(&self) -> &[u32]
        ensures { result.now ≡ self.now }
    {
        self.items.as_slice()
    }
}
