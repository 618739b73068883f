//! The levels of a list of tensors.

ghost use Rattle.std.specs.Prelude.{◌≡◌, ◌<◌, ◌∷◌, ◌++◌, [], Some, length, slice_get, OnOk};

use crate::tensor_levels::TensorLevels;
use dt_base::{Coords, NoMemory};
use dt_model::{Locator, Shape};
use std::alloc::Global;
use std::marker::Model;

/// Where the words of tensors lie, by number, apart from the numbers that stand there.
#[derive(Debug, Drop)]
pub struct Levels {
    items: Vec<TensorLevels>,
}

impl Model for Levels {
    ghost use Rattle.std.specs.Prelude.{List};
    ghost use Rattle.dt_model.specs.Positions.{StoredTensor};

    ghost Value = { List StoredTensor };

    ghost view = { λ l. l.items.items };
}

impl Levels {
    pub fn new(alloc: Global) -> Levels
        ensures { result ≡ [] }
    {
        Levels {
            items: Vec::new(alloc),
        }
    }

    /// Puts those of one tensor at the end.
    pub fn push(&mut self, levels: TensorLevels) -> Result<(), NoMemory>
        ensures { OnOk result (self.new ≡ self.old ++ levels ∷ []) }
    {
        self.items.push(levels)?;
        Ok(())
    }

    fn get(&self, tensor: u32) -> &TensorLevels
        requires { tensor < length self.now }
        ensures { slice_get self.now tensor ≡ Some result.now }
    {
        &self.items.as_slice()[tensor as usize]
    }
}

impl Locator for Levels {
    ghost tensors = { λ l. l };

    fn place(&self, tensor: u32, c: &[u32]) -> Option<u32> {
        self.get(tensor).place(c)
    }

    fn coords(&self, tensor: u32, pos: u32) -> Coords {
        self.get(tensor).coords(*self.items.allocator(), pos)
    }

    fn count(&self, tensor: u32) -> u32 {
        self.get(tensor).count()
    }

    fn has_prefix(&self, tensor: u32, c: &[u32]) -> bool {
        self.get(tensor).has_prefix(c)
    }

    fn shape(&self, tensor: u32) -> Shape {
        self.get(tensor).shape()
    }

    fn cost(&self, tensor: u32) -> u32 {
        self.get(tensor).cost()
    }

    fn next_child(&self, tensor: u32, prefix: &[u32], from: u32) -> Option<u32> {
        self.get(tensor).next_child(prefix, from)
    }
}
