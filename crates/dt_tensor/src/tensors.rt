//! A list of tensors.

ghost use Rattle.std.specs.Prelude.{◌≡◌, ◌<◌, Some, length, slice_get};

use crate::levels::Levels;
use crate::tensor::Tensor;
use dt_base::{Coords, NoMemory};
use dt_model::{Locator, Shape, Whole};
use std::alloc::Global;
use std::marker::Model;

/// Tensors by number.
#[derive(Debug, Drop)]
pub struct Tensors {
    items: Vec<Tensor>,
}

impl Model for Tensors {
    ghost use Rattle.std.specs.Prelude.{List};
    ghost use Rattle.dt_tensor.specs.Packed.{Packed};

    ghost Value = { List Packed };

    ghost view = { λ l. l.items.items };
}

impl Tensors {
    ghost use Rattle.std.specs.Prelude.{IfOk, map};
    ghost use Rattle.dt_tensor.specs.Packed.{stored_of, whole_of};

    /// The tensors of a list, by their places in it.
    pub fn from_list(list: Vec<Tensor>) -> Tensors
        ensures { result ≡ list.items }
    {
        Tensors { items: list }
    }

    pub fn len(&self) -> usize
        ensures { result ≡ length self.now }
    {
        self.items.len()
    }

    pub fn as_slice(&self) -> &[Tensor]
        ensures { result.now ≡ self.now }
    {
        self.items.as_slice()
    }

    pub fn get(&self, tensor: u32) -> &Tensor
        requires { tensor < length self.now }
        ensures { slice_get self.now tensor ≡ Some result.now }
    {
        &self.items.as_slice()[tensor as usize]
    }

    /// Where the words of each tensor lie, and the number at each of its indices. The numbers are moved.
    pub fn into_wholes(self, alloc: Global) -> Result<(Levels, Vec<Whole>), NoMemory>
        ensures levels { IfOk result (λ r. r.0 ≡ map stored_of self) }
        ensures wholes { IfOk result (λ r. r.1.items ≡ map whole_of self) }
    {
        let Tensors { items } = self;
        let mut all = Levels::new(alloc);
        let mut wholes = Vec::new(alloc);
        for tensor in items {
            let (levels, whole) = tensor.into_whole(alloc)?;
            all.push(levels)?;
            wholes.push(whole)?;
        }
        Ok((all, wholes))
    }
}

impl Locator for Tensors {
    ghost use Rattle.std.specs.Prelude.{map};
    ghost use Rattle.dt_tensor.specs.Packed.{stored_of};

    ghost tensors = { λ l. map stored_of l };

    fn place(&self, tensor: u32, c: &[u32]) -> Option<u32> {
        self.get(tensor).levels().place(c)
    }

    fn coords(&self, tensor: u32, pos: u32) -> Coords {
        self.get(tensor)
            .levels()
            .coords(*self.items.allocator(), pos)
    }

    fn count(&self, tensor: u32) -> u32 {
        self.get(tensor).levels().count()
    }

    fn has_prefix(&self, tensor: u32, c: &[u32]) -> bool {
        self.get(tensor).levels().has_prefix(c)
    }

    fn shape(&self, tensor: u32) -> Shape {
        self.get(tensor).levels().shape()
    }

    fn cost(&self, tensor: u32) -> u32 {
        self.get(tensor).levels().cost()
    }

    fn next_child(&self, tensor: u32, prefix: &[u32], from: u32) -> Option<u32> {
        self.get(tensor).levels().next_child(prefix, from)
    }
}
