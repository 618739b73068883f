//! A tensor with each of its numbers.

ghost use Rattle.std.specs.Prelude.{◌≡◌, ◌≤◌, ◌<◌, ℕ, IfOk};

use crate::shape::Shape;
use dt_base::NoMemory;
use std::alloc::Global;
use std::marker::Model;

/// A shape, and one number for each index, in row-major order.
#[derive(Debug, Drop)]
pub struct Whole {
    shape: Shape,
    values: Vec<u64>,
}

impl Model for Whole {
    ghost use Rattle.std.specs.Prelude.{◌≡◌, length};
    ghost use Rattle.dt_base.specs.Rows.{product};
    ghost use Rattle.dt_model.specs.Shape.{dims, IsShape};
    ghost use Rattle.dt_model.specs.WholeTensor.{WholeTensor};

    ghost Value = { WholeTensor };

    ghost view = { λ w. record { extents = dims w.shape; values = w.values.items } };

    ghost invariant = { λ w. IsShape w.shape × (length w.values.items ≡ product (dims w.shape)) };
}

impl Whole {
    ghost use Rattle.std.specs.Prelude.{◌≡◌, IfOk, length, is_some, ◌≤◌};
    ghost use Rattle.dt_base.specs.Rows.{row_major, product};
    ghost use Rattle.dt_model.specs.Shape.{dims, IsShape};
    ghost use Rattle.dt_model.specs.WholeTensor.{WholeTensor, number_at, with_number, zero_tensor, IsWhole};

    /// The tensor with 0 at each index.
    pub fn zero(alloc: Global, shape: Shape) -> Result<Whole, NoMemory>
        requires { IsShape shape }
        ensures { IfOk result (λ w. w ≡ zero_tensor (dims shape)) }
    {
        let values = vec![in alloc; 0u64; shape.count() as usize]?;
        Ok(Whole { shape, values })
    }

    /// The tensor with these numbers, in row-major order.
    pub fn from_values(shape: Shape, values: Vec<u64>) -> Whole
        requires shape { IsShape shape }
        requires count { length values.items ≡ product (dims shape) }
        ensures { result ≡ record { extents = dims shape; values = values.items } }
    {
        Whole { shape, values }
    }

    pub fn shape(&self) -> Shape
        ensures lawful { IsShape result }
        ensures dims { dims result ≡ self.now.extents }
    {
        self.shape
    }

    /// The numbers, in row-major order.
    pub fn values(&self) -> &[u64]
        ensures values { result.now ≡ self.now.values }
        ensures count { IsWhole self.now }
        ensures few { length self.now.values ≤ 16777216 }
    {
        self.values.as_slice()
    }

    /// The number at the coordinates, where they are an index.
    pub fn get(&self, c: &[u32]) -> Option<u64>
        ensures number { result ≡ number_at self.now c.now }
        ensures found { is_some result ≡ is_some (row_major self.now.extents c.now) }
    {
        match self.shape.index(c) {
            None => None,
            Some(number) => Some(self.values.as_slice()[number as usize]),
        }
    }

    /// Writes the number at the coordinates. It answers false, and changes nothing, where they are no index.
    pub fn set(&mut self, c: &[u32], v: u64) -> bool
        ensures found { result ≡ is_some (row_major self.old.extents c.now) }
        ensures number { self.new ≡ with_number self.old c.now v }
    {
        match self.shape.index(c) {
            None => false,
            Some(number) => {
                self.values.as_mut_slice()[number as usize] = v;
                true
            }
        }
    }
}
