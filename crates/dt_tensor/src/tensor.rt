//! A packed tensor.

ghost use Rattle.std.specs.Prelude.{◌≡◌, ◌≤◌, ◌<◌, length};
ghost use Rattle.dt_base.specs.Rows.{product};
ghost use Rattle.dt_model.specs.Shape.{dims, IsShape};

use crate::dense::DenseLevels;
use crate::tensor_levels::TensorLevels;
use dt_base::NoMemory;
use dt_model::{Shape, Whole};
use std::alloc::Global;
use std::marker::Model;

/// A tensor: its levels, and the numbers at its stored coordinates in order.
#[derive(Debug, Drop)]
pub struct Tensor {
    levels: TensorLevels,
    values: Vec<u64>,
}

impl Model for Tensor {
    ghost use Rattle.dt_tensor.specs.Packed.{Packed, IsPacked, packed_with};

    ghost Value = { Packed };

    ghost view = { λ t. packed_with t.levels t.values.items };

    ghost invariant = { λ t. IsPacked (packed_with t.levels t.values.items) };
}

impl Tensor {
    ghost use Rattle.std.specs.Prelude.{IfOk, slice_index};
    ghost use Rattle.dt_model.specs.Positions.{coords_at};
    ghost use Rattle.dt_tensor.specs.Packed.{IsPacked, stored_of, whole_of, dense_tensor, packed_with, number_in, index_at};

    /// The tensor with these numbers, in row-major order.
    pub fn dense(shape: Shape, values: Vec<u64>) -> Tensor
        requires shape { IsShape shape }
        requires few { product (dims shape) ≤ 1048576 }
        requires full { length values.items ≡ product (dims shape) }
        ensures { result ≡ dense_tensor (dims shape) values.items }
    {
        Tensor {
            levels: TensorLevels::dense(DenseLevels::new(shape)),
            values,
        }
    }

    /// The tensor with these levels and a number for each of their positions.
    pub(crate) fn with_levels(levels: TensorLevels, values: Vec<u64>) -> Tensor
        requires { IsPacked (packed_with levels values.items) }
        ensures { result ≡ packed_with levels values.items }
    {
        Tensor { levels, values }
    }

    /// How many positions there are.
    pub fn stored(&self) -> u32
        ensures count { result ≡ length self.now.coords }
        ensures few { result ≤ 1048576 }
    {
        self.values.len() as u32
    }

    /// The number at a position.
    pub fn value(&self, pos: u32) -> u64
        requires { pos < length self.now.coords }
        ensures { result ≡ slice_index self.now.values pos }
    {
        self.values.as_slice()[pos as usize]
    }

    /// The numbers, in order of position.
    pub fn values(&self) -> &[u64]
        ensures values { result.now ≡ self.now.values }
        ensures count { length result.now ≡ length self.now.coords }
    {
        self.values.as_slice()
    }

    pub fn shape(&self) -> Shape
        ensures lawful { IsShape result }
        ensures dims { dims result ≡ self.now.extents }
        ensures packed { IsPacked self.now }
    {
        self.levels.shape()
    }

    /// The coordinate of a position at one level.
    pub fn coord(&self, pos: u32, level: u8) -> u32
        requires within { pos < length self.now.coords }
        requires level { level < length self.now.extents }
        ensures { result ≡ slice_index (coords_at (stored_of self.now) pos) level }
    {
        let coords = self.levels.coords(*self.values.allocator(), pos);
        coords.as_slice()[level as usize]
    }

    /// The number at the index with this row-major number: that of its position, and 0 where it has none.
    fn number_at(&self, number: u32) -> u64
        requires { number < product self.now.extents }
        ensures { result ≡ number_in self.now (index_at self.now.extents number) }
    {
        match self.levels.position_of(number) {
            None => 0,
            Some(pos) => self.values.as_slice()[pos as usize],
        }
    }

    /// The number at each index: that of its position, and 0 where it has none. It takes the memory of all indices.
    pub fn to_whole(&self, alloc: Global) -> Result<Whole, NoMemory>
        ensures { IfOk result (λ w. w ≡ whole_of self.now) }
    {
        let shape = self.levels.shape();
        let mut values = Vec::new(alloc);
        for number in 0..shape.count() {
            values.push(self.number_at(number))?;
        }
        Ok(Whole::from_values(shape, values))
    }

    /// Where the words lie, and the number at each index. The numbers are moved where each index is stored.
    pub(crate) fn into_whole(self, alloc: Global) -> Result<(TensorLevels, Whole), NoMemory>
        ensures levels { IfOk result (λ r. r.0 ≡ stored_of self) }
        ensures whole { IfOk result (λ r. r.1 ≡ whole_of self) }
    {
        let shape = self.levels.shape();
        if self.levels.is_dense() {
            let Tensor { levels, values } = self;
            return Ok((levels, Whole::from_values(shape, values)));
        }
        let whole = self.to_whole(alloc)?;
        let Tensor { levels, values: _ } = self;
        Ok((levels, whole))
    }

    /// Where the words lie.
    pub fn levels(&self) -> &TensorLevels
        ensures { result.now ≡ stored_of self.now }
    {
        &self.levels
    }
}
