//! Where the words of a tensor with dense levels lie.

ghost use Rattle.std.specs.Prelude.{◌≡◌, ◌<◌, [], length, take, slice_index_or};
ghost use Rattle.dt_base.specs.Ranges.{assignments};
ghost use Rattle.dt_base.specs.Rows.{product};
ghost use Rattle.dt_model.specs.Positions.{is_front};
ghost use Rattle.dt_model.specs.Shape.{dims, IsShape};

use dt_base::Coords;
use dt_model::Shape;
use std::alloc::Global;
use std::marker::Model;

/// The words that a position costs where no level is compressed.
const DENSE_COST: u32 = 1;

/// The dense levels of a tensor: each index of its shape is stored.
#[derive(Debug, Drop)]
pub struct DenseLevels {
    shape: Shape,
}

impl Model for DenseLevels {
    ghost use Rattle.dt_model.specs.Positions.{StoredTensor};
    ghost use Rattle.dt_model.specs.Shape.{dims, IsShape};
    ghost use Rattle.dt_tensor.specs.Packed.{dense_levels};

    ghost Value = { StoredTensor };

    ghost view = { λ d. dense_levels (dims d.shape) };

    ghost invariant = { λ d. IsShape d.shape };
}

impl DenseLevels {
    ghost use Rattle.dt_model.specs.Positions.{IsStored, place_in, coords_at, is_stored_prefix, next_child_of, cost_of};
    ghost use Rattle.dt_tensor.specs.Packed.{dense_levels, index_at};

    pub fn new(shape: Shape) -> DenseLevels
        requires { IsShape shape }
        ensures { result ≡ dense_levels (dims shape) }
    {
        DenseLevels { shape }
    }

    /// The position of the index with this row-major number: the number.
    pub(crate) fn position_of(&self, number: u32) -> Option<u32>
        requires { number < product self.now.extents }
        ensures { result ≡ place_in self.now (index_at self.now.extents number) }
    {
        let _levels = &self.shape;
        Some(number)
    }

    /// The position of the coordinates, and none where they are not stored.
    pub fn place(&self, c: &[u32]) -> Option<u32>
        ensures { result ≡ place_in self.now c.now }
    {
        self.shape.index(c)
    }

    /// The coordinates of a position.
    pub fn coords(&self, alloc: Global, pos: u32) -> Coords
        requires { pos < length self.now.coords }
        ensures { result ≡ coords_at self.now pos }
    {
        let all = coordinates(&self.shape, pos);
        Coords::of_few(alloc, &all[..self.shape.order as usize])
    }

    /// How many positions there are.
    pub fn count(&self) -> u32
        ensures { result ≡ length self.now.coords }
    {
        self.shape.count()
    }

    /// Whether the coordinates are a stored prefix.
    pub fn has_prefix(&self, c: &[u32]) -> bool
        ensures { result ≡ is_stored_prefix self.now c.now }
    {
        are_below(c, self.shape.dims())
    }

    pub fn shape(&self) -> Shape
        ensures lawful { IsShape result }
        ensures dims { dims result ≡ self.now.extents }
        ensures stored { IsStored self.now }
        ensures dense { self.now ≡ dense_levels self.now.extents }
    {
        self.shape
    }

    /// The words of memory that one position costs.
    pub fn cost(&self) -> u32
        ensures { result ≡ cost_of self.now }
    {
        let _levels = &self.shape;
        DENSE_COST
    }

    /// The least coordinate, at least `from`, by which the prefix becomes a longer stored prefix.
    pub fn next_child(&self, prefix: &[u32], from: u32) -> Option<u32>
        requires { length prefix.now < length self.now.extents }
        ensures { result ≡ next_child_of self.now prefix.now from }
    {
        if self.has_prefix(prefix) && from < self.shape.dims()[prefix.len()] {
            Some(from)
        } else {
            None
        }
    }
}

/// Whether there are at most as many coordinates as extents, each below its own.
pub(crate) fn are_below(c: &[u32], extents: &[u32]) -> bool
    ensures { result ≡ is_front extents.now c.now }
{
    c.len() <= extents.len() && c.iter().zip(extents).all(|(x, n)| *x < *n)
}

/// The coordinates with this row-major number, in the first places.
pub(crate) fn coordinates(shape: &Shape, number: u32) -> [u32; 4]
    requires lawful { IsShape shape.now }
    requires within { number < product (dims shape.now) }
    ensures { take shape.now.order result ≡ slice_index_or (assignments (dims shape.now)) number [] }
{
    let dims = shape.dims();
    let mut all = [0u32; 4];
    let mut size = shape.count();
    let mut rest = number;
    for (i, n) in dims.iter().enumerate() {
        size /= *n;
        all[i] = rest / size;
        rest %= size;
    }
    all
}
