//! Where the words of a tensor lie, whatever its levels.

ghost use Rattle.std.specs.Prelude.{◌≡◌, ◌<◌, length, true};
ghost use Rattle.dt_base.specs.Rows.{product};
ghost use Rattle.dt_model.specs.Shape.{dims, IsShape};

use crate::dense::DenseLevels;
use crate::packed_levels::PackedLevels;
use dt_base::Coords;
use dt_model::Shape;
use std::alloc::Global;
use std::marker::Model;

/// Levels that are all dense, or of which one at least is compressed.
#[derive(Debug, Drop)]
pub enum LevelKind {
    Dense(DenseLevels),
    Packed(PackedLevels),
}

/// The levels of a tensor, dense or compressed.
#[derive(Debug, Drop)]
pub struct TensorLevels {
    kind: LevelKind,
}

impl Model for TensorLevels {
    ghost use Rattle.dt_model.specs.Positions.{StoredTensor};
    ghost use Rattle.dt_tensor.specs.LevelKinds.{stored_by};

    ghost Value = { StoredTensor };

    ghost view = { λ l. stored_by l.kind };
}

impl TensorLevels {
    ghost use Rattle.dt_model.specs.Positions.{IsStored, place_in, coords_at, is_stored_prefix, next_child_of, cost_of};
    ghost use Rattle.dt_tensor.specs.Packed.{dense_levels, index_at};

    pub fn dense(levels: DenseLevels) -> TensorLevels
        ensures { result ≡ levels }
    {
        TensorLevels {
            kind: LevelKind::Dense(levels),
        }
    }

    pub fn packed(levels: PackedLevels) -> TensorLevels
        ensures { result ≡ levels }
    {
        TensorLevels {
            kind: LevelKind::Packed(levels),
        }
    }

    /// Whether each level is dense.
    pub fn is_dense(&self) -> bool
        ensures dense { result ≡ true → self.now ≡ dense_levels self.now.extents }
    {
        match &self.kind {
            LevelKind::Dense(levels) => {
                let _shape = levels.shape();
                true
            }
            LevelKind::Packed(_) => false,
        }
    }

    /// The position of the index with this row-major number, and none where it is not stored.
    pub(crate) fn position_of(&self, number: u32) -> Option<u32>
        requires { number < product self.now.extents }
        ensures { result ≡ place_in self.now (index_at self.now.extents number) }
    {
        match &self.kind {
            LevelKind::Dense(levels) => levels.position_of(number),
            LevelKind::Packed(levels) => levels.position_of(None, number),
        }
    }

    /// The position of the coordinates, and none where they are not stored.
    pub fn place(&self, c: &[u32]) -> Option<u32>
        ensures { result ≡ place_in self.now c.now }
    {
        self.place_near(None, c)
    }

    /// The same, where the position `near` tells what is tried first.
    pub(crate) fn place_near(&self, near: Option<u32>, c: &[u32]) -> Option<u32>
        ensures { result ≡ place_in self.now c.now }
    {
        match &self.kind {
            LevelKind::Dense(levels) => levels.place(c),
            LevelKind::Packed(levels) => levels.place_near(near, c),
        }
    }

    /// The coordinates of a position.
    pub fn coords(&self, alloc: Global, pos: u32) -> Coords
        requires { pos < length self.now.coords }
        ensures { result ≡ coords_at self.now pos }
    {
        match &self.kind {
            LevelKind::Dense(levels) => levels.coords(alloc, pos),
            LevelKind::Packed(levels) => levels.coords(alloc, pos),
        }
    }

    /// How many positions there are.
    pub fn count(&self) -> u32
        ensures { result ≡ length self.now.coords }
    {
        match &self.kind {
            LevelKind::Dense(levels) => levels.count(),
            LevelKind::Packed(levels) => levels.count(),
        }
    }

    /// Whether the coordinates are a stored prefix.
    pub fn has_prefix(&self, c: &[u32]) -> bool
        ensures { result ≡ is_stored_prefix self.now c.now }
    {
        match &self.kind {
            LevelKind::Dense(levels) => levels.has_prefix(c),
            LevelKind::Packed(levels) => levels.has_prefix(c),
        }
    }

    pub fn shape(&self) -> Shape
        ensures lawful { IsShape result }
        ensures dims { dims result ≡ self.now.extents }
        ensures stored { IsStored self.now }
    {
        match &self.kind {
            LevelKind::Dense(levels) => levels.shape(),
            LevelKind::Packed(levels) => levels.shape(),
        }
    }

    /// The words of memory that one position costs.
    pub fn cost(&self) -> u32
        ensures { result ≡ cost_of self.now }
    {
        match &self.kind {
            LevelKind::Dense(levels) => levels.cost(),
            LevelKind::Packed(levels) => levels.cost(),
        }
    }

    /// The least coordinate, at least `from`, by which the prefix becomes a longer stored prefix.
    pub fn next_child(&self, prefix: &[u32], from: u32) -> Option<u32>
        requires { length prefix.now < length self.now.extents }
        ensures { result ≡ next_child_of self.now prefix.now from }
    {
        match &self.kind {
            LevelKind::Dense(levels) => levels.next_child(prefix, from),
            LevelKind::Packed(levels) => levels.next_child(prefix, from),
        }
    }
}
