//! A declared tensor.

ghost use Rattle.std.specs.Prelude.{◌≡◌, None, Some};
ghost use Rattle.dt_model.specs.Shape.{dims, IsShape};

use dt_model::Shape;
use dt_place::Placement;
use dt_tensor::{Tensor, TensorLevels};
use std::marker::Model;

/// A tensor, whether a line has given its numbers, and its placement where a line says it.
#[derive(Debug, Drop)]
pub struct Declared {
    tensor: Tensor,
    given: bool,
    placement: Option<Placement>,
}

impl Model for Declared {
    ghost use Rattle.dt_job.specs.Contents.{Content};
    ghost use Rattle.dt_job.specs.JobTensors.{IsJobTensor};

    ghost Value = { Content };

    ghost view = { λ d. record { packed = d.tensor; given = d.given; placement = d.placement } };

    ghost invariant = { λ d. IsJobTensor d.tensor };
}

impl Declared {
    ghost use Rattle.std.specs.Prelude.{◌≡◌, ◌≤◌, None, Some, false, is_some, length, true};
    ghost use Rattle.dt_model.specs.Shape.{dims, IsShape};
    ghost use Rattle.dt_tensor.specs.Packed.{packed_with, stored_of};
    ghost use Rattle.dt_job.specs.Contents.{has_dense_levels, placement_of};
    ghost use Rattle.dt_job.specs.JobTensors.{IsJobTensor};

    /// A tensor whose numbers no line has given, and that no line places.
    pub fn new(tensor: Tensor) -> Declared
        requires { IsJobTensor tensor }
        ensures { result ≡ record { packed = tensor; given = false; placement = None } }
    {
        Declared {
            tensor,
            given: false,
            placement: None,
        }
    }

    /// Takes these numbers, in order of position.
    pub fn give(&mut self, values: Vec<u64>)
        requires { length values.items ≡ length self.old.packed.coords }
        ensures { self.new ≡ record self.old { packed = packed_with (stored_of self.old.packed) values.items; given = true } }
    {
        self.tensor = Tensor::dense(self.tensor.shape(), values);
        self.given = true;
    }

    /// Takes this placement.
    pub fn place(&mut self, placement: Placement)
        ensures { self.new ≡ record self.old { placement = Some placement } }
    {
        self.placement = Some(placement);
    }

    pub fn shape(&self) -> Shape
        ensures lawful { IsShape result }
        ensures dims { dims result ≡ self.now.packed.extents }
    {
        self.tensor.shape()
    }

    /// Where its words lie.
    pub fn levels(&self) -> &TensorLevels
        ensures { result.now ≡ stored_of self.now.packed }
    {
        self.tensor.levels()
    }

    /// Whether each of its levels is dense: a position costs a word more for each that is not.
    pub fn is_dense(&self) -> bool
        ensures { result ≡ has_dense_levels self.now.packed }
    {
        self.tensor.levels().cost() == 1
    }

    /// Whether a line has given its numbers.
    pub fn is_given(&self) -> bool
        ensures { result ≡ self.now.given }
    {
        self.given
    }

    /// Whether a line has placed it.
    pub fn is_placed(&self) -> bool
        ensures { result ≡ is_some self.now.placement }
    {
        self.placement.is_some()
    }

    /// How many dimensions it has.
    pub fn order(&self) -> u8
        ensures { result ≡ length self.now.packed.extents }
    {
        self.tensor.shape().order
    }

    /// How many positions it has.
    pub fn position_count(&self) -> u32
        ensures { result ≡ length self.now.packed.coords }
    {
        self.tensor.stored()
    }

    /// The tensor, and its placement.
    pub fn into_parts(self) -> (Tensor, Placement)
        ensures tensor { result.0 ≡ self.packed }
        ensures lawful { IsJobTensor result.0 }
        ensures placement { result.1 ≡ placement_of self }
    {
        let Declared {
            tensor,
            given: _,
            placement,
        } = self;
        (tensor, placement.unwrap_or(Placement::FirstNode))
    }
}
