//! The tensors that a statement may name.

ghost use Rattle.std.specs.Prelude.{◌≡◌, ◌<◌, length, ℕ, List};
ghost use Rattle.dt_model.specs.Shape.{dims, IsShape};
ghost use Rattle.dt_index.specs.Known.{Known, place_of, known_extents, is_dense_at};

use dt_model::Shape;

/// A list of tensors, each with a name, a shape and its levels. The names differ.
pub trait Lookup {
    ghost tensors: { Self → List Known };

    /// The number of the tensor with this name, and none where no tensor has it.
    fn find(&self, name: &[u8]) -> Option<u32>
        ensures { result ≡ place_of name.now (tensors self.now) };

    fn shape(&self, tensor: u32) -> Shape
        requires { tensor < length (tensors self.now) }
        ensures lawful { IsShape result }
        ensures dims { dims result ≡ known_extents (tensors self.now) tensor };

    /// Whether all levels of the tensor are dense.
    fn dense(&self, tensor: u32) -> bool
        requires { tensor < length (tensors self.now) }
        ensures { result ≡ is_dense_at (tensors self.now) tensor };
}
