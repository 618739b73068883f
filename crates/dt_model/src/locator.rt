//! Where the words of tensors lie.

ghost use Rattle.std.specs.Prelude.{◌≡◌, ◌<◌, length, List};
ghost use Rattle.dt_model.specs.Positions.{StoredTensor, IsStored, tensor_at, place_in, coords_at, is_stored_prefix, next_child_of, cost_of};
ghost use Rattle.dt_model.specs.Shape.{dims, IsShape};

use crate::shape::Shape;
use dt_base::Coords;

/// A list of tensors, each with a shape, its levels and the list of its stored coordinates. The position of stored
/// coordinates is their place in that list, which is in lexicographic order. Each tensor that a call names exists.
pub trait Locator {
    ghost tensors: { Self → List StoredTensor };

    /// The position of the coordinates, and none where they are not stored.
    fn place(&self, tensor: u32, c: &[u32]) -> Option<u32>
        requires { tensor < length (tensors self.now) }
        ensures { result ≡ place_in (tensor_at (tensors self.now) tensor) c.now };

    /// The coordinates at a position. They are at most four, and take no memory.
    fn coords(&self, tensor: u32, pos: u32) -> Coords
        requires exists { tensor < length (tensors self.now) }
        requires within { pos < length (tensor_at (tensors self.now) tensor).coords }
        ensures { result ≡ coords_at (tensor_at (tensors self.now) tensor) pos };

    /// How many positions the tensor has.
    fn count(&self, tensor: u32) -> u32
        requires { tensor < length (tensors self.now) }
        ensures { result ≡ length (tensor_at (tensors self.now) tensor).coords };

    /// Whether the coordinates are a stored prefix. The empty one is; at a dense level each coordinate follows, at a
    /// compressed level those that some stored coordinates go on with.
    fn has_prefix(&self, tensor: u32, c: &[u32]) -> bool
        requires { tensor < length (tensors self.now) }
        ensures { result ≡ is_stored_prefix (tensor_at (tensors self.now) tensor) c.now };

    fn shape(&self, tensor: u32) -> Shape
        requires { tensor < length (tensors self.now) }
        ensures lawful { IsShape result }
        ensures dims { dims result ≡ (tensor_at (tensors self.now) tensor).extents }
        ensures stored { IsStored (tensor_at (tensors self.now) tensor) };

    /// The words of memory that one position costs: one, and one for each compressed level.
    fn cost(&self, tensor: u32) -> u32
        requires { tensor < length (tensors self.now) }
        ensures { result ≡ cost_of (tensor_at (tensors self.now) tensor) };

    /// The least coordinate, at least `from`, by which the prefix becomes a longer stored prefix, and none where there
    /// is none. The prefix is shorter than the tensor's order.
    fn next_child(&self, tensor: u32, prefix: &[u32], from: u32) -> Option<u32>
        requires exists { tensor < length (tensors self.now) }
        requires shorter { length prefix.now < length (tensor_at (tensors self.now) tensor).extents }
        ensures { result ≡ next_child_of (tensor_at (tensors self.now) tensor) prefix.now from };
}
