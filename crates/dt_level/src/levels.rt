//! What a level of a tensor answers.

ghost use Rattle.std.specs.Prelude.{◌≡◌, ◌+◌, ◌<◌, List, ℕ, length, slice_index};
ghost use Rattle.dt_level.specs.Levels.{IsLevel, children_of, first_child, find_child, least_child};

/// One level of a tensor. A parent is one of the coordinates that are stored with the levels before, by number; its
/// children are the coordinates by which it goes on at this level. They ascend. The children of all parents are
/// numbered end to end from 0, and are the parents of the next level. Each parent that a call names exists.
pub trait Level {
    ghost level: { Self → List (List ℕ) };

    /// How many children the parent has.
    fn children(&self, parent: u32) -> u32
        requires { parent < length (level self.now) }
        ensures count { result ≡ length (children_of (level self.now) parent) }
        ensures lawful { IsLevel (level self.now) };

    /// The coordinate and the number of the parent's child `k`, counted from 0.
    fn child(&self, parent: u32, k: u32) -> (u32, u32)
        requires exists { parent < length (level self.now) }
        requires within { k < length (children_of (level self.now) parent) }
        ensures coordinate { result.0 ≡ slice_index (children_of (level self.now) parent) k }
        ensures number { result.1 ≡ first_child (level self.now) parent + k };

    /// The number of the parent's child with the coordinate `x`, and none where no child has it. It takes time
    /// logarithmic in the parent's children.
    fn find(&self, parent: u32, x: u32) -> Option<u32>
        requires { parent < length (level self.now) }
        ensures { result ≡ find_child (level self.now) parent x };

    /// The least `k` whose child has a coordinate of at least `x`, and the number of children where none has. It takes
    /// time logarithmic in the parent's children.
    fn at_least(&self, parent: u32, x: u32) -> u32
        requires { parent < length (level self.now) }
        ensures { result ≡ least_child (level self.now) parent x };
}
