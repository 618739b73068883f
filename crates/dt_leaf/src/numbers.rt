//! Where the numbers that a leaf reads come from.

ghost use Rattle.std.specs.Prelude.{◌≡◌, ℕ, List};
ghost use Rattle.dt_nest.specs.Meaning.{Entries};

/// The numbers of tensors and workspaces, by their number in accesses and coordinates.
pub trait Numbers {
    ghost entries: { Self → Entries };

    ghost can_read: { Self → ℕ → List ℕ → Type 0 };

    /// The number at these coordinates. It takes no memory.
    fn number(&self, tensor: u32, coords: &[u32]) -> u64
        requires { can_read self.now tensor coords.now }
        ensures { result ≡ entries self.now tensor coords.now };
}
