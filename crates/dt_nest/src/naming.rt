//! The names that loops have inside producers.

ghost use Rattle.std.specs.Prelude.{◌≡◌, length};
ghost use Rattle.dt_nest.specs.Meaning.{renamed};
ghost use Rattle.dt_nest.specs.Naming.{pairs_in};

use crate::loops::Pair;

/// What gives loops and variables their names at a place.
pub trait Renaming {
    ghost use Rattle.std.specs.Prelude.{ℕ};

    ghost names: { Self → ℕ → ℕ };

    /// The name that a loop or variable has.
    fn name_of(&self, u: u32) -> u32
        ensures { result ≡ names self.now u };
}

/// Each loop and variable has its own name.
pub struct Unrenamed;

impl Renaming for Unrenamed {
    ghost names = { λ n u. u };

    fn name_of(&self, u: u32) -> u32 {
        u
    }
}

/// The renamings of the producers around a place in a nest.
#[derive(Clone, Copy)]
pub enum Naming<'a> {
    Root,
    Under(&'a [Pair], &'a Naming<'a>),
}

/// The name after these renamings, one after another.
fn renamed_by(pairs: &[Pair], u: u32) -> u32
    ensures { result ≡ renamed pairs.now u }
{
    match pairs.split_first() {
        None => u,
        Some((p, rest)) => renamed_by(rest, if u == p.from { p.to } else { u }),
    }
}

impl Naming<'_> {
    /// The name that a loop or variable has here.
    #[tactic(auto, using(crate::proofs::Names::names))]
    pub fn name(&self, u: u32) -> u32
        ensures { result ≡ renamed (pairs_in self.now) u }
    {
        match self {
            Naming::Root => u,
            Naming::Under(pairs, outer) => renamed_by(pairs, outer.name(u)),
        }
    }
}

impl Renaming for Naming<'_> {
    ghost use Rattle.dt_nest.specs.Meaning.{renamed};
    ghost use Rattle.dt_nest.specs.Naming.{pairs_in};

    ghost names = { λ n u. renamed (pairs_in n) u };

    fn name_of(&self, u: u32) -> u32 {
        self.name(u)
    }
}
