//! The tests of a schedule's visits against tensors.

ghost use Rattle.std.specs.Prelude.{◌≡◌, ℕ, List, length};
ghost use Rattle.dt_nest.specs.Schedule.{seen};
ghost use Rattle.dt_nest.specs.Meaning.{renamed};
ghost use Rattle.dt_nest.specs.ValueTables.{IsTable};
ghost use Rattle.dt_nest.specs.World.{world_of};
ghost use Rattle.dt_nest.specs.Lawful.{AreNamed};
ghost use Rattle.dt_nest.specs.Naming.{pairs_in};
ghost use Rattle.dt_nest.specs.Search.{node_of};
ghost use Rattle.dt_nest.specs.Tree.{tree_of};
ghost use Rattle.dt_nest.specs.Values.{inside_tests};

use crate::cursor::Cursor;
use crate::guards::{hold, takes_stored};
use crate::loops::{Nest, Walk};
use crate::naming::Naming;
use crate::parts::SchedParts;
use crate::search::Testing;
use crate::value_tables::{Table, tabulate_cursor};
use dt_model::Locator;

/// The parts of a schedule against tensors: the tests of its visits.
#[derive(Drop)]
pub struct Conditions<'s, L: Locator> {
    pub parts: &'s SchedParts,
    pub loc: &'s L,
}

impl<L: Locator> Conditions<'_, L> {
    /// Whether a loop takes its value, from a table of all values there.
    pub fn takes_from(
        &self,
        walk: &Option<Walk>,
        var: u32,
        naming: &Naming,
        values: &[Option<u32>],
    ) -> bool
        requires tensors { length (L.tensors self.now.loc.now) ≡ length self.now.parts.now.tensors }
        ensures { (slots : List ℕ) → IsTable (world_of (L.tensors self.now.loc.now) (seen self.now.parts.now)) self.now.parts.now.derived (renamed (pairs_in naming.now)) slots values.now → result ≡ (inside_tests (world_of (L.tensors self.now.loc.now) (seen self.now.parts.now)) self.now.parts.now.derived).takes walk.now var (pairs_in naming.now) slots }
    {
        match walk {
            None => true,
            Some(walk) => {
                let known = Table {
                    names: naming,
                    values,
                };
                takes_stored(walk, var, self.parts, self.loc, &known)
            }
        }
    }

    /// Whether the guards of a leaf hold, from a table of all values there.
    pub fn holds_from(&self, leaf: &Nest, naming: &Naming, values: &[Option<u32>]) -> bool
        ensures { (slots : List ℕ) → IsTable (world_of (L.tensors self.now.loc.now) (seen self.now.parts.now)) self.now.parts.now.derived (renamed (pairs_in naming.now)) slots values.now → result ≡ (inside_tests (world_of (L.tensors self.now.loc.now) (seen self.now.parts.now)) self.now.parts.now.derived).holds (node_of (tree_of leaf.now)) (pairs_in naming.now) slots }
    {
        match leaf {
            Nest::Loop { .. } => true,
            Nest::Pre { .. } => true,
            Nest::Leaf { guards, .. } => {
                let known = Table {
                    names: naming,
                    values,
                };
                hold(guards.as_slice(), self.parts.extents.as_slice(), &known)
            }
        }
    }
}

impl<L: Locator> Testing for Conditions<'_, L> {
    ghost use Rattle.std.specs.Prelude.{◌≡◌, length};
    ghost use Rattle.dt_nest.specs.Schedule.{seen};
    ghost use Rattle.dt_nest.specs.World.{world_of};
    ghost use Rattle.dt_nest.specs.Lawful.{AreNamed};
    ghost use Rattle.dt_nest.specs.Values.{inside_tests};

    ghost tests = { λ a. inside_tests (world_of (L.tensors a.loc.now) (seen a.parts.now)) a.parts.now.derived };

    ghost ready = { λ a. AreNamed (seen a.parts.now) a.parts.now.derived × (length (L.tensors a.loc.now) ≡ length a.parts.now.tensors) };

    ghost room = { λ a. length a.parts.now.names };

    fn takes(&self, walk: &Option<Walk>, var: u32, naming: &Naming, cursor: &mut Cursor) -> bool {
        match walk {
            None => true,
            Some(walk) => {
                tabulate_cursor(self, naming, cursor);
                let known = Table {
                    names: naming,
                    values: cursor.values.as_slice(),
                };
                takes_stored(walk, var, self.parts, self.loc, &known)
            }
        }
    }

    fn holds(&self, leaf: &Nest, naming: &Naming, cursor: &mut Cursor) -> bool {
        match leaf {
            Nest::Loop { .. } => true,
            Nest::Pre { .. } => true,
            Nest::Leaf { guards, .. } => {
                if guards.as_slice().is_empty() {
                    return true;
                }
                tabulate_cursor(self, naming, cursor);
                let known = Table {
                    names: naming,
                    values: cursor.values.as_slice(),
                };
                hold(guards.as_slice(), self.parts.extents.as_slice(), &known)
            }
        }
    }
}
