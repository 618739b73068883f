//! What the list of operations asks of a statement's nest.

ghost use Rattle.std.specs.Prelude.{◌≡◌, ◌<◌, ◌+◌, ◌++◌, ◌∷◌, [], true, Bool, List, ℕ, length, map, IfOk};
ghost use Rattle.std.specs.List.{AllByRecursion, flat_map};
ghost use Rattle.dt_base.specs.Ranges.{below};
ghost use Rattle.dt_copy.specs.declared.piece_list.Piece.{Piece};
ghost use Rattle.dt_plan.specs.declared.ops.Op.{Op};
ghost use Rattle.dt_plan.specs.Brackets.{Outline, opened, closed};

use crate::ops::{Op, Ops};
use dt_base::{NoMemory, Vars};
use std::alloc::Global;
use std::marker::Model;

/// The operations of a path that come before everything deeper, and those that come after it.
#[derive(Debug, Drop)]
pub struct Around {
    pub opened: Ops,
    pub closed: Ops,
}

/// Paths, in order.
#[derive(Debug, Drop)]
pub struct Paths {
    pub items: Vec<Vars>,
}

impl Model for Paths {
    ghost use Rattle.std.specs.Prelude.{List, ℕ};

    ghost Value = { List (List ℕ) };

    ghost view = { λ l. l.items.items };
}

impl Paths {
    ghost use Rattle.std.specs.Prelude.{◌≡◌};

    pub fn as_slice(&self) -> &[Vars]
        ensures { result.now ≡ self.now }
    {
        self.items.as_slice()
    }
}

/// A statement's nest as its operations are listed.
pub trait Outlined {
    ghost outline: { Self → Outline Op Piece };

    /// Whether some values are a path.
    ghost has_path: { Self → List ℕ → Bool };

    /// How many nodes there are.
    fn nodes(&self) -> u32
        ensures { result ≡ (outline self.now).nodes };

    /// How many loops there are between the distributed ones and the task.
    fn inner(&self) -> u32
        ensures count { result ≡ (outline self.now).inner }
        ensures deepest { (outline self.now).deepest ≡ (outline self.now).distributed + result };

    /// The node of a path.
    fn node(&self, path: &[u32]) -> u32
        ensures { result ≡ (outline self.now).node path.now };

    /// The paths of the distributed loops.
    fn first_paths(&self, alloc: Global) -> Result<Paths, NoMemory>
        ensures paths { IfOk result (λ l. l ≡ (outline self.now).paths (outline self.now).distributed) }
        ensures each { IfOk result (λ l. AllByRecursion (λ p. (has_path self.now p ≡ true) × (length p ≡ (outline self.now).distributed)) l) };

    /// The values by which a path that doesn't reach the task becomes a longer one.
    fn values(&self, alloc: Global, path: &[u32]) -> Result<Vec<u32>, NoMemory>
        requires path { has_path self.now path.now ≡ true }
        requires outer { length path.now < (outline self.now).deepest }
        ensures values { IfOk result (λ v. v.items ≡ (outline self.now).values path.now) }
        ensures each { IfOk result (λ v. AllByRecursion (λ i. has_path self.now (path.now ++ i ∷ []) ≡ true) v.items) };

    /// The zeros, by node.
    fn zeros(&self, alloc: Global) -> Result<Ops, NoMemory>
        ensures { IfOk result (λ l. l ≡ flat_map (outline self.now).zeros (below (outline self.now).nodes)) };

    /// What opens the workspaces of a node, and what closes them.
    fn around_node(&self, alloc: Global, node: u32) -> Result<Around, NoMemory>
        requires { node < (outline self.now).nodes }
        ensures opened { IfOk result (λ a. a.opened ≡ map ((outline self.now).work_alloc node) (outline self.now).works) }
        ensures closed { IfOk result (λ a. a.closed ≡ map ((outline self.now).work_free node) (outline self.now).works) };

    /// What is opened and copied on a path, and what is folded and closed there.
    fn around(&self, alloc: Global, path: &[u32]) -> Result<Around, NoMemory>
        requires { has_path self.now path.now ≡ true }
        ensures opened { IfOk result (λ a. a.opened ≡ opened (outline self.now) path.now) }
        ensures closed { IfOk result (λ a. a.closed ≡ closed (outline self.now) path.now) };

    /// The task of a path.
    fn task(&self, alloc: Global, path: &[u32]) -> Result<Op, NoMemory>
        requires { has_path self.now path.now ≡ true }
        ensures { IfOk result (λ op. op ≡ (outline self.now).task path.now) };
}
