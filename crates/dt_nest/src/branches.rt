//! What stands on the way to a leaf of a nest. Each call goes down the tree, and takes no memory.

ghost use Rattle.std.specs.Prelude.{◌≡◌, ◌<◌, ◌^◌, slice_get};
ghost use Rattle.dt_nest.specs.Tree.{tree_of, leaf_count};
ghost use Rattle.dt_nest.specs.Search.{works_at};
ghost use Rattle.dt_nest.specs.Branch.{leaf_at, substituted_at};

use crate::loops::Nest;
use crate::search::{has_kernel, leaves};

/// A substituted loop and its extent.
#[derive(Clone, Copy, Debug)]
pub struct Substituted {
    pub var: u32,
    pub extent: u32,
}

/// The leaf with this number.
pub fn leaf_of(nest: &Nest, leaf: u32) -> &Nest
    requires { leaf_count (tree_of nest.now) < 2 ^ 32 }
    ensures { tree_of result.now ≡ leaf_at (tree_of nest.now) leaf }
{
    match nest {
        Nest::Loop { body, .. } => leaf_of(body, leaf),
        Nest::Pre {
            producer,
            consumer,
            ..
        } => {
            let count = leaves(producer);
            if leaf < count {
                leaf_of(producer, leaf)
            } else {
                leaf_of(consumer, leaf - count)
            }
        }
        Nest::Leaf { .. } => nest,
    }
}

/// The workspace of a precompute node around a leaf, counted from the outside.
pub fn work_of(nest: &Nest, leaf: u32, past: u32) -> Option<u32>
    requires { leaf_count (tree_of nest.now) < 2 ^ 32 }
    ensures { result ≡ slice_get (works_at (tree_of nest.now) leaf) past }
{
    match nest {
        Nest::Loop { body, .. } => work_of(body, leaf, past),
        Nest::Pre {
            work,
            producer,
            consumer,
            ..
        } => {
            if past == 0 {
                return Some(*work);
            }
            let count = leaves(producer);
            if leaf < count {
                work_of(producer, leaf, past - 1)
            } else {
                work_of(consumer, leaf - count, past - 1)
            }
        }
        Nest::Leaf { .. } => None,
    }
}

/// The substituted loop around a leaf.
pub fn substituted_of(nest: &Nest, leaf: u32) -> Option<Substituted>
    requires { leaf_count (tree_of nest.now) < 2 ^ 32 }
    ensures { result ≡ substituted_at (tree_of nest.now) leaf }
{
    match nest {
        Nest::Loop {
            var,
            extent,
            body,
            ..
        } => {
            if has_kernel(body) {
                return Some(Substituted {
                    var: *var,
                    extent: *extent,
                });
            }
            substituted_of(body, leaf)
        }
        Nest::Pre {
            producer,
            consumer,
            ..
        } => {
            let count = leaves(producer);
            if leaf < count {
                substituted_of(producer, leaf)
            } else {
                substituted_of(consumer, leaf - count)
            }
        }
        Nest::Leaf { .. } => None,
    }
}
