//! Whether values are a path of a nest.

ghost use Rattle.std.specs.Prelude.{◌≡◌, IsTrue, ◌↔◌};
ghost use Rattle.dt_nest.specs.Tree.{tree_of};
ghost use Rattle.dt_nest.specs.Visits.{IsPath, IsPathIn};

use dt_nest::{Nest, Sched, has_kernel};

fn is_path_in(nest: &Nest, path: &[u32]) -> bool
    ensures { IsTrue result ↔ IsPathIn (tree_of nest.now) path.now }
{
    match path.split_first() {
        None => true,
        Some((value, below)) => match nest {
            Nest::Loop { extent, body, .. } => {
                *value < *extent && !has_kernel(body) && is_path_in(body, below)
            }
            Nest::Pre { .. } => false,
            Nest::Leaf { .. } => false,
        },
    }
}

/// Whether the values are a path: those of the outermost loops of the schedule's nest, none of them substituted or inside a
/// precompute node.
pub fn is_path(sched: &Sched, path: &[u32]) -> bool
    ensures { IsTrue result ↔ IsPath sched.now path.now }
{
    is_path_in(&sched.parts().nest, path)
}
