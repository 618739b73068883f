//! The loop at which a tensor is moved.

ghost use Rattle.std.specs.Prelude.{◌≡◌};
ghost use Rattle.std.specs.List.{last_or};
ghost use Rattle.dt_nest.specs.Tree.{tree_of};
ghost use Rattle.dt_nest.specs.CommunicateLoops.{communicate_loop, distributed_loops, named_loop};

use crate::loops::Nest;
use crate::parts::Moved;
use crate::schedules::Sched;

fn named_loop(moved: &[Moved], tensor: u32) -> Option<u32>
    ensures { result ≡ named_loop moved.now tensor }
{
    let moved = moved.iter().find(|m| m.tensor == tensor)?;
    Some(moved.at)
}

/// The last of the first `k` loops, or `outer` where there is none.
fn last_loop(nest: &Nest, k: u32, outer: Option<u32>) -> Option<u32>
    ensures { result ≡ last_or outer (distributed_loops k (tree_of nest.now)) }
{
    if k == 0 {
        return outer;
    }
    match nest {
        Nest::Loop { var, body, .. } => last_loop(body, k - 1, Some(*var)),
        Nest::Pre { .. } => outer,
        Nest::Leaf { .. } => outer,
    }
}

/// The loop for whose iterations a tensor or workspace of the schedule is moved; without one it is moved once, at the root.
pub fn communicate_loop(sched: &Sched, tensor: u32) -> Option<u32>
    ensures { result ≡ communicate_loop sched.now tensor }
{
    let parts = sched.parts();
    match named_loop(parts.moved.as_slice(), tensor) {
        Some(v) => Some(v),
        None => last_loop(&parts.nest, parts.distributed, None),
    }
}
