//! The schedule that a statement starts with.

ghost use Rattle.std.specs.Prelude.{◌≡◌, ◌≤◌, IfOk, length};
ghost use Rattle.dt_nest.specs.Tree.{tree_of};
ghost use Rattle.dt_nest.specs.Chain.{chain};

use crate::loops::Nest;
use dt_base::NoMemory;
use std::alloc::Global;

/// One loop for each extent around a nest, the loop of variable 0 outermost.
pub fn chain_around(alloc: Global, extents: &[u32], inner: Nest) -> Result<Nest, NoMemory>
    requires { length extents.now ≤ 8 }
    ensures { IfOk result (λ n. tree_of n ≡ chain 0 extents.now (tree_of inner)) }
{
    let mut nest = inner;
    let mut v = extents.len();
    while v > 0 {
        v -= 1;
        let body = Box::new(alloc, nest)?;
        nest = Nest::Loop {
            var: v as u32,
            extent: extents[v],
            walk: None,
            body,
        };
    }
    Ok(nest)
}
