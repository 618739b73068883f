//! Whether a node holds each word of a schedule's tensors and workspaces.

ghost use Rattle.std.specs.Prelude.{◌≡◌, ◌↔◌, ℕ, ◌+◌, ◌<◌, ◌≤◌, IsTrue, Some, is_some, length, slice_get, true};
ghost use Rattle.dt_base.specs.Rows.{product};
ghost use Rattle.dt_mem.specs.Memory.{value_at};
ghost use Rattle.dt_model.specs.Positions.{tensor_at};
ghost use Rattle.dt_nest.specs.declared.parts.Work.{Work};
ghost use Rattle.dt_nest.specs.Unit.{Sign};
ghost use Rattle.dt_leaf.specs.NodeWords.{cells_in};
ghost use Rattle.dt_node.specs.Nodes.{AreThere, HoldsAll, HoldsBelow};

use dt_mem::NodeMem;
use dt_model::Locator;
use dt_nest::{Sched, Work};

/// The product of some extents.
fn product_of(extents: &[u32]) -> u32
    requires { product extents.now ≤ 1048576 }
    ensures { result ≡ product extents.now }
{
    match extents.split_first() {
        None => 1,
        Some((extent, rest)) => {
            if *extent == 0 {
                0
            } else {
                *extent * product_of(rest)
            }
        }
    }
}

/// Whether a buffer has each word below a number.
fn has_below(mem: &NodeMem<'_>, buf: u32, count: u32) -> bool
    requires { buf < length mem.now }
    ensures { IsTrue result ↔ ((w : ℕ) → w < count → is_some (value_at mem.now buf w) ≡ true) }
{
    for word in 0..count {
        if !mem.holds(buf, word) {
            return false;
        }
    }
    true
}

/// Whether the node has each word below a number of a tensor or workspace.
fn slot_holds(mem: &NodeMem<'_>, slots: &[u32], at: usize, count: u32) -> bool
    requires { AreThere slots.now mem.now }
    ensures { IsTrue result ↔ HoldsBelow (cells_in mem.now slots.now) at count }
{
    match slots.get(at) {
        None => count == 0,
        Some(buf) => has_below(mem, *buf, count),
    }
}

/// Whether the buffer of a tensor or workspace is present.
fn is_present(mem: &NodeMem<'_>, slots: &[u32], at: usize) -> bool
    requires { AreThere slots.now mem.now }
    ensures { result ≡ is_some (cells_in mem.now slots.now (Sign at)) }
{
    match slots.get(at) {
        None => false,
        Some(buf) => mem.words(*buf).is_some(),
    }
}

/// Whether each tensor's words are held.
fn holds_tensors<L: Locator>(mem: &NodeMem<'_>, loc: &L, slots: &[u32], tensors: u32) -> bool
    requires there { AreThere slots.now mem.now }
    requires tensors { tensors ≡ length (L.tensors loc.now) }
    ensures { IsTrue result ↔ ((t : ℕ) → t < tensors → HoldsBelow (cells_in mem.now slots.now) t (length (tensor_at (L.tensors loc.now) t).coords)) }
{
    for tensor in 0..tensors {
        if !slot_holds(mem, slots, tensor as usize, loc.count(tensor)) {
            return false;
        }
    }
    true
}

/// Whether each workspace's words are held, where workspaces come after so many tensors.
fn holds_works(mem: &NodeMem<'_>, works: &[Work], slots: &[u32], tensors: u32) -> bool
    requires there { AreThere slots.now mem.now }
    requires small { (u : ℕ) → (x : Work) → slice_get works.now u ≡ Some x → product x.extents ≤ 1048576 }
    requires few { tensors + length works.now < 4294967296 }
    ensures { IsTrue result ↔ ((u : ℕ) → (x : Work) → slice_get works.now u ≡ Some x → HoldsBelow (cells_in mem.now slots.now) (tensors + u) (product x.extents)) }
{
    for (u, work) in works.iter().enumerate() {
        let words = product_of(work.extents.as_slice());
        if !slot_holds(mem, slots, tensors as usize + u, words) {
            return false;
        }
    }
    true
}

/// Whether the buffer of each workspace is present, where workspaces come after so many tensors.
fn are_present(mem: &NodeMem<'_>, slots: &[u32], tensors: u32, works: u32) -> bool
    requires there { AreThere slots.now mem.now }
    ensures { IsTrue result ↔ ((u : ℕ) → u < works → is_some (cells_in mem.now slots.now (Sign (tensors + u))) ≡ true) }
{
    for u in 0..works {
        if !is_present(mem, slots, tensors as usize + u as usize) {
            return false;
        }
    }
    true
}

/// Whether a node's memory has each word of the schedule's tensors and workspaces, and the buffer of each workspace. `slots`
/// has the buffer of each.
pub fn holds_all<L: Locator>(mem: &NodeMem<'_>, sched: &Sched, loc: &L, slots: &[u32]) -> bool
    requires there { AreThere slots.now mem.now }
    requires tensors { length (L.tensors loc.now) ≡ length sched.now.tensors }
    ensures { IsTrue result ↔ HoldsAll (L.tensors loc.now) sched.now (cells_in mem.now slots.now) }
{
    let parts = sched.parts();
    let tensors = parts.tensors.as_slice().len() as u32;
    let works = parts.works.as_slice();
    holds_tensors(mem, loc, slots, tensors)
        && holds_works(mem, works, slots, tensors)
        && are_present(mem, slots, tensors, works.len() as u32)
}
