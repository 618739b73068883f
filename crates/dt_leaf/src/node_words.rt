//! The numbers in a node's memory.

use crate::numbers::Numbers;
use crate::words::word_at;
use dt_mem::NodeMem;
use dt_model::Locator;
use dt_nest::Sched;

/// The numbers of a schedule's tensors and workspaces in a node's memory. `slots` has the buffer of each. At coordinates
/// that have no word the number is 0.
#[derive(Clone, Copy)]
pub struct NodeWords<'m, 'p, L: Locator> {
    pub mem: &'m NodeMem<'p>,
    pub sched: &'m Sched,
    pub loc: &'m L,
    pub slots: &'m [u32],
}

impl<'m, 'p, L: Locator> Numbers for NodeWords<'m, 'p, L> {
    ghost use Rattle.std.specs.Prelude.{◌≡◌, length};
    ghost use Rattle.dt_nest.specs.Unit.{entries_in};
    ghost use Rattle.dt_leaf.specs.NodeWords.{cells_in, readable_in};

    ghost entries = { λ w. entries_in (L.tensors w.loc.now) w.sched.now (cells_in w.mem.now w.slots.now) };

    ghost can_read = { λ w t c. (length (L.tensors w.loc.now) ≡ length w.sched.now.tensors) × readable_in (L.tensors w.loc.now) w.sched.now (cells_in w.mem.now w.slots.now) t c };

    fn number(&self, tensor: u32, coords: &[u32]) -> u64 {
        match word_at(self.sched, self.loc, tensor, coords) {
            None => 0,
            Some(word) => self.mem.read(self.slots[tensor as usize], word),
        }
    }
}
