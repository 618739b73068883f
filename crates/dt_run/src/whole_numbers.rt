//! The numbers of whole tensors, as a leaf reads them.

use dt_leaf::Numbers;
use dt_model::Whole;

/// The numbers of whole tensors. Where there is no tensor or no such index the number is 0.
#[derive(Clone, Copy)]
pub(crate) struct WholeNumbers<'t> {
    pub(crate) tensors: &'t [Whole],
}

impl<'t> Numbers for WholeNumbers<'t> {
    ghost use Rattle.dt_nest.specs.World.{entries_of};

    ghost entries = { λ w. entries_of w.tensors.now };

    ghost can_read = { λ w t c. Unit {0} };

    fn number(&self, tensor: u32, coords: &[u32]) -> u64 {
        match self.tensors.get(tensor as usize) {
            None => 0,
            Some(tensor) => tensor.get(coords).unwrap_or(0),
        }
    }
}
