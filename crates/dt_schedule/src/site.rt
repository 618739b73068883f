//! What a command line may ask of its job.

use dt_model::Locator;

/// The machine's dimensions, and where the tensors' words lie: how many positions each has, among the rest.
#[derive(Drop)]
pub struct Site<'a, L: Locator> {
    pub grid: &'a [u32],
    pub loc: &'a L,
}
