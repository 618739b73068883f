//! In: entries, or the numbers of a dense tensor. Out: a stored tensor, or the first offence, by `pack`; and where each
//! word lies, by `Tensors` as a `Locator`.
#![tactic(auto)]

mod dense;
mod entry;
mod levels;
mod packed_levels;
mod packing;
mod tensor;
mod tensor_levels;
mod tensors;
#[cfg(test)]
mod tests;

pub use dense::DenseLevels;
pub use entry::{Entries, Given};
pub use levels::Levels;
pub use packed_levels::PackedLevels;
pub use packing::{PackEnd, pack};
pub use tensor::Tensor;
pub use tensor_levels::{LevelKind, TensorLevels};
pub use tensors::Tensors;
