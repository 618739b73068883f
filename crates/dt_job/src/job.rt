//! A whole job.

use crate::outputs::Shows;
use dt_base::{Lines, Names};
use dt_place::{Machine, Places};
use dt_plan::Parts;
use dt_tensor::Tensors;

/// A job that was read: the machine, and in the order of the text the tensors' names, the tensors as they are given, a
/// placement for each of them, the statements' texts as they are printed, their parts, and the outputs.
#[derive(Debug, Drop)]
pub struct Job {
    pub machine: Machine,
    pub names: Names,
    pub tensors: Tensors,
    pub places: Places,
    pub heads: Lines,
    pub parts: Parts,
    pub shows: Shows,
}
