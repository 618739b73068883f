//! The homes of a matrix on a grid of 8x8 nodes.

ghost use Rattle.std.specs.Prelude.{◌≤◌, ◌<◌, IfOk, IfSome, length};
ghost use Rattle.dt_place.specs.Placements.{IsPlacement};

use crate::case_end::CaseEnd;
use dt_base::NoMemory;
use dt_model::Shape;
use dt_place::{Machine, Placement, home, parse_machine, parse_place};
use dt_tensor::{Tensor, Tensors};
use std::alloc::Global;

/// The most rows of the matrix.
pub const MOST_ROWS: u32 = 1024;

/// A square matrix of zeros.
fn matrix(alloc: Global, rows: u32) -> Result<Option<Tensors>, NoMemory>
    requires { rows ≤ MOST_ROWS }
    ensures { IfOk result (λ found. IfSome found (λ tensors. 0 < length tensors)) }
{
    let Some(shape) = Shape::from_extents(&[rows, rows]) else {
        return Ok(None);
    };
    let count = shape.count();
    if count > 1_048_576 {
        return Ok(None);
    }
    let values = vec![in alloc; 0u64; count as usize]?;
    Ok(Some(Tensors::from_list(vec![in alloc; Tensor::dense(shape, values)]?)))
}

/// The sum of the counts of words over the homes of a square matrix that lies in 8x8 blocks, and 0 where only the matrix
/// is to be built.
pub fn homes(alloc: Global, rows: u32, only_matrix: bool) -> Result<u32, CaseEnd>
    requires { rows ≤ MOST_ROWS }
{
    let Some(tensors) = matrix(alloc, rows)? else {
        return Err(CaseEnd::Refused);
    };
    let machine: Machine = parse_machine(alloc, b" 8x8")?;
    let placement = parse_place(alloc, b" B xy -> xy", 2, &machine)?;
    if only_matrix {
        return Ok(0);
    }
    let sum = words_of_homes(alloc, &placement, &machine, &tensors)?;
    Ok(sum)
}

/// The sum of the counts of words over the homes of the first tensor on all nodes.
fn words_of_homes(
    alloc: Global,
    placement: &Placement,
    machine: &Machine,
    tensors: &Tensors,
) -> Result<u32, NoMemory>
    requires placement { IsPlacement placement.now machine.now }
    requires tensor { 0 < length tensors.now }
{
    let mut sum = 0u32;
    for node in 0..machine.nodes() {
        let words = home(alloc, placement, machine, tensors, 0, node)?;
        sum = sum.wrapping_add(words.count());
    }
    Ok(sum)
}
