//! The words that the nodes need in a matrix product after SUMMA, on a grid of 4x4 nodes.

ghost use Rattle.std.specs.Prelude.{◌<◌, length, map};
ghost use Rattle.dt_nest.specs.FitsStored.{FitsStored};
ghost use Rattle.dt_tensor.specs.Packed.{stored_of};

use crate::case_end::CaseEnd;
use crate::jobs::{SUMMA, job_of_size};
use dt_bounds::{is_path, needed};
use dt_nest::Sched;
use dt_tensor::Tensors;
use std::alloc::Global;

/// The most rows of a matrix.
pub const MOST_ROWS: u32 = 128;

/// How many nodes stand in a row of the grid and in a column, and how many steps the sum has.
const SIDE: u32 = 4;

/// The tensors by their numbers: the left one, and the two that are read.
const LEFT: u32 = 0;

const RIGHT: [u32; 2] = [1, 2];

/// The sum of the counts of words over all that the nodes need, and 0 where only the job is to be read.
pub fn needs(alloc: Global, rows: u32, only_job: bool) -> Result<u32, CaseEnd> {
    let job = job_of_size(alloc, SUMMA, rows)?;
    if only_job {
        return Ok(0);
    }
    match job.parts.as_slice() {
        [] => Err(CaseEnd::Refused),
        [part, ..] => words_of_nodes(alloc, &part.sched, &job.tensors),
    }
}

/// The sum of the counts over all nodes.
fn words_of_nodes(alloc: Global, sched: &Sched, tensors: &Tensors) -> Result<u32, CaseEnd>
    requires { FitsStored (map stored_of tensors.now) sched.now }
{
    let mut sum = 0u32;
    for row in 0..SIDE {
        for column in 0..SIDE {
            let words = words_of_node(alloc, sched, tensors, row, column)?;
            sum = sum.wrapping_add(words);
        }
    }
    Ok(sum)
}

/// The sum of the counts over what one node needs: its block of the left tensor, and at each step two blocks.
fn words_of_node(
    alloc: Global,
    sched: &Sched,
    tensors: &Tensors,
    row: u32,
    column: u32,
) -> Result<u32, CaseEnd>
    requires { FitsStored (map stored_of tensors.now) sched.now }
{
    let mut sum = words_under(alloc, sched, tensors, LEFT, &[row, column])?;
    for step in 0..SIDE {
        for tensor in RIGHT {
            let words = words_under(alloc, sched, tensors, tensor, &[row, column, step])?;
            sum = sum.wrapping_add(words);
        }
    }
    Ok(sum)
}

/// How many words of the tensor the path needs.
fn words_under(
    alloc: Global,
    sched: &Sched,
    tensors: &Tensors,
    tensor: u32,
    path: &[u32],
) -> Result<u32, CaseEnd>
    requires { FitsStored (map stored_of tensors.now) sched.now }
{
    if tensor as usize >= tensors.len() || !is_path(sched, path) {
        return Err(CaseEnd::Refused);
    }
    Ok(needed(alloc, sched, tensors, tensor, path)?.count())
}
