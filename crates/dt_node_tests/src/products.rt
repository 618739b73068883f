//! Products of 2x2 matrices on one node.

use crate::node::{Spot, numbers_on_node};
use dt_base::Coords;
use dt_job::read_job;
use dt_model::Shape;
use dt_tensor::{Entries, Given, Tensor, Tensors, pack};
use dt_tests::statements::schedule_in;
use dt_tests::written::{Part, Written, statement, zero};
use std::alloc::Global;
use std::test::Fail;

/// A(i,j) = B(i,k) * C(k,j).
const PRODUCT: Written = Written {
    extents: &[2, 2, 2],
    shapes: &[&[2, 2], &[2, 2], &[2, 2]],
    left: (0, &[0, 1]),
    adds: false,
    terms: &[&[Part::At(1, &[0, 2]), Part::At(2, &[2, 1])]],
};

/// The numbers of the left tensor of a job's first statement.
pub fn of_job(alloc: Global, text: &[u8], lack: Option<Spot>, each: bool) -> Result<String, Fail> {
    if text.len() > 10_000 {
        return Err("too long")?;
    }
    let Ok(job) = read_job(alloc, text) else {
        return Err("no job")?;
    };
    match job.parts.as_slice() {
        [] => Err("no part")?,
        [part, ..] => numbers_on_node(alloc, &part.sched, &job.tensors, lack, each),
    }
}

/// The matrix `0 2`, `3 0`, of which 2 and 3 are stored.
fn few(alloc: Global) -> Result<Tensor, Fail> {
    let mut entries = Entries::new(alloc);
    for (row, column, value) in [(0, 1, 2), (1, 0, 3)] {
        entries.push(Given {
            at: Coords::of_few(alloc, &[row, column]),
            value,
        })?;
    }
    if entries.as_slice().len() > 9 {
        return Err("many entries")?;
    }
    let shape = Shape::from_extents(&[2, 2]).ok_or("no shape")?;
    let columns = [false, true, false, false];
    Ok(pack(alloc, shape, columns, &entries).map_err(|_| "not packed")?)
}

/// The matrix `5 6`, `7 8`.
fn full(alloc: Global) -> Result<Tensor, Fail> {
    let shape = Shape::from_extents(&[2, 2]).ok_or("no shape")?;
    if shape.count() != 4 {
        return Err("not four numbers")?;
    }
    Ok(Tensor::dense(shape, vec![in alloc; 5u64, 6, 7, 8]?))
}

/// The numbers of the product of a matrix of which few numbers are stored.
pub fn of_few(alloc: Global, lack: Option<Spot>, each: bool) -> Result<String, Fail> {
    let mut list = Vec::new(alloc);
    list.push(zero(alloc, &[2, 2])?)?;
    list.push(few(alloc)?)?;
    list.push(full(alloc)?)?;
    let tensors = Tensors::from_list(list);
    let stmt = statement(alloc, &PRODUCT)?;
    match schedule_in(alloc, &stmt, &tensors)? {
        None => Err("no statement")?,
        Some(sched) => numbers_on_node(alloc, &sched, &tensors, lack, each),
    }
}
