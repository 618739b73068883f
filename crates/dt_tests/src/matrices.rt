//! A matrix of which few numbers are stored.

use dt_base::Coords;
use dt_model::Shape;
use dt_tensor::{Entries, Given, Tensor, pack};
use std::alloc::Global;
use std::test::Fail;

/// The matrix `0 2 0 1`, `0 0 0 0`, `3 0 0 0`, `0 0 0 4`: its rows are dense, its columns compressed. Its positions are those
/// of the numbers 2, 1, 3 and 4, in this order.
pub(crate) fn sparse_matrix(alloc: Global) -> Result<Tensor, Fail> {
    let mut entries = Entries::new(alloc);
    for (row, column, value) in [(0, 1, 2), (0, 3, 1), (2, 0, 3), (3, 3, 4)] {
        entries.push(Given {
            at: Coords::of_few(alloc, &[row, column]),
            value,
        })?;
    }
    if entries.as_slice().len() > 9 {
        return Err("many entries")?;
    }
    let shape = Shape::from_extents(&[4, 4]).ok_or("no shape")?;
    let columns = [false, true, false, false];
    Ok(pack(alloc, shape, columns, &entries).map_err(|_| "not packed")?)
}
