//! Tensors for the schedule that the tests visit.

ghost use Rattle.std.specs.Prelude.{◌≡◌, ◌≤◌, ◌∷◌, [], IfOk, map};
ghost use Rattle.dt_nest.specs.FitsStored.{FitsStored};
ghost use Rattle.dt_tensor.specs.Packed.{IsPacked, stored_of};
ghost use Rattle.dt_visit_tests.specs.RowSchedule.{row_schedule};

use dt_base::Coords;
use dt_model::Shape;
use dt_tensor::{Entries, Given, Tensor, Tensors, pack};
use std::alloc::Global;
use std::test::Fail;

/// A vector of zeros.
fn zeros(alloc: Global, extent: u32) -> Result<Tensor, Fail>
    ensures extents { IfOk result (λ t. t.extents ≡ extent ∷ []) }
    ensures packed { IfOk result (λ t. IsPacked t) }
{
    let shape = Shape::from_extents(&[extent]).ok_or("no shape")?;
    let count = shape.count();
    if count > 1048576 {
        return Err("too many")?;
    }
    let tensor = Tensor::dense(shape, vec![in alloc; 0u64; count as usize]?);
    let _packed = tensor.shape();
    Ok(tensor)
}

/// A matrix of 3 rows and 4 columns that stores nothing in row 1; its rows and its columns are compressed.
fn matrix(alloc: Global) -> Result<Tensor, Fail>
    ensures extents { IfOk result (λ t. t.extents ≡ 3 ∷ 4 ∷ []) }
    ensures packed { IfOk result (λ t. IsPacked t) }
{
    let mut entries = Entries::new(alloc);
    for at in [[0, 1], [0, 3], [2, 0]] {
        let at = Coords::of_few(alloc, &at);
        entries.push(Given { at, value: 1 })?;
    }
    if entries.as_slice().len() > 9 {
        return Err("many entries")?;
    }
    let shape = Shape::from_extents(&[3, 4]).ok_or("no shape")?;
    let levels = [true, true, false, false];
    match pack(alloc, shape, levels, &entries) {
        Err(_) => Err("not packed")?,
        Ok(tensor) => {
            let _packed = tensor.shape();
            Ok(tensor)
        }
    }
}

/// The tensors A, B and C.
pub fn row_tensors(alloc: Global) -> Result<Tensors, Fail>
    ensures { IfOk result (λ tensors. FitsStored (map stored_of tensors) row_schedule) }
{
    let mut list = Vec::new(alloc);
    list.push(zeros(alloc, 3)?)?;
    list.push(matrix(alloc)?)?;
    list.push(zeros(alloc, 4)?)?;
    Ok(Tensors::from_list(list))
}
